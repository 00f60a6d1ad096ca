//! Numbers in text, and rows of numbers that a separator divides.
ghost use Rattle.std.specs.Prelude.{◌≡◌, ◌≤◌, ◌<◌, ◌*◌, ◌+◌, ◌^◌, length, IfSome, Some};
ghost use Rattle.std.specs.Prelude.{None, nat_le, if◌then◌else◌, ◌&&◌};
ghost use Rattle.std.specs.List.{list_all};
ghost use Rattle.std.specs.Char.{is_digit};
ghost use Rattle.std.specs.Str.Parse.{digits_value};
ghost use Rattle.hc_addr.specs.Numbers.{at_most, decimal_of, number_of};
ghost use Rattle.hc_addr.specs.Forms.{number_in, separator_of, base_of, most_of, row_in, row_with};

use crate::sizes::{
    BYTE_DIGITS, BYTE_VALUES, BYTES, DECIMAL, GROUP_DIGITS, GROUP_VALUES, GROUPS, HEXADECIMAL,
    HIGHEST_BYTE, HIGHEST_PORT,
};

/// How the numbers of an address are written.
#[derive(Clone, Copy)]
pub enum Form {
    /// Bytes in decimal digits, with dots between them.
    Dotted,
    /// Groups of 16 bits in hexadecimal digits, with colons between them.
    Coloned,
}

/// Numbers in a row: how many they are, and the number whose digits they are, the first the highest.
#[derive(Clone, Copy)]
pub struct NumberRow {
    pub value: u128,
    pub count: u32,
}

/// The number that these digits write in the base, if each byte is a digit.
fn digits_value(text: &[u8], radix: u32) -> Option<u32>
    requires low { 2 ≤ radix }
    requires high { radix ≤ HEXADECIMAL }
    requires few { length text.now ≤ GROUP_DIGITS }
    ensures value { result ≡ (if list_all (λ b. is_digit b radix) text.now
        then Some (digits_value radix text.now) else None) }
    ensures fits { IfSome result (λ n. n < GROUP_VALUES) }
{
    let mut value = 0u32;
    for byte in text {
        value = value * radix + char::from(*byte).to_digit(radix)?;
    }
    Some(value)
}

/// The number that a text of one to `most` digits writes.
pub fn number(text: &[u8], radix: u32, most: usize) -> Option<u32>
    requires low { 2 ≤ radix }
    requires high { radix ≤ HEXADECIMAL }
    requires few { most ≤ GROUP_DIGITS }
    ensures value { result ≡ number_of radix most text.now }
    ensures fits { IfSome result (λ n. n < GROUP_VALUES) }
{
    if text.is_empty() || text.len() > most {
        return None;
    }
    digits_value(text, radix)
}

/// The number that a text of decimal digits, however many, writes, if it is at most `highest`.
/// Once it passes `highest` the rest is not read, since more digits only make it larger.
pub fn number_up_to(text: &[u8], highest: u32) -> Option<u32>
    requires { highest ≤ HIGHEST_PORT }
    ensures value { result ≡ at_most highest (decimal_of text.now) }
    ensures within { IfSome result (λ n. n ≤ highest) }
{
    if text.is_empty() {
        return None;
    }
    let mut value = 0u32;
    for byte in text {
        value = value * DECIMAL + char::from(*byte).to_digit(DECIMAL)?;
        if value > highest {
            return None;
        }
    }
    Some(value)
}

impl Form {
    /// The byte between two numbers.
    fn separator(self) -> u8
        ensures { result ≡ separator_of self }
    {
        match self {
            Form::Dotted => b'.',
            Form::Coloned => b':',
        }
    }

    /// How many values a number has.
    fn base(self) -> u128
        ensures { result ≡ base_of self }
    {
        match self {
            Form::Dotted => BYTE_VALUES,
            Form::Coloned => GROUP_VALUES,
        }
    }

    /// How many numbers a row has at most.
    fn most(self) -> u32
        ensures { result ≡ most_of self }
    {
        match self {
            Form::Dotted => BYTES,
            Form::Coloned => GROUPS,
        }
    }

    /// The number that the text writes.
    fn number(self, piece: &[u8]) -> Option<u32>
        ensures value { result ≡ number_in self piece.now }
        ensures fits { IfSome result (λ n. n < base_of self) }
    {
        match self {
            Form::Dotted => number(piece, DECIMAL, BYTE_DIGITS).filter(|n| *n <= HIGHEST_BYTE),
            Form::Coloned => number(piece, HEXADECIMAL, GROUP_DIGITS),
        }
    }
}

impl NumberRow {
    /// The row with the number of this text too, if it is one and there is room.
    fn with(self, text: &[u8], form: Form) -> Option<NumberRow>
        requires fits { self.value < base_of form ^ self.count }
        ensures value { result ≡ row_with (base_of form) (most_of form) self (number_in form text.now) }
        ensures fits { IfSome result (λ row. row.value < base_of form ^ row.count) }
        ensures room { IfSome result (λ row. row.count ≤ most_of form) }
    {
        let number = form.number(text)?;
        if self.count >= form.most() {
            return None;
        }
        Some(NumberRow {
            value: self.value * form.base() + u128::from(number),
            count: self.count + 1,
        })
    }
}

/// The numbers of a text in this form.
pub fn read_row(text: &[u8], form: Form) -> Option<NumberRow>
    ensures value { result ≡ row_in form text.now }
    ensures fits { IfSome result (λ row. row.value < base_of form ^ row.count) }
    ensures few { IfSome result (λ row. row.count ≤ most_of form) }
{
    let separator = form.separator();
    let mut row = NumberRow { value: 0, count: 0 };
    for piece in text.split(|byte| *byte == separator) {
        row = row.with(piece, form)?;
    }
    Some(row)
}
