//! A number of an address, read digit by digit.
ghost use Rattle.std.specs.Prelude.{◌≡◌, ◌<◌, ◌+◌, ◌*◌, ◌/◌, ◌%◌};
ghost use Rattle.hc_net_sets.specs.Digits.{begin_digits, digit_fits, ends, next_digits, none_before, with_byte_digit};
ghost use Rattle.hc_net_sets.specs.Digits.{with_group_digit};

use crate::sought::{Family, GROUPS, Sought};

const DECIMAL: u32 = 10;

const HEXADECIMAL: u32 = 16;

const BYTE_DIGITS: u8 = 3;

const HIGHEST_BYTE: u32 = 255;

/// For each number of digits that may follow, whether those that were read may stand before them.
#[derive(Clone, Copy, PartialEq, Eq, Hash, Drop)]
pub struct Fits {
    pub none: bool,
    pub one: bool,
    pub two: bool,
    pub three: bool,
    pub four: bool,
}

/// The digits of a number that were read.
#[derive(Clone, Copy, PartialEq, Eq, Hash, Drop)]
pub enum Digits {
    /// How many decimal digits they are, and the number that they write.
    Byte(u8, u8),
    /// Hexadecimal digits.
    Group(Fits),
    /// Another text.
    Wrong,
}

/// The digit may stand where the number is divided by this power of 16.
fn digit_fits(mask: u32, own: u32, power: u32, digit: u32) -> bool
    requires { 0 < power }
    ensures { result ≡ digit_fits mask own power digit }
{
    let mask = mask / power % HEXADECIMAL;
    digit & mask == (own / power % HEXADECIMAL) & mask
}

/// Zeros may stand before the last digits.
fn none_before(mask: u32, own: u32, power: u32) -> bool
    requires { 0 < power }
    ensures { result ≡ none_before mask own power }
{
    let mask = mask / power;
    0 & mask == (own / power) & mask
}

fn with_byte_digit(count: u8, value: u8, digit: u32) -> Digits
    requires { digit < 10 }
    ensures { result ≡ with_byte_digit count value digit }
{
    let number = u32::from(value) * DECIMAL + digit;
    if count < BYTE_DIGITS && number <= HIGHEST_BYTE {
        Digits::Byte(count + 1, number as u8)
    } else {
        Digits::Wrong
    }
}

fn with_group_digit(mask: u32, own: u32, fits: Fits, digit: u32) -> Fits
    ensures { result ≡ with_group_digit mask own fits digit }
{
    Fits {
        none: fits.one && digit_fits(mask, own, 1, digit),
        one: fits.two && digit_fits(mask, own, 16, digit),
        two: fits.three && digit_fits(mask, own, 256, digit),
        three: fits.four && digit_fits(mask, own, 4096, digit),
        four: false,
    }
}

/// No digit of the number at the place was read.
pub fn begin_digits(sought: &Sought, place: u32) -> Digits
    requires { place < GROUPS }
    ensures { result ≡ begin_digits sought.now place }
{
    match sought.family {
        Family::Four => Digits::Byte(0, 0),
        Family::Six => {
            let mask = sought.mask_at(place);
            let own = sought.own_at(place);
            Digits::Group(Fits {
                none: false,
                one: none_before(mask, own, 16),
                two: none_before(mask, own, 256),
                three: none_before(mask, own, 4096),
                four: true,
            })
        }
    }
}

/// One byte more.
pub fn next_digits(sought: &Sought, place: u32, digits: Digits, byte: u8) -> Digits
    requires { place < GROUPS }
    ensures { result ≡ next_digits sought.now place digits byte }
{
    match digits {
        Digits::Byte(count, value) => match char::from(byte).to_digit(DECIMAL) {
            Some(digit) => with_byte_digit(count, value, digit),
            None => Digits::Wrong,
        },
        Digits::Group(fits) => match char::from(byte).to_digit(HEXADECIMAL) {
            Some(digit) => {
                let mask = sought.mask_at(place);
                Digits::Group(with_group_digit(mask, sought.own_at(place), fits, digit))
            }
            None => Digits::Wrong,
        },
        Digits::Wrong => Digits::Wrong,
    }
}

/// The digits write a number that may stand at the place.
pub fn ends(sought: &Sought, place: u32, digits: Digits) -> bool
    requires { place < GROUPS }
    ensures { result ≡ ends sought.now place digits }
{
    match digits {
        Digits::Byte(count, value) => count > 0 && sought.fits(place, u32::from(value)),
        Digits::Group(fits) => fits.none,
        Digits::Wrong => false,
    }
}
