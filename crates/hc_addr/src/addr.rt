ghost use Rattle.std.specs.Prelude.{◌≡◌, ◌<◌, ◌≤◌, ◌*◌, ◌^◌, ◌+◌, length, Some, IfSome};
ghost use Rattle.hc_addr.specs.Numbers.{coloned_of};
ghost use Rattle.hc_addr.specs.Addresses.{has_colon, v4_of, begins_with_gap, gap_of, side_of, around, whole, v6_at};
ghost use Rattle.hc_addr.specs.Addresses.{v6_of, addr_of};

use crate::numbers::{Form, NumberRow, read_row};
use crate::sizes::{BYTES, GROUP_VALUES, GROUPS};

/// An address as a number, its first byte or group in the highest bits.
#[derive(Clone, Copy, PartialEq, Eq, Hash)]
pub enum Addr {
    /// IPv4, four bytes.
    V4(u32),
    /// IPv6, eight groups of 16 bits.
    V6(u128),
}

/// The text has a colon, as each IPv6 address has.
pub fn has_colon(text: &[u8]) -> bool
    ensures { result ≡ has_colon text.now }
{
    text.iter().any(|byte| *byte == b':')
}

/// An IPv4 address.
pub fn parse_v4(text: &[u8]) -> Option<u32>
    ensures { result ≡ v4_of text.now }
{
    let row = read_row(text, Form::Dotted)?;
    if row.count == BYTES {
        Some(row.value as u32)
    } else {
        None
    }
}

/// The text begins with `::`.
fn begins_with_gap(text: &[u8]) -> bool
    ensures { result ≡ begins_with_gap text.now }
{
    matches!(text, [b':', b':', ..])
}

/// The place of the first `::`.
fn find_gap(text: &[u8]) -> Option<usize>
    ensures value { result ≡ gap_of text.now }
    ensures within { IfSome result (λ at. at + 2 ≤ length text.now) }
{
    for at in 0..text.len() {
        let (_, rest) = text.split_at(at);
        if begins_with_gap(rest) {
            return Some(at);
        }
    }
    None
}

/// The groups on a side of `::`.
fn read_side(text: &[u8]) -> Option<NumberRow>
    ensures value { result ≡ side_of text.now }
    ensures fits { IfSome result (λ row. row.value < GROUP_VALUES ^ row.count) }
{
    if text.is_empty() {
        return Some(NumberRow { value: 0, count: 0 });
    }
    read_row(text, Form::Coloned)
}

/// The address of these groups with zeros between them.
fn join(before: NumberRow, after: NumberRow) -> Option<u128>
    requires before_fits { before.value < GROUP_VALUES ^ before.count }
    requires after_fits { after.value < GROUP_VALUES ^ after.count }
    ensures { result ≡ around (Some before) (Some after) }
{
    if before.count >= GROUPS || after.count >= GROUPS - before.count {
        return None;
    }
    if before.count == 0 {
        return Some(after.value);
    }
    Some(before.value * GROUP_VALUES.pow(GROUPS - before.count) + after.value)
}

/// An IPv6 address with its first `::` at this place.
fn parse_around(text: &[u8], gap: usize) -> Option<u128>
    requires { gap + 2 ≤ length text.now }
    ensures { result ≡ v6_at text.now (Some gap) }
{
    let (before, _) = text.split_at(gap);
    let (_, after) = text.split_at(gap + 2);
    let before = read_side(before)?;
    let after = read_side(after)?;
    join(before, after)
}

/// An IPv6 address with no `::`.
fn parse_whole(text: &[u8]) -> Option<u128>
    ensures { result ≡ whole GROUPS (coloned_of text.now) }
{
    let row = read_row(text, Form::Coloned)?;
    if row.count == GROUPS {
        Some(row.value)
    } else {
        None
    }
}

/// An IPv6 address.
pub fn parse_v6(text: &[u8]) -> Option<u128>
    ensures { result ≡ v6_of text.now }
{
    match find_gap(text) {
        Some(gap) => parse_around(text, gap),
        None => parse_whole(text),
    }
}

/// The address that the text writes: IPv4 as four decimal numbers, IPv6 as eight groups or fewer
/// with `::`. `None` for every other text. Our own choice.
pub fn parse_addr(text: &[u8]) -> Option<Addr>
    ensures { result ≡ addr_of text.now }
{
    if has_colon(text) {
        parse_v6(text).map(Addr::V6)
    } else {
        parse_v4(text).map(Addr::V4)
    }
}
