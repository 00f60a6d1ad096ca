//! Patterns of one node, and the fronts of sequences: tested in place.
ghost use Rattle.std.specs.Prelude.{◌≡◌, ◌+◌, ◌<◌, ◌%◌, ◌==◌, [], length, slice_get};
ghost use Rattle.std.specs.Prelude.{IfSome, IfNone, IsTrue};
ghost use Rattle.std.specs.Int.{bit_at};
ghost use Rattle.hc_pattern.specs.Bits.{has_bit, has_byte};
ghost use Rattle.hc_pattern.specs.Pattern.{pattern_of};
ghost use Rattle.hc_ways.specs.Ways.{meets, stop};
ghost use Rattle.hc_ways.specs.Kept.{Held, last_ways};
ghost use Rattle.hc_match.specs.Single.{is_single};

use hc_pattern::{ByteSet, Pat};

/// What is left of a pattern, and from where.
#[derive(Clone, Copy)]
pub struct Rest<'p> {
    pub pat: &'p Pat,
    pub at: usize,
}

/// What is left of a sequence when all single nodes that it begins with have been passed, but for a
/// single node at its end. None where one of them doesn't fit.
pub fn past_front<'p>(text: &[u8], pat: &'p Pat, at: usize) -> Option<Rest<'p>>
    ensures some { IfSome result (λ rest. (held : Held)
        → last_ways text.now (pattern_of rest.pat.now) rest.at held
        ≡ last_ways text.now (pattern_of pat.now) at held) }
    ensures none { IfNone result ((held : Held) → last_ways text.now (pattern_of pat.now) at held ≡ []) }
{
    let mut rest = pat;
    let mut from = at;
    'front: while let Pat::Cat(first, second) = rest {
        if !is_single(first) {
            break;
        }
        let Some(end) = single_end(text, first, from) else {
            return None;
        };
        rest = second;
        from = end;
    }
    Some(Rest {
        pat: rest,
        at: from,
    })
}

pub fn is_single(pat: &Pat) -> bool
    ensures { result ≡ is_single (pattern_of pat.now) }
{
    match pat {
        Pat::Empty | Pat::Byte(_) | Pat::Class(_) | Pat::Start | Pat::Finish => true,
        Pat::Cat(_, _) | Pat::Alt(_, _) | Pat::Group(_, _) | Pat::Repeat(_, _, _, _) => false,
    }
}

/// Where the one way of a single node ends, if it has one here.
pub fn single_end(text: &[u8], pat: &Pat, at: usize) -> Option<usize>
    requires { IsTrue (is_single (pattern_of pat.now)) }
    ensures some { IfSome result (λ end. (held : Held)
        → last_ways text.now (pattern_of pat.now) at held ≡ stop end held) }
    ensures none { IfNone result ((held : Held) → last_ways text.now (pattern_of pat.now) at held ≡ []) }
{
    match pat {
        Pat::Empty => Some(at),
        Pat::Byte(byte) => if is_byte(text, at, *byte) {
            Some(at + 1)
        } else {
            None
        },
        Pat::Class(set) => if is_in_class(text, at, set) {
            Some(at + 1)
        } else {
            None
        },
        Pat::Start => if at == 0 { Some(at) } else { None },
        Pat::Finish => if at == text.len() { Some(at) } else { None },
        Pat::Cat(_, _) | Pat::Alt(_, _) | Pat::Group(_, _) | Pat::Repeat(_, _, _, _) => None,
    }
}

/// The byte is at the place.
pub fn is_byte(text: &[u8], at: usize, byte: u8) -> bool
    ensures value { result ≡ meets (λ c. c == byte) (slice_get text.now at) }
    ensures within { IsTrue result → at < length text.now }
{
    match text.get(at) {
        Some(found) => *found == byte,
        None => false,
    }
}

/// A byte of the set is at the place.
pub fn is_in_class(text: &[u8], at: usize, set: &ByteSet) -> bool
    ensures value { result ≡ meets (has_byte set.now) (slice_get text.now at) }
    ensures within { IsTrue result → at < length text.now }
{
    match text.get(at) {
        Some(found) => is_in(set, *found),
        None => false,
    }
}

/// The byte is in the set.
pub fn is_in(set: &ByteSet, byte: u8) -> bool
    ensures { result ≡ has_byte set.now byte }
{
    if byte >= 128 {
        return has_bit(set.high, byte - 128);
    }
    has_bit(set.low, byte)
}

// By a word of 64 bits, which takes fewer instructions than a shift of 128.
fn has_bit(bits: u128, place: u8) -> bool
    requires { place < 128 }
    ensures { result ≡ has_bit bits place }
{
    half(bits, place) & u128::from(1u64 << (place % 64)) != 0
}

fn half(bits: u128, place: u8) -> u128
    requires { place < 128 }
    ensures { bit_at result (place % 64) ≡ bit_at bits place }
{
    if place < 64 { bits } else { bits >> 64 }
}
