//! What a pattern begins with: the start of a text, or certain bytes.
ghost use Rattle.std.specs.Prelude.{◌≡◌, ◌-◌, ◌≤◌, ◌||◌, ℕ, not, IfSome, IsTrue};
ghost use Rattle.std.specs.List.{prefix_len};
ghost use Rattle.hc_pattern.specs.Bits.{has_byte};
ghost use Rattle.hc_pattern.specs.Pattern.{Pattern, pattern_of};
ghost use Rattle.hc_ways.specs.Kept.{match_among};
ghost use Rattle.hc_match.specs.Single.{BeginsAtStart, BeginsWith, is_first};

use crate::front::{before_byte, of_byte, of_set};
use hc_pattern::{ByteSet, Pat};

/// A byte, or one of certain bytes.
#[derive(Clone, Copy)]
pub enum First {
    Byte(u8),
    Class(ByteSet),
}

impl First {
    /// The next place where one of the bytes is, or the end: no match begins before it.
    fn next_place(self, text: &[u8], from: usize) -> usize
        ensures later { from ≤ result }
        ensures same { (pattern : Pattern) (end : ℕ) → BeginsWith self pattern
            → match_among text.now pattern (end - result) result ≡ match_among text.now pattern (end - from) from }
    {
        let (_, rest) = text.split_at(from.min(text.len()));
        from + self.before(rest)
    }

    /// How many of the bytes come before the first other one.
    #[inline(always)]
    pub fn front(self, text: &[u8]) -> usize
        ensures { result ≡ prefix_len (is_first self) text.now }
    {
        match self {
            First::Byte(byte) => of_byte(text, byte),
            First::Class(set) => of_set(text, &set),
        }
    }

    // How many other bytes come before the first of them.
    fn before(self, text: &[u8]) -> usize
        ensures { result ≡ prefix_len (λ byte. not (is_first self byte)) text.now }
    {
        match self {
            First::Byte(byte) => before_byte(text, byte),
            First::Class(set) => of_set(text, &set.complement()),
        }
    }

    fn set(self) -> ByteSet
        ensures { (byte : ℕ) → has_byte result byte ≡ is_first self byte }
    {
        match self {
            First::Byte(byte) => ByteSet::empty().with(byte),
            First::Class(set) => set,
        }
    }

    fn or(self, other: First) -> First
        ensures { (byte : ℕ) → is_first result byte ≡ (is_first self byte || is_first other byte) }
    {
        First::Class(self.set().union(other.set()))
    }
}

/// The pattern is seen to match at the start of a text only.
pub fn begins_at_start(pat: &Pat) -> bool
    ensures { IsTrue result → BeginsAtStart (pattern_of pat.now) }
{
    match pat {
        Pat::Start => true,
        Pat::Cat(first, _) => begins_at_start(first),
        Pat::Alt(first, second) => begins_at_start(first) && begins_at_start(second),
        Pat::Group(_, body) => begins_at_start(body),
        Pat::Repeat(body, least, _, _) => *least > 0 && begins_at_start(body),
        Pat::Empty | Pat::Byte(_) | Pat::Class(_) | Pat::Finish => false,
    }
}

/// The same as `first_bytes`: a byte is seen at once.
#[inline(always)]
pub fn front_bytes(pat: &Pat) -> Option<First>
    ensures { IfSome result (λ first. BeginsWith first (pattern_of pat.now)) }
{
    match pat {
        Pat::Byte(byte) => Some(First::Byte(*byte)),
        _ => first_bytes(pat),
    }
}

/// Bytes of which one stands at the beginning of each match, where there are such that are soon seen.
fn first_bytes(pat: &Pat) -> Option<First>
    ensures { IfSome result (λ first. BeginsWith first (pattern_of pat.now)) }
{
    match pat {
        Pat::Byte(byte) => Some(First::Byte(*byte)),
        Pat::Class(set) => Some(First::Class(*set)),
        Pat::Cat(first, _) => first_bytes(first),
        Pat::Alt(first, second) => match (first_bytes(first), first_bytes(second)) {
            (Some(first), Some(second)) => Some(first.or(second)),
            _ => None,
        },
        Pat::Group(_, body) => first_bytes(body),
        Pat::Repeat(body, least, _, _) => { if *least > 0 { first_bytes(body) } else { None } }
        Pat::Empty | Pat::Start | Pat::Finish => None,
    }
}

/// The next place at which a match may begin.
pub fn next_place(text: &[u8], starts: Option<First>, from: usize) -> usize
    ensures later { from ≤ result }
    ensures same { (pattern : Pattern) (end : ℕ) → IfSome starts (λ first. BeginsWith first pattern)
        → match_among text.now pattern (end - result) result ≡ match_among text.now pattern (end - from) from }
{
    match starts {
        Some(first) => first.next_place(text, from),
        None => from,
    }
}
