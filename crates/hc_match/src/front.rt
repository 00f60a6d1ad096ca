//! How long the front of a text is in which each byte meets a test.
ghost use Rattle.std.specs.Prelude.{◌≡◌, ℕ, ◌<◌, ◌==◌, not, true, IfSome, IsTrue};
ghost use Rattle.std.specs.List.{position, prefix_len};
ghost use Rattle.hc_pattern.specs.Bits.{has_byte};

use crate::single::is_in;
use hc_pattern::ByteSet;
use memchr::memchr;

/// How many bytes come before the first of this value.
#[tactic(auto, using(crate::proofs::Fronts::found_ends))]
pub fn before_byte(text: &[u8], byte: u8) -> usize
    ensures { result ≡ prefix_len (λ c. not (c == byte)) text.now }
{
    memchr(byte, text).unwrap_or(text.len())
}

/// How many bytes of this value come before the first other one.
#[inline(never)]
#[tactic(auto, using(crate::proofs::Fronts::other_ends))]
pub fn of_byte(text: &[u8], byte: u8) -> usize
    ensures { result ≡ prefix_len (λ c. c == byte) text.now }
{
    other_byte(text, byte).unwrap_or(text.len())
}

fn other_byte(text: &[u8], byte: u8) -> Option<usize>
    ensures { result ≡ position (λ c. not (c == byte)) text.now }
{
    text.iter().position(|found| *found != byte)
}

/// How many bytes of the set come before the first other one.
#[inline(never)]
#[tactic(auto, using(crate::proofs::Fronts::other_ends))]
pub fn of_set(text: &[u8], set: &ByteSet) -> usize
    ensures { result ≡ prefix_len (has_byte set.now) text.now }
{
    if set.high == u128::MAX {
        if let Some(count) = of_wide_set(text, set) {
            return count;
        }
    }
    byte_outside(text, set).unwrap_or(text.len())
}

// The same, where the set has all bytes, or all but one.
fn of_wide_set(text: &[u8], set: &ByteSet) -> Option<usize>
    ensures { IfSome result (λ count. count ≡ prefix_len (has_byte set.now) text.now) }
{
    if is_full(*set) {
        return Some(text.len());
    }
    let missing = set.low.trailing_ones() as u8;
    if *set != ByteSet::empty().with(missing).complement() {
        return None;
    }
    Some(before_byte(text, missing))
}

// It is the set of all bytes.
fn is_full(set: ByteSet) -> bool
    ensures { IsTrue result → (byte : ℕ) → byte < 256 → has_byte set byte ≡ true }
{
    set.low == u128::MAX && set.high == u128::MAX
}

fn byte_outside(text: &[u8], set: &ByteSet) -> Option<usize>
    ensures { result ≡ position (λ c. not (has_byte set.now c)) text.now }
{
    text.iter().position(|found| !is_in(set, *found))
}
