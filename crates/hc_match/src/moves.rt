ghost use Rattle.std.specs.Prelude.{◌≡◌, ℕ, ◌+◌, ◌^◌, ◌<◌, ◌==◌, Some, [], if◌then◌else◌};
ghost use Rattle.std.specs.Prelude.{slice_get, IsTrue};
ghost use Rattle.hc_pattern.specs.Bits.{has_byte};
ghost use Rattle.hc_ways.specs.Ways.{meets};
ghost use Rattle.hc_match.specs.Program.{IsMeaning, Kept, Meaning, kept_past, step_ways};
ghost use Rattle.hc_match.specs.Pairs.{move_ways};

use crate::program::{Step, step_at};
use hc_pattern::ByteSet;

// What a step leads to.
#[derive(Clone, Copy)]
pub enum Move {
    Done,
    Fail,
    Next {
        step: u32,
        at: usize,
        other: Option<u32>,
    },
}

// What the pair of a step and a place of the text leads to.
pub fn next_move(steps: &[Step], text: &[u8], place: u32, at: usize) -> Move
    ensures { (meaning : Meaning) (kept : Kept) → IsMeaning text.now meaning place (slice_get steps.now place)
        → meaning place at kept ≡ move_ways meaning result at kept (kept_past (slice_get steps.now place) at kept) }
{
    match step_at(steps, place) {
        Some(step) => move_of(step, text, at),
        None => Move::Fail,
    }
}

fn move_of(step: Step, text: &[u8], at: usize) -> Move
    ensures { (meaning : Meaning) (kept : Kept)
        → step_ways text.now meaning step at kept
        ≡ move_ways meaning result at kept (kept_past (Some step) at kept) }
{
    match step {
        Step::Done => Move::Done,
        Step::Byte { byte, next } => further_if(is_byte(text, at, byte), next, at),
        Step::Class { set, next } => further_if(is_in_class(text, at, set), next, at),
        Step::Start { next } => on_if(at == 0, next, at),
        Step::Finish { next } => on_if(at == text.len(), next, at),
        Step::Open { next } => on_if(true, next, at),
        Step::Close { next, .. } => on_if(true, next, at),
        Step::Either { first, second } => Move::Next {
            step: first,
            at,
            other: Some(second),
        },
    }
}

// On to the step where the test holds.
fn on_if(holds: bool, step: u32, at: usize) -> Move
    ensures { (meaning : Meaning) (before kept : Kept)
        → move_ways meaning result at before kept ≡ (if holds then meaning step at kept else []) }
{
    if !holds {
        return Move::Fail;
    }
    Move::Next {
        step,
        at,
        other: None,
    }
}

// On to the step, one byte further, where the byte fits.
fn further_if(fits: bool, step: u32, at: usize) -> Move
    requires { IsTrue fits → at < 2 ^ 63 }
    ensures { (meaning : Meaning) (before kept : Kept)
        → move_ways meaning result at before kept ≡ (if fits then meaning step (at + 1) kept else []) }
{
    if !fits {
        return Move::Fail;
    }
    Move::Next {
        step,
        at: at + 1,
        other: None,
    }
}

fn is_byte(text: &[u8], at: usize, byte: u8) -> bool
    ensures value { result ≡ meets (λ c. c == byte) (slice_get text.now at) }
    ensures within { IsTrue result → at < 2 ^ 63 }
{
    match text.get(at) {
        Some(found) => *found == byte,
        None => false,
    }
}

fn is_in_class(text: &[u8], at: usize, set: ByteSet) -> bool
    ensures value { result ≡ meets (has_byte set) (slice_get text.now at) }
    ensures within { IsTrue result → at < 2 ^ 63 }
{
    match text.get(at) {
        Some(found) => set.has(*found),
        None => false,
    }
}
