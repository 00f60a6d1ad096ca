//! Repeats of one byte: the bytes that fit are counted, and no turn is tried by itself.
ghost use Rattle.std.specs.Prelude.{◌≡◌, ℕ, ◌+◌, ◌-◌, ◌^◌, ◌≤◌, ◌<◌, Bool, List, []};
ghost use Rattle.std.specs.Prelude.{length, max, IfSome, IfNone};
ghost use Rattle.hc_pattern.specs.Pattern.{pattern_of};
ghost use Rattle.hc_ways.specs.Ways.{Ways, behind, repeated, step_where};
ghost use Rattle.hc_ways.specs.Kept.{Held, last_ways};
ghost use Rattle.hc_match.specs.Single.{is_first};
ghost use Rattle.hc_match.specs.Runs.{ends, first_end, further_turns, other_first, run_length, run_ways};

use crate::frame::Turns;
use crate::start::First;
use hc_pattern::Pat;

/// The bytes that a repeat takes: at least those up to `first`, and so many `more` at most.
#[derive(Clone, Copy)]
pub struct Run {
    pub first: usize,
    pub more: usize,
}

impl Run {
    /// Its end to be tried first: the last one where the repeat is greedy.
    #[inline(always)]
    pub fn end(self, greedy: bool) -> usize
        requires { self.first + self.more < 2 ^ 64 }
        ensures { result ≡ first_end greedy self.first self.more }
    {
        if greedy {
            self.first + self.more
        } else {
            self.first
        }
    }

    /// Its other ends.
    #[inline(always)]
    pub fn others(self, greedy: bool) -> Run
        requires some { 0 < self.more }
        requires within { self.first + self.more < 2 ^ 64 }
        ensures first { result.first ≡ other_first greedy self.first }
        ensures more { result.more ≡ self.more - 1 }
    {
        Run {
            first: if greedy { self.first } else { self.first + 1 },
            more: self.more - 1,
        }
    }
}

/// The bytes that the pattern matches, if it is one byte.
#[inline(always)]
pub fn one_byte(pat: &Pat) -> Option<First>
    ensures { IfSome result (λ set. (text : List ℕ) (at : ℕ) (held : Held)
        → last_ways text (pattern_of pat.now) at held ≡ step_where text (is_first set) at held) }
{
    match pat {
        Pat::Byte(byte) => Some(First::Byte(*byte)),
        Pat::Class(set) => Some(First::Class(*set)),
        _ => None,
    }
}

/// What a repeat of these bytes takes from this place on, if there are enough of them.
#[inline(always)]
pub fn run_of(text: &[u8], set: First, turns: Turns, at: usize) -> Option<Run>
    ensures some { IfSome result (λ run. (greedy : Bool) (next : Ways Held) (held : Held)
        → behind (run_ways text.now set turns greedy) next at held ≡ ends greedy next run.first run.more held) }
    ensures none { IfNone result ((greedy : Bool) (held : Held) → run_ways text.now set turns greedy at held ≡ []) }
    ensures within { IfSome result (λ run. run.first + run.more ≤ max at (length text.now)) }
{
    let Some(further) = further_turns(text, turns.least, turns.most) else {
        return None;
    };
    let least = usize::from(turns.least);
    let count = fitting(text, set, at, least + further);
    if count < least {
        return None;
    }
    Some(Run {
        first: at + least,
        more: count - least,
    })
}

fn further_turns(text: &[u8], least: u16, most: Option<u16>) -> Option<usize>
    ensures { result ≡ further_turns (length text.now) least most }
{
    let Some(most) = most else {
        return Some(text.len());
    };
    if most < least {
        return None;
    }
    Some(usize::from(most - least))
}

// How many of these bytes stand from this place on: of so many at most.
#[inline(always)]
fn fitting(text: &[u8], set: First, at: usize, most: usize) -> usize
    ensures value { result ≡ run_length text.now (is_first set) at most }
    ensures within { at + result ≤ max at (length text.now) }
{
    let (_, rest) = text.split_at(at.min(text.len()));
    let (rest, _) = rest.split_at(most.min(rest.len()));
    set.front(rest)
}
