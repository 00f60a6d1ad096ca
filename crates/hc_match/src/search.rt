//! A straight search from each place of a text.
ghost use Rattle.std.specs.Prelude.{◌≡◌, [], IfOk, IfSome};
ghost use Rattle.hc_pattern.specs.Pattern.{pattern_of};
ghost use Rattle.hc_ways.specs.Kept.{first_match, held_by, last_ways, match_among, nothing_held};
ghost use Rattle.hc_match.specs.Single.{BeginsWith};
ghost use Rattle.hc_match.specs.Settings.{captured, held_over};
ghost use Rattle.hc_match.specs.Frames.{Says, Tells};

use crate::captures::{Captures, Setting};
use crate::frame::{Frame, Trial, Tried};
use crate::look::lead;
use crate::start::{First, begins_at_start, front_bytes, next_place};
use crate::straight::Straight;
use hc_base::NoMemory;
use hc_pattern::Pat;
use std::alloc::Global;

/// What came of a search.
#[derive(Drop)]
pub enum Searched {
    Match(Captures),
    NoMatch,
    /// The steps were used up.
    GaveUp,
}

// A search has so many steps: each takes a call, and so they bound the stack.
const MOST_STEPS: u32 = 4096;

/// The first match, where so many steps are enough.
pub fn first_match(alloc: Global, pat: &Pat, text: &[u8]) -> Result<Searched, NoMemory>
    ensures { IfOk result (λ searched. Tells searched (first_match text.now (pattern_of pat.now))) }
{
    let mut search = Straight {
        steps: MOST_STEPS,
        end: 0,
        settings: Vec::new(alloc),
    };
    let end = places(pat, text);
    let starts = starts(pat, end);
    let mut from = next_place(text, starts, 0);
    'places: while from < end {
        match from_place(&mut search, text, pat, from)? {
            Tried::Matched => return Ok(Searched::Match(captures(search, from)?)),
            Tried::Failed => from = next_place(text, starts, from + 1),
            Tried::GaveUp => return Ok(Searched::GaveUp),
        }
    }
    Ok(Searched::NoMatch)
}

// Bytes that a match begins with, where there are several places to look at.
fn starts(pat: &Pat, places: usize) -> Option<First>
    ensures { IfSome result (λ first. BeginsWith first (pattern_of pat.now)) }
{
    if places == 1 {
        return None;
    }
    front_bytes(lead(pat))
}

// At how many places a match may begin.
fn places(pat: &Pat, text: &[u8]) -> usize
    ensures { match_among text.now (pattern_of pat.now) result 0 ≡ first_match text.now (pattern_of pat.now) }
{
    if begins_at_start(pat) {
        1
    } else {
        text.len() + 1
    }
}

// The pattern from this place.
fn from_place(search: &mut Straight, text: &[u8], pat: &Pat, from: usize) -> Trial
    requires { search.old.settings.items ≡ [] }
    ensures { IfOk result (λ tried. Says tried search.new (last_ways text.now (pattern_of pat.now) from)) }
{
    search.pattern(text, pat, &Frame::End, from)
}

// What the groups hold after a match from this place.
fn captures(search: Straight, from: usize) -> Result<Captures, NoMemory>
    ensures { IfOk result (λ captures. captured captures
        ≡ held_by from (record { end = search.end; held = held_over nothing_held search.settings.items })) }
{
    let whole = Setting::to(0, from, search.end)?;
    let mut settings = search.settings;
    settings.insert(0, whole)?;
    Ok(Captures::of(settings))
}
