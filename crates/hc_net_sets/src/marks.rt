//! An address of a network, read byte by byte.
ghost use Rattle.std.specs.Prelude.{◌≡◌, ◌<◌, ◌≤◌, ◌+◌, ◌*◌, ◌/◌, ◌%◌};
ghost use Rattle.hc_net_sets.specs.Marks.{IsKey, IsMark, back_more, behind_gap, behind_number, front_more};
ghost use Rattle.hc_net_sets.specs.Marks.{front_number, mark_ends, next_mark};
ghost use Rattle.hc_net_sets.specs.Same.{same_mark};

use crate::digits::{Digits, begin_digits, ends, next_digits};
use crate::sought::{GROUPS, Sought};
use hc_dfa::Reading;

/// How much was read.
#[derive(Clone, Copy, PartialEq, Eq, Hash, Drop)]
pub enum Mark {
    /// Nothing of a text with `::`.
    Start,
    /// A colon, with which it begins.
    Colon,
    /// Digits of a number before `::`, at this place.
    Front(u32, Digits),
    /// A number before `::` and its colon, where so many numbers are left.
    After(u32),
    /// Digits of a number at this place, behind `::` where there is one.
    Back(u32, Digits),
    /// All, up to `::`, behind which nothing follows.
    End,
    /// Another text.
    Other,
}

/// The number at the next place begins, where so many are left.
pub fn behind_number(sought: &Sought, left: u32) -> Mark
    requires { left ≤ GROUPS }
    ensures value { result ≡ behind_number sought.now left }
    ensures mark { IsMark result }
{
    if left == 0 {
        Mark::Other
    } else {
        Mark::Back(left - 1, begin_digits(sought, left - 1))
    }
}

/// What follows `::` begins, where so many numbers were left in front of it.
fn behind_gap(sought: &Sought, left: u32) -> Mark
    requires left { left ≤ GROUPS }
    requires behind { sought.now.behind < GROUPS }
    ensures value { result ≡ behind_gap sought.now left }
    ensures mark { IsMark result }
{
    if !sought.zeros_fit(left) {
        Mark::Other
    } else if sought.behind == 0 {
        Mark::End
    } else {
        behind_number(sought, sought.behind)
    }
}

/// The first byte of a number before `::`, where so many numbers are left.
fn front_number(sought: &Sought, left: u32, byte: u8) -> Mark
    requires { left ≤ GROUPS }
    ensures value { result ≡ front_number sought.now left byte }
    ensures mark { IsMark result }
{
    if left == 0 {
        return Mark::Other;
    }
    let begin = begin_digits(sought, left - 1);
    Mark::Front(left - 1, next_digits(sought, left - 1, begin, byte))
}

/// One byte more behind these digits of a number before `::`.
fn front_more(sought: &Sought, place: u32, digits: Digits, byte: u8) -> Mark
    requires { place < GROUPS }
    ensures value { result ≡ front_more sought.now place digits byte }
    ensures mark { IsMark result }
{
    if byte != b':' {
        Mark::Front(place, next_digits(sought, place, digits, byte))
    } else if ends(sought, place, digits) {
        Mark::After(place)
    } else {
        Mark::Other
    }
}

/// One byte more behind these digits of a number that no `::` follows.
fn back_more(sought: &Sought, place: u32, digits: Digits, byte: u8) -> Mark
    requires { place < GROUPS }
    ensures value { result ≡ back_more sought.now place digits byte }
    ensures mark { IsMark result }
{
    if byte != sought.family.separator() {
        Mark::Back(place, next_digits(sought, place, digits, byte))
    } else if ends(sought, place, digits) {
        behind_number(sought, place)
    } else {
        Mark::Other
    }
}

impl Reading for Sought {
    type Key = Mark;

    ghost is_key = { IsKey };

    ghost reads = { next_mark };

    ghost holds = { mark_ends };

    fn next(&self, mark: Mark, byte: u8) -> Mark {
        match mark {
            Mark::Start if byte == b':' => Mark::Colon,
            Mark::Start => front_number(self, GROUPS, byte),
            Mark::Colon if byte == b':' => behind_gap(self, GROUPS),
            Mark::Front(place, digits) => front_more(self, place, digits, byte),
            Mark::After(left) if byte == b':' => behind_gap(self, left),
            Mark::After(left) => front_number(self, left, byte),
            Mark::Back(place, digits) => back_more(self, place, digits, byte),
            Mark::Colon | Mark::End | Mark::Other => Mark::Other,
        }
    }

    fn holds(&self, mark: Mark) -> bool {
        match mark {
            Mark::Back(place, digits) => ends(self, place, digits) && place == 0,
            Mark::End => true,
            _ => false,
        }
    }

    ghost same = { same_mark };
}
