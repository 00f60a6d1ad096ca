ghost use Rattle.std.specs.Prelude.{◌≡◌, ℕ, ◌<◌, ◌≤◌, ◌+◌, ◌||◌, ◌&&◌, ◌∷◌, []};
ghost use Rattle.std.specs.Prelude.{Bool, true, IfOk, MatchOption, length, map, not, ◌==◌, option_map};
ghost use Rattle.hc_pattern.specs.Bits.{IsTested, has_byte, set_where};
ghost use Rattle.hc_pattern.specs.Classes.{class_from, class_test, folded, is_hyphen, is_in_part, is_in_ranges, joined};
ghost use Rattle.hc_pattern.specs.Classes.{part_of, part_refusal, parts_of, parts_refusal};
ghost use Rattle.hc_pattern.specs.ClassViews.{class_view, part_view, placed_view};
ghost use Rattle.std.specs.List.{list_any};
ghost use Rattle.hc_base.specs.Bytes.{bracket_close};
ghost use Rattle.hc_pattern.specs.MemberViews.{member_view};

use crate::ByteSet;
use crate::member::{Member, member_at};
use crate::set::{of_bits, set_where};
use hc_base::codes::PATTERN_SYNTAX;
use hc_base::{AtByte, NoMemory};
use std::alloc::Global;

/// A member of a class at its place.
#[derive(Clone, Copy)]
pub struct Placed {
    pub at: u32,
    pub member: Member,
}

/// The members of a class up to its `]` or to the end of the text, whether it is closed, and how many
/// bytes they and the `]` are.
#[derive(Drop)]
pub struct Class {
    pub members: Vec<Placed>,
    pub closed: bool,
    pub length: usize,
}

/// A part of a class: a range, which may be of one byte, a set, or what is refused.
#[derive(Clone, Copy)]
pub enum ClassPart {
    Range { at: u32, first: u8, last: u8 },
    Set(&'static [(u8, u8)]),
    Broken(AtByte),
}

fn part_of(placed: Placed) -> ClassPart
    ensures { part_view result ≡ part_of (placed_view placed) }
{
    let at = placed.at;
    match placed.member {
        Member::One(byte) => ClassPart::Range {
            at,
            first: byte,
            last: byte,
        },
        Member::Many(ranges) => ClassPart::Set(ranges),
        Member::Hyphen => ClassPart::Range {
            at,
            first: b'-',
            last: b'-',
        },
        Member::Refused(refusal) => ClassPart::Broken(refusal),
    }
}

fn is_hyphen(member: Member) -> bool
    ensures { result ≡ is_hyphen (member_view member) }
{
    matches!(member, Member::Hyphen)
}

// A range from the first part to the third, where these are bytes and a hyphen stands between them.
fn joined(first: ClassPart, hyphen: bool, third: ClassPart) -> Option<ClassPart>
    ensures { option_map part_view result ≡ joined (part_view first) hyphen (part_view third) }
{
    match (first, hyphen, third) {
        (ClassPart::Range { at, first, .. }, true, ClassPart::Range { first: last, .. }) => {
            Some(ClassPart::Range { at, first, last })
        }
        _ => None,
    }
}

// The first part of these members, and the members behind it.
fn next_part(members: &[Placed]) -> Option<(ClassPart, &[Placed])>
    ensures value { MatchOption result (parts_of (map placed_view members.now) ≡ [])
        (λ p. parts_of (map placed_view members.now) ≡ part_view p.0 ∷ parts_of (map placed_view p.1.now)) }
    ensures less { MatchOption result (members.now ≡ []) (λ p. length p.1.now < length members.now) }
{
    match members {
        [] => None,
        [x, y, z, more @ ..] => match joined(part_of(*x), is_hyphen(y.member), part_of(*z)) {
            Some(part) => Some((part, more)),
            None => Some((part_of(*x), &members[1..])),
        },
        [x, more @ ..] => Some((part_of(*x), more)),
    }
}

fn part_refusal(part: ClassPart) -> Option<AtByte>
    ensures { result ≡ part_refusal (part_view part) }
{
    match part {
        ClassPart::Range { at, first, last } if last < first => Some(AtByte {
            code: PATTERN_SYNTAX,
            at,
        }),
        ClassPart::Broken(refusal) => Some(refusal),
        _ => None,
    }
}

/// The first refusal of a class, in reading from the left.
pub fn class_refusal(members: &[Placed]) -> Option<AtByte>
    ensures { result ≡ parts_refusal (parts_of (map placed_view members.now)) }
{
    let mut rest = members;
    'members: while let Some((part, more)) = next_part(rest) {
        if let Some(refusal) = part_refusal(part) {
            return Some(refusal);
        }
        rest = more;
    }
    None
}

/// The set with the bytes of these ranges too.
pub fn with_ranges(set: ByteSet, ranges: &[(u8, u8)]) -> ByteSet
    ensures { (byte : ℕ) → has_byte result byte ≡ (has_byte set byte || is_in_ranges byte ranges.now) }
{
    match ranges {
        [] => set,
        [(first, last), more @ ..] => with_ranges(set.with_range(*first, *last), more),
    }
}

fn with_part(set: ByteSet, part: ClassPart) -> ByteSet
    ensures { (byte : ℕ) → has_byte result byte ≡ (has_byte set byte || is_in_part byte (part_view part)) }
{
    match part {
        ClassPart::Range { first, last, .. } => set.with_range(first, last),
        ClassPart::Set(ranges) => with_ranges(set, ranges),
        ClassPart::Broken(_) => set,
    }
}

// The bytes of all parts.
fn bytes_of(members: &[Placed]) -> ByteSet
    ensures { (byte : ℕ) → has_byte result byte
        ≡ list_any (is_in_part byte) (parts_of (map placed_view members.now)) }
{
    let mut set = ByteSet::empty();
    let mut rest = members;
    'members: while let Some((part, more)) = next_part(rest) {
        set = with_part(set, part);
        rest = more;
    }
    set
}

// Without case, a letter is in where it or its other case is.
fn is_folded_in(byte: u8, set: ByteSet) -> bool
    ensures { result ≡ folded true (has_byte set) byte }
{
    set.has(byte) || set.has(byte.to_ascii_lowercase()) || set.has(byte.to_ascii_uppercase())
}

fn either_case(set: ByteSet) -> ByteSet
    ensures { IsTested result (folded true (has_byte set)) }
{
    set_where(|byte| is_folded_in(byte, set))
}

fn with_cases(set: ByteSet, nocase: bool) -> ByteSet
    ensures { IsTested result (folded nocase (has_byte set)) }
{
    if nocase { either_case(set) } else { set }
}

/// The set of a class. A complement is taken last.
pub fn class_set(members: &[Placed], nocase: bool, complement: bool) -> ByteSet
    ensures { result ≡ set_where (class_test nocase complement (parts_of (map placed_view members.now))) }
{
    let set = with_cases(bytes_of(members), nocase);
    if complement {
        let others = set.complement();
        of_bits(others.low, others.high)
    } else {
        of_bits(set.low, set.high)
    }
}

fn closes(byte: u8, first: bool) -> bool
    ensures { result ≡ ((byte == bracket_close) && not first) }
{
    byte == b']' && !first
}

/// The class from a place on, behind its `[` or `[^`. A `]` as the first member is a member.
pub fn read_class(alloc: Global, from: usize, text: &[u8]) -> Result<Class, NoMemory>
    ensures value { IfOk result (λ c. class_view c ≡ class_from 0 true from text.now) }
    ensures within { IfOk result (λ c. c.length ≤ length text.now) }
{
    let mut members = Vec::new(alloc);
    let mut passed = 0usize;
    let mut first = true;
    for (i, byte) in text.iter().enumerate() {
        if passed > 0 {
            passed -= 1;
            continue;
        }
        if closes(*byte, first) {
            return Ok(Class {
                members,
                closed: true,
                length: i + 1,
            });
        }
        let Some(place) = from.checked_add(i) else {
            return Err(NoMemory);
        };
        let Ok(at) = u32::try_from(place) else {
            return Err(NoMemory);
        };
        let written = member_at(at, *byte, &text[i + 1..]);
        members.push(Placed {
            at,
            member: written.member,
        })?;
        passed = written.length.saturating_sub(1);
        first = false;
    }
    Ok(Class {
        members,
        closed: false,
        length: text.len(),
    })
}
