ghost use Rattle.std.specs.Prelude.{◌≡◌, ℕ, ◌+◌, ◌^◌, ◌<◌, ◌∷◌, [], Bool, length, map, IfOk};
ghost use Rattle.std.specs.Prelude.{IfSome, MatchOption, if◌then◌else◌, ◌&&◌, ◌||◌, not};
ghost use Rattle.hc_base.specs.Bytes.{bracket_open};
ghost use Rattle.hc_pattern.specs.Bits.{IsTested, set_where};
ghost use Rattle.hc_pattern.specs.Globs.{anchored, glob_pattern, has_wildcard, in_a_row};
ghost use Rattle.hc_pattern.specs.Globs.{in_class, is_wildcard, marks_from, means};
ghost use Rattle.hc_pattern.specs.Globs.{may_be, more_of, patterns_of, piece_at};
ghost use Rattle.hc_pattern.specs.Globs.{piece_pattern, pieces_of, some_wildcard};
ghost use Rattle.hc_pattern.specs.GlobViews.{GivesPatterns, class_view, piece_view};
ghost use Rattle.hc_pattern.specs.Pattern.{cat, pattern_of};
ghost use Rattle.hc_pattern.specs.Refusals.{GivesPattern};

use crate::mark::{Class, Mark, bytes_among, class_of, falling};
use crate::pat::MOST_NODES;
use crate::set::of_bits;
use crate::{ByteSet, Pat};
use hc_base::codes::{PATTERN_SYNTAX, PATTERN_TOO_LARGE};
use hc_base::{AtByte, Fault, NoMemory};
use std::alloc::Global;

/// Why a pattern or a glob is not read: a rule (13 to 16) that is broken at a byte.
pub type PatFault = Fault<AtByte>;

/// A piece of a glob.
#[derive(Clone, Copy)]
pub enum GlobPiece<'m> {
    Plain(u8),
    AnyByte,
    AnyBytes,
    OneOf(Class<'m>),
}

// The bytes of a glob; a backslash makes the next one plain.
fn marks(alloc: Global, text: &[u8]) -> Result<Vec<Mark>, NoMemory>
    ensures { IfOk result (λ marks. marks.items ≡ marks_from 0 text.now) }
{
    let mut marks = Vec::new(alloc);
    let mut rest = text;
    let mut at = 0;
    'bytes: while let Some((mark, more)) = first_mark(rest, at) {
        marks.push(mark)?;
        let Some(next) = at.checked_add(if mark.plain { 2 } else { 1 }) else {
            return Err(NoMemory);
        };
        at = next;
        rest = more;
    }
    Ok(marks)
}

fn first_mark(text: &[u8], at: u32) -> Option<(Mark, &[u8])>
    ensures value { MatchOption result (marks_from at text.now ≡ [])
        (λ p. marks_from at text.now ≡ p.0 ∷ marks_from (at + (if p.0.plain then 2 else 1)) p.1.now) }
    ensures less { MatchOption result (text.now ≡ []) (λ p. length p.1.now < length text.now) }
{
    let (byte, more) = text.split_first()?;
    let mark = Mark {
        byte: *byte,
        plain: false,
        at,
    };
    let Some((next, rest)) = more.split_first() else {
        return Some((mark, more));
    };
    if *byte != b'\\' {
        return Some((mark, more));
    }
    let plain = Mark {
        byte: *next,
        plain: true,
        at,
    };
    Some((plain, rest))
}

// The piece that begins with this byte. A `[` that isn't closed is a byte; behind an unclosed one none is closed.
fn piece_at<'m>(unclosed: bool, mark: Mark, more: &'m [Mark]) -> GlobPiece<'m>
    ensures { piece_view result ≡ piece_at mark (if unclosed then [] else more.now) }
{
    if mark.means(b'?') {
        return GlobPiece::AnyByte;
    }
    if mark.means(b'*') {
        return GlobPiece::AnyBytes;
    }
    if unclosed || !mark.means(b'[') {
        return GlobPiece::Plain(mark.byte);
    }
    match class_of(more) {
        Some(class) => GlobPiece::OneOf(class),
        None => GlobPiece::Plain(mark.byte),
    }
}

// A `[` isn't closed, before this piece or in it.
fn with_unclosed(unclosed: bool, mark: Mark, piece: GlobPiece<'_>) -> bool
    ensures { result ≡ (unclosed || means bracket_open mark && not (is_wildcard (piece_view piece.entry))) }
{
    unclosed || mark.means(b'[') && !is_wildcard(piece)
}

// How many bytes of a piece follow its first one.
fn more_of(piece: GlobPiece<'_>) -> usize
    ensures { result ≡ more_of (piece_view piece.entry) }
{
    match piece {
        GlobPiece::OneOf(class) => usize::from(class.complement) + class.members.len() + 1,
        _ => 0,
    }
}

// The set, with `keeps_slash` without the slash.
fn without_slash(set: ByteSet, keeps_slash: bool) -> ByteSet
    ensures { (test : ℕ → Bool) → IsTested set test
        → result ≡ set_where (λ b. may_be keeps_slash b && test b) }
{
    if !keeps_slash {
        return of_bits(set.low, set.high);
    }
    let kept = set.complement().with(b'/').complement();
    of_bits(kept.low, kept.high)
}

/// What `?` is, and each byte of `*`.
pub fn any_byte(keeps_slash: bool) -> ByteSet
    ensures { result ≡ set_where (may_be keeps_slash) }
{
    without_slash(ByteSet::empty().complement(), keeps_slash)
}

fn class_bytes(class: Class<'_>, keeps_slash: bool) -> ByteSet
    ensures { result ≡ set_where (in_class keeps_slash (class_view class.entry)) }
{
    let among = bytes_among(class.members);
    if class.complement {
        without_slash(among.complement(), keeps_slash)
    } else {
        without_slash(among, keeps_slash)
    }
}

fn piece_pattern(alloc: Global, piece: GlobPiece<'_>, keeps_slash: bool) -> Result<Pat, PatFault>
    ensures { GivesPattern result (piece_pattern keeps_slash (piece_view piece.entry)) }
{
    match piece {
        GlobPiece::Plain(byte) => Ok(Pat::Byte(byte)),
        GlobPiece::AnyByte => Ok(Pat::Class(any_byte(keeps_slash))),
        GlobPiece::AnyBytes => {
            let body = Box::new(alloc, Pat::Class(any_byte(keeps_slash)))?;
            Ok(Pat::Repeat(body, 0, None, true))
        }
        GlobPiece::OneOf(class) => match falling(class.members) {
            Some(at) => Err(Fault::Refused(AtByte {
                code: PATTERN_SYNTAX,
                at,
            })),
            None => Ok(Pat::Class(class_bytes(class, keeps_slash))),
        },
    }
}

// The patterns of the pieces.
fn patterns(alloc: Global, marks: &[Mark], keeps_slash: bool) -> Result<Vec<Pat>, PatFault>
    ensures { GivesPatterns result (patterns_of keeps_slash (pieces_of 0 marks.now)) }
{
    let mut patterns = Vec::new(alloc);
    let mut passed = 0usize;
    let mut unclosed = false;
    for (i, mark) in marks.iter().enumerate() {
        if passed > 0 {
            passed -= 1;
            continue;
        }
        let piece = piece_at(unclosed, *mark, &marks[i + 1..]);
        passed = more_of(piece);
        unclosed = with_unclosed(unclosed, *mark, piece);
        patterns.push(piece_pattern(alloc, piece, keeps_slash)?)?;
    }
    Ok(patterns)
}

/// One pattern behind another.
pub fn cat(alloc: Global, first: Pat, second: Pat) -> Result<Pat, NoMemory>
    ensures { IfOk result (λ pat. pattern_of pat ≡ cat (pattern_of first) (pattern_of second)) }
{
    Ok(Pat::Cat(Box::new(alloc, first)?, Box::new(alloc, second)?))
}

// The patterns one behind the other, up to the end of the text.
fn in_a_row(alloc: Global, mut patterns: Vec<Pat>) -> Result<Pat, NoMemory>
    ensures { IfOk result (λ pat. pattern_of pat ≡ in_a_row (map pattern_of patterns.items)) }
{
    let mut pat = Pat::Finish;
    'patterns: while let Some(one) = patterns.pop() {
        pat = cat(alloc, one, pat)?;
    }
    Ok(pat)
}

/// The pattern of a glob (our own choice, after the shell): `?` is any byte, `*` any bytes, `[` a class
/// of bytes and ranges up to `]`, with `!` or `^` first for its complement. A backslash makes the next
/// byte plain. The pattern is anchored: a whole text has to match. With `keeps_slash`, `?`, `*` and
/// classes match no `/`.
///
/// A range that falls is refused 14 at its first byte, and more than 4,096 pieces 15 at byte 0. A glob
/// of over 4 GiB is answered as if memory were refused (our own choice).
pub fn glob_pattern(alloc: Global, text: &[u8], keeps_slash: bool) -> Result<Pat, PatFault>
    ensures { GivesPattern result (glob_pattern text.now keeps_slash) }
{
    let marks = marks(alloc, text)?;
    let patterns = patterns(alloc, &marks, keeps_slash)?;
    if patterns.len() > MOST_NODES as usize {
        return Err(Fault::Refused(AtByte {
            code: PATTERN_TOO_LARGE,
            at: 0,
        }));
    }
    let row = in_a_row(alloc, patterns)?;
    Ok(cat(alloc, Pat::Start, row)?)
}

/// A glob has a wildcard: a `?`, a `*` or a class that no backslash makes plain.
pub fn has_wildcard(alloc: Global, text: &[u8]) -> Result<bool, NoMemory>
    ensures { IfOk result (λ found. found ≡ has_wildcard text.now) }
{
    Ok(some_wildcard(&marks(alloc, text)?))
}

fn some_wildcard(marks: &[Mark]) -> bool
    ensures { result ≡ some_wildcard marks.now }
{
    let mut unclosed = false;
    for (i, mark) in marks.iter().enumerate() {
        let piece = piece_at(unclosed, *mark, &marks[i + 1..]);
        if is_wildcard(piece) {
            return true;
        }
        unclosed = with_unclosed(unclosed, *mark, piece);
    }
    false
}

fn is_wildcard(piece: GlobPiece<'_>) -> bool
    ensures { result ≡ is_wildcard (piece_view piece.entry) }
{
    !matches!(piece, GlobPiece::Plain(_))
}
