ghost use Rattle.std.specs.Prelude.{◌≡◌, ℕ, ◌<◌, ◌∷◌, [], ◌||◌, IfSome, MatchOption, length};
ghost use Rattle.std.specs.Prelude.{option_map, take};
ghost use Rattle.hc_base.specs.Bytes.{caret, exclamation};
ghost use Rattle.hc_pattern.specs.Bits.{has_byte};
ghost use Rattle.hc_pattern.specs.Globs.{before_close, class_of, falling, is_among, means, members_of, ranges_of};
ghost use Rattle.hc_pattern.specs.GlobViews.{class_view};

use crate::ByteSet;

/// A byte of a glob, with its place; where a backslash before it makes it plain, that of the backslash.
#[derive(Clone, Copy)]
pub struct Mark {
    pub byte: u8,
    pub plain: bool,
    pub at: u32,
}

/// A range in a class, which may be of one byte.
#[derive(Clone, Copy)]
pub struct Range {
    pub at: u32,
    pub first: u8,
    pub last: u8,
}

impl Mark {
    /// It is this byte and not plain.
    pub fn means(self, byte: u8) -> bool
        ensures { result ≡ means byte self }
    {
        self.byte == byte && !self.plain
    }
}

/// The first range of the members of a class, and the members behind it.
pub fn next_range(members: &[Mark]) -> Option<(Range, &[Mark])>
    ensures value { MatchOption result (ranges_of members.now ≡ [])
        (λ p. ranges_of members.now ≡ p.0 ∷ ranges_of p.1.now) }
    ensures less { MatchOption result (members.now ≡ []) (λ p. length p.1.now < length members.now) }
{
    match members {
        [] => None,
        [one, two, three, more @ ..] if two.means(b'-') => Some((
            Range {
                at: one.at,
                first: one.byte,
                last: three.byte,
            },
            more,
        )),
        [one, more @ ..] => Some((
            Range {
                at: one.at,
                first: one.byte,
                last: one.byte,
            },
            more,
        )),
    }
}

/// The place of the first range that falls.
pub fn falling(members: &[Mark]) -> Option<u32>
    ensures { result ≡ falling (ranges_of members.now) }
{
    let mut rest = members;
    'members: while let Some((range, more)) = next_range(rest) {
        if range.last < range.first {
            return Some(range.at);
        }
        rest = more;
    }
    None
}

/// The bytes in the ranges of these members.
pub fn bytes_among(members: &[Mark]) -> ByteSet
    ensures { (b : ℕ) → has_byte result b ≡ is_among b (ranges_of members.now) }
{
    let mut set = ByteSet::empty();
    let mut rest = members;
    'members: while let Some((range, more)) = next_range(rest) {
        set = set.with_range(range.first, range.last);
        rest = more;
    }
    set
}

// What stands before the first `]`, by the number of its bytes.
fn before_close(marks: &[Mark]) -> Option<usize>
    ensures value { option_map (λ count. take count marks.now) result ≡ before_close marks.now }
    ensures within { IfSome result (λ count. count < length marks.now) }
{
    for (i, mark) in marks.iter().enumerate() {
        if mark.means(b']') {
            return Some(i);
        }
    }
    None
}

// The members of a class, by what stands behind its `[`, `[!` or `[^`: a `]` as the first is a member.
fn members_of(marks: &[Mark]) -> Option<&[Mark]>
    ensures { option_map (λ members. members.now) result ≡ members_of marks.now }
{
    let [_, more @ ..] = marks else {
        return None;
    };
    let count = before_close(more)?;
    Some(&marks[..count + 1])
}

/// A class in a glob: whether it is a complement, and its members.
#[derive(Clone, Copy)]
pub struct Class<'m> {
    pub complement: bool,
    pub members: &'m [Mark],
}

/// The class that begins in front of these bytes, if it is closed.
pub fn class_of(marks: &[Mark]) -> Option<Class<'_>>
    ensures { option_map class_view result ≡ class_of marks.now }
{
    match marks {
        [] => None,
        [mark, more @ ..] if is_complement(*mark) => Some(Class {
            complement: true,
            members: members_of(more)?,
        }),
        _ => Some(Class {
            complement: false,
            members: members_of(marks)?,
        }),
    }
}

fn is_complement(mark: Mark) -> bool
    ensures { result ≡ (means exclamation mark || means caret mark) }
{
    mark.means(b'!') || mark.means(b'^')
}
