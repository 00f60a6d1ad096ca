ghost use Rattle.std.specs.Prelude.{◌≡◌, ◌<◌, ◌+◌, ◌||◌, ◌&&◌, ◌∷◌, IsTrue, length, map};
ghost use Rattle.hc_pattern.specs.Members.{bracket, escape, hex_escape, letter_escape, member_at, named_set};
ghost use Rattle.hc_pattern.specs.Members.{named_sets, refused};
ghost use Rattle.hc_pattern.specs.Refusals.{unsupported};
ghost use Rattle.hc_pattern.specs.MemberViews.{member_view, set_view, written_view};

use hc_base::AtByte;
use hc_base::bytes::hex_value;
use hc_base::codes::{PATTERN_SYNTAX, PATTERN_UNSUPPORTED};

/// What a byte, an escape or a named set stands for: a set by its ranges.
#[derive(Clone, Copy)]
pub enum Member {
    One(u8),
    Many(&'static [(u8, u8)]),
    Hyphen,
    Refused(AtByte),
}

/// A member, and how many bytes it is written in.
#[derive(Clone, Copy)]
pub struct Written {
    pub member: Member,
    pub length: usize,
}

fn unsupported(at: u32) -> Member
    ensures { member_view result ≡ refused (unsupported at) }
{
    Member::Refused(AtByte {
        code: PATTERN_UNSUPPORTED,
        at,
    })
}

// `\xHH`, by what stands behind the `x`.
fn hex_escape(at: u32, rest: &[u8]) -> Written
    ensures { written_view result ≡ hex_escape at rest.now }
{
    let none = Written {
        member: unsupported(at),
        length: 2,
    };
    let [high, low, ..] = rest else {
        return none;
    };
    if !high.is_ascii_hexdigit() || !low.is_ascii_hexdigit() {
        return none;
    }
    Written {
        member: Member::One(16 * hex_value(*high) + hex_value(*low)),
        length: 4,
    }
}

// A backslash and a letter or digit other than `x`.
fn letter_escape(at: u32, byte: u8) -> Member
    ensures { member_view result ≡ letter_escape at byte }
{
    match byte {
        b'd' => Member::Many(&[(b'0', b'9')]),
        b'w' => Member::Many(&[(b'0', b'9'), (b'A', b'Z'), (b'_', b'_'), (b'a', b'z')]),
        b's' => Member::Many(&[(9, 13), (b' ', b' ')]),
        b'D' => Member::Many(&[(0, 47), (58, 255)]),
        b'W' => Member::Many(&[(0, 47), (58, 64), (91, 94), (96, 96), (123, 255)]),
        b'S' => Member::Many(&[(0, 8), (14, 31), (33, 255)]),
        _ => unsupported(at),
    }
}

/// An escape, by what stands behind its backslash.
pub fn escape(at: u32, rest: &[u8]) -> Written
    ensures { written_view result ≡ escape at rest.now }
{
    let [byte, more @ ..] = rest else {
        return Written {
            member: Member::Refused(AtByte {
                code: PATTERN_SYNTAX,
                at,
            }),
            length: 1,
        };
    };
    if !byte.is_ascii_alphanumeric() {
        return Written {
            member: Member::One(*byte),
            length: 2,
        };
    }
    if *byte == b'x' {
        return hex_escape(at, more);
    }
    Written {
        member: letter_escape(at, *byte),
        length: 2,
    }
}

const BRACKET: Written = Written {
    member: Member::One(b'['),
    length: 1,
};

// The named sets, by what stands behind their `[:`.
type NamedSet = (&'static [u8], &'static [(u8, u8)]);

static NAMED_SETS: &[NamedSet] = &[
    (b"alpha:]", &[(b'A', b'Z'), (b'a', b'z')]),
    (b"digit:]", &[(b'0', b'9')]),
    (b"alnum:]", &[(b'0', b'9'), (b'A', b'Z'), (b'a', b'z')]),
    (b"upper:]", &[(b'A', b'Z')]),
    (b"lower:]", &[(b'a', b'z')]),
    (b"space:]", &[(9, 13), (b' ', b' ')]),
    (b"blank:]", &[(9, 9), (b' ', b' ')]),
    (b"punct:]", &[(33, 47), (58, 64), (91, 96), (123, 126)]),
    (b"print:]", &[(32, 126)]),
    (b"graph:]", &[(33, 126)]),
    (b"cntrl:]", &[(0, 31), (127, 127)]),
    (b"xdigit:]", &[(b'0', b'9'), (b'A', b'F'), (b'a', b'f')]),
    (
        b"word:]",
        &[(b'0', b'9'), (b'A', b'Z'), (b'_', b'_'), (b'a', b'z')],
    ),
];

// A named set by what stands behind its `[:`; without a name of these, the `[` is a byte.
fn named_set(text: &[u8], sets: &[NamedSet]) -> Written
    ensures { written_view result ≡ named_set text.now (map set_view sets.now) }
{
    match sets {
        [] => BRACKET,
        [(name, ranges), more @ ..] => {
            if text.starts_with(name) {
                return Written {
                    member: Member::Many(ranges),
                    length: name.len() + 2,
                };
            }
            named_set(text, more)
        }
    }
}

// A `[` in a class, by what stands behind it.
fn bracket(at: u32, rest: &[u8]) -> Written
    ensures { written_view result ≡ bracket at rest.now }
{
    let [colon, caret, ..] = rest else {
        return BRACKET;
    };
    if *colon != b':' {
        return BRACKET;
    }
    if *caret == b'^' {
        return Written {
            member: unsupported(at),
            length: 1,
        };
    }
    named_set(&rest[1..], NAMED_SETS)
}

/// A member of a class, by its first byte and what stands behind that.
pub fn member_at(at: u32, byte: u8, rest: &[u8]) -> Written
    ensures { written_view result ≡ member_at at byte rest.now }
{
    match byte {
        b'\\' => escape(at, rest),
        b'[' => bracket(at, rest),
        b'-' => Written {
            member: Member::Hyphen,
            length: 1,
        },
        _ => Written {
            member: Member::One(byte),
            length: 1,
        },
    }
}
