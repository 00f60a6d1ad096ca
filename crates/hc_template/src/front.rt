//! What stands at a place of a template.
ghost use Rattle.std.specs.Prelude.{◌≡◌, ◌∷◌};
ghost use Rattle.hc_base.specs.Bytes.{brace_open};
ghost use Rattle.hc_template.specs.Fronts.{Cuts};
ghost use Rattle.hc_template.specs.Reading.{dollar_sign, escape_sign, name_sign, name_up_to};
ghost use Rattle.hc_template.specs.Reading.{percent_sign, sign_with};

use crate::places::split_at_first;
use crate::signs::{Names, Signs};

/// What stands first in a text.
#[derive(Clone, Copy)]
pub(crate) enum Front<'t> {
    /// A byte that stands for itself.
    Byte(u8),
    /// `$0` to `$9`.
    Group(u8),
    /// `%0` to `%9`.
    Condition(u8),
    /// `%{NAME}`: the name.
    Name(&'t [u8]),
    /// `${`, where it may begin a look-up.
    Braced,
}

/// What stands first in a text, what follows it, and which signs may stand there: a name that no `}` ends
/// is looked for but once.
#[derive(Clone, Copy)]
pub(crate) struct Sign<'t> {
    pub(crate) front: Front<'t>,
    pub(crate) behind: &'t [u8],
    pub(crate) signs: Signs,
}

/// The sign that begins with this byte.
pub(crate) fn sign_at(signs: Signs, byte: u8, rest: &[u8]) -> Sign<'_>
    ensures { Cuts signs result (λ braced. sign_with braced signs byte rest.now) rest.now }
{
    match byte {
        b'\\' if signs.escapes => escape_sign(signs, rest),
        b'$' => dollar_sign(signs, rest),
        b'%' => percent_sign(signs, rest),
        _ => Sign {
            front: Front::Byte(byte),
            behind: rest,
            signs,
        },
    }
}

// Behind `$`: `$0` to `$9`, or what begins with `${`.
fn dollar_sign(signs: Signs, rest: &[u8]) -> Sign<'_>
    ensures { Cuts signs result (λ braced. dollar_sign braced signs rest.now) rest.now }
{
    match rest {
        [digit, behind @ ..] if signs.groups && digit.is_ascii_digit() => Sign {
            front: Front::Group(digit - b'0'),
            behind,
            signs,
        },
        [b'{', behind @ ..] if signs.lookups => Sign {
            front: Front::Braced,
            behind,
            signs,
        },
        _ => Sign {
            front: Front::Byte(b'$'),
            behind: rest,
            signs,
        },
    }
}

// Behind `%`: `%0` to `%9`, or `%{NAME}`.
fn percent_sign(signs: Signs, rest: &[u8]) -> Sign<'_>
    ensures { Cuts signs result (λ braced. percent_sign signs rest.now) rest.now }
{
    match rest {
        [digit, behind @ ..] if signs.conditions && digit.is_ascii_digit() => Sign {
            front: Front::Condition(digit - b'0'),
            behind,
            signs,
        },
        [b'{', behind @ ..] => braced_name(signs, rest, behind),
        _ => Sign {
            front: Front::Byte(b'%'),
            behind: rest,
            signs,
        },
    }
}

// Behind a backslash: a plain byte. The last one is a byte itself.
fn escape_sign(signs: Signs, rest: &[u8]) -> Sign<'_>
    ensures { Cuts signs result (λ braced. escape_sign rest.now) rest.now }
{
    match rest {
        [byte, behind @ ..] => Sign {
            front: Front::Byte(*byte),
            behind,
            signs,
        },
        [] => Sign {
            front: Front::Byte(b'\\'),
            behind: rest,
            signs,
        },
    }
}

// Behind `%{`, where that stands before these bytes.
fn braced_name<'t>(signs: Signs, rest: &'t [u8], named: &'t [u8]) -> Sign<'t>
    requires { rest.now ≡ brace_open ∷ named.now }
    ensures { Cuts signs result (λ braced. percent_sign signs rest.now) rest.now }
{
    match signs.names {
        Names::NoName => Sign {
            front: Front::Byte(b'%'),
            behind: rest,
            signs,
        },
        Names::Expression | Names::Rewriting => name_sign(signs, rest, named),
    }
}

// The same where names may stand. Where no `}` ends the name, none ends another behind it.
fn name_sign<'t>(signs: Signs, rest: &'t [u8], named: &'t [u8]) -> Sign<'t>
    requires { rest.now ≡ brace_open ∷ named.now }
    ensures { Cuts signs result (λ braced. name_sign signs.names (name_up_to named.now)) rest.now }
{
    match split_at_first(b'}', named) {
        Some((name, behind)) => Sign {
            front: Front::Name(name),
            behind,
            signs,
        },
        None => Sign {
            front: Front::Byte(b'%'),
            behind: rest,
            signs: signs.without_names(),
        },
    }
}
