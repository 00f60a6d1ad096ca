ghost use Rattle.std.specs.Prelude.{◌≡◌, IfOk};
ghost use Rattle.hc_pattern.specs.Pattern.{pattern_of};

use crate::ByteSet;
use hc_base::NoMemory;

// A pattern has at most so many nodes.
pub const MOST_NODES: u32 = 4096;

/// A pattern, as a tree (PCRE, "pcrepattern").
#[derive(Drop)]
pub enum Pat {
    /// The empty text.
    Empty,
    /// This byte.
    Byte(u8),
    /// A byte of the set.
    Class(ByteSet),
    /// `^`: the place before the first byte.
    Start,
    /// `$`: the place behind the last byte.
    Finish,
    /// One behind the other.
    Cat(Box<Pat>, Box<Pat>),
    /// `|`: one or the other, the first one first.
    Alt(Box<Pat>, Box<Pat>),
    /// A group that keeps what it spans, with its number.
    Group(u8, Box<Pat>),
    /// So many turns at least, and at most where there is a second number. With `true` more turns
    /// are tried before fewer (greedy), with `false` fewer before more (lazy).
    Repeat(Box<Pat>, u16, Option<u16>, bool),
}

impl Clone for Pat {
    ghost is_clone = { λ pat copy. pattern_of copy ≡ pattern_of pat };

    fn clone(&self) -> Result<Pat, NoMemory> {
        copy(self)
    }
}

#[cycle(copy)]
fn copy(pat: &Pat) -> Result<Pat, NoMemory>
    ensures { IfOk result (λ copy. pattern_of copy ≡ pattern_of pat.now) }
{
    match pat {
        Pat::Empty => Ok(Pat::Empty),
        Pat::Byte(byte) => Ok(Pat::Byte(*byte)),
        Pat::Class(set) => Ok(Pat::Class(*set)),
        Pat::Start => Ok(Pat::Start),
        Pat::Finish => Ok(Pat::Finish),
        Pat::Cat(first, second) => Ok(Pat::Cat(copy_boxed(first)?, copy_boxed(second)?)),
        Pat::Alt(first, second) => Ok(Pat::Alt(copy_boxed(first)?, copy_boxed(second)?)),
        Pat::Group(number, body) => Ok(Pat::Group(*number, copy_boxed(body)?)),
        Pat::Repeat(body, least, most, greedy) => {
            Ok(Pat::Repeat(copy_boxed(body)?, *least, *most, *greedy))
        }
    }
}

#[cycle(copy)]
fn copy_boxed(pat: &Box<Pat>) -> Result<Box<Pat>, NoMemory>
    ensures { IfOk result (λ copy. pattern_of copy.value ≡ pattern_of pat.now.value) }
{
    let inner = copy(pat)?;
    Ok(Box::new(*Box::allocator(pat), inner)?)
}
