//! Normal paths.
ghost use Rattle.std.specs.Prelude.{◌≡◌, IfOk};
ghost use Rattle.std.proofs.Common.{rules};
ghost use Rattle.hc_base.specs.Paths.{is_clean};
ghost use Rattle.hc_dfa.specs.Built.{Accepts};
ghost use Rattle.hc_target.specs.Segments.{is_normal};
ghost use Rattle.hc_sent.specs.Sets.{behind_dots, ends_clean, next_spot};

use crate::bytes::{Bytes, texts_of};
use hc_base::NoMemory;
use hc_dfa::{Dfa, Keep, Reading, product, tested};
use std::alloc::Global;

/// The normal paths.
pub fn normal_paths(alloc: Global) -> Result<Dfa, NoMemory>
    ensures { IfOk result (λ made. Accepts made is_normal) }
{
    let clean = clean_paths(alloc)?;
    let plain = texts_of(alloc, Bytes::Plain)?;
    let made = product(alloc, &clean, &plain, Keep::Both)?;
    Ok(made)
}

/// The clean paths.
fn clean_paths(alloc: Global) -> Result<Dfa, NoMemory>
    ensures { IfOk result (λ made. Accepts made is_clean) }
{
    let made = tested(alloc, &Clean, Spot::Start)?;
    Ok(made)
}

/// What was read last of a path.
#[derive(Clone, Copy, PartialEq, Eq, Hash, Drop)]
pub enum Spot {
    /// Nothing was read.
    Start,
    Slash,
    /// A slash and a dot.
    Dot,
    /// A slash and two dots.
    Dots,
    /// A name.
    Name,
    /// Another text than a clean path.
    Other,
}

#[derive(Clone, Copy)]
struct Clean;

/// Behind a slash and dots, by what one more dot makes.
fn behind_dots(more: Spot, byte: u8) -> Spot
    ensures { result ≡ behind_dots more byte }
{
    match byte {
        b'/' => Spot::Other,
        b'.' => more,
        _ => Spot::Name,
    }
}

impl Reading for Clean {
    type Key = Spot;

    ghost is_key = { λ test spot. Unit {0} };

    ghost reads = { λ test. next_spot };

    ghost holds = { λ test. ends_clean };

    fn next(&self, spot: Spot, byte: u8) -> Spot {
        match spot {
            Spot::Start if byte == b'/' => Spot::Slash,
            Spot::Slash => behind_dots(Spot::Dot, byte),
            Spot::Dot => behind_dots(Spot::Dots, byte),
            Spot::Dots if byte != b'/' => Spot::Name,
            Spot::Name if byte == b'/' => Spot::Slash,
            Spot::Name => Spot::Name,
            _ => Spot::Other,
        }
    }

    fn holds(&self, spot: Spot) -> bool {
        matches!(spot, Spot::Slash | Spot::Name)
    }

    ghost same = { Prim.search rules };
}
