//! Texts that are a fixed text, or begin with it.
ghost use Rattle.std.specs.Prelude.{◌≡◌, ◌<◌, length, nat_eq, IfOk};
ghost use Rattle.std.specs.List.{starts_with};
ghost use Rattle.std.proofs.Common.{rules};
ghost use Rattle.hc_dfa.specs.Built.{Accepts};
ghost use Rattle.hc_rw_eval.specs.Conditions.{is_text};
ghost use Rattle.hc_rw_sets.specs.Fronts.{ends_at, is_wanted, next_spot, same_byte};
ghost use Rattle.hc_rw_sets.specs.declared.fronts.Spot.TheVariants.{At};
ghost use Rattle.hc_target.specs.Urls.{begins_without_case};

use hc_base::NoMemory;
use hc_dfa::{Dfa, Reading, tested};
use std::alloc::Global;

/// The texts that begin so.
pub fn beginning_with(alloc: Global, front: &[u8]) -> Result<Dfa, NoMemory>
    ensures { IfOk result (λ made. Accepts made (λ text. starts_with nat_eq text front.now)) }
{
    wanted_texts(
        alloc,
        Wanted {
            text: front,
            nocase: false,
            goes_on: true,
        },
    )
}

/// The texts that begin so without case.
pub fn beginning_without_case(alloc: Global, front: &[u8]) -> Result<Dfa, NoMemory>
    ensures { IfOk result (λ made. Accepts made (begins_without_case front.now)) }
{
    wanted_texts(
        alloc,
        Wanted {
            text: front,
            nocase: true,
            goes_on: true,
        },
    )
}

/// The texts that are this one, with NC without case.
pub fn texts_like(alloc: Global, nocase: bool, wanted: &[u8]) -> Result<Dfa, NoMemory>
    ensures { IfOk result (λ made. Accepts made (is_text nocase wanted.now)) }
{
    wanted_texts(
        alloc,
        Wanted {
            text: wanted,
            nocase,
            goes_on: false,
        },
    )
}

fn wanted_texts(alloc: Global, wanted: Wanted) -> Result<Dfa, NoMemory>
    ensures { IfOk result (λ made. Accepts made
        (is_wanted wanted.entry.nocase wanted.entry.goes_on wanted.entry.text.now)) }
{
    let made = tested(alloc, &wanted, Spot::At(0))?;
    Ok(made)
}

/// Reads a text beside a wanted one, behind which more may stand.
#[derive(Clone, Copy)]
struct Wanted<'t> {
    text: &'t [u8],
    nocase: bool,
    goes_on: bool,
}

/// How much of the wanted text was read.
#[derive(Clone, Copy, PartialEq, Eq, Hash, Drop)]
pub enum Spot {
    At(usize),
    /// Another text.
    Other,
}

fn same_byte(nocase: bool, own: u8, byte: u8) -> bool
    ensures { result ≡ same_byte nocase own byte }
{
    if nocase {
        own.eq_ignore_ascii_case(&byte)
    } else {
        own == byte
    }
}

impl<'t> Wanted<'t> {
    // The spot behind the byte at a place of the wanted text.
    fn past(&self, place: usize, byte: u8) -> Spot
        requires { place < length self.now.text.now }
        ensures { result ≡ next_spot self.now.nocase self.now.goes_on self.now.text.now (At place) byte }
    {
        if same_byte(self.nocase, self.text[place], byte) {
            Spot::At(place + 1)
        } else {
            Spot::Other
        }
    }
}

impl<'t> Reading for Wanted<'t> {
    type Key = Spot;

    ghost is_key = { λ wanted spot. Unit {0} };

    ghost reads = { λ wanted. next_spot wanted.nocase wanted.goes_on wanted.text.now };

    ghost holds = { λ wanted. ends_at wanted.text.now };

    fn next(&self, spot: Spot, byte: u8) -> Spot {
        match spot {
            Spot::At(place) if place < self.text.len() => self.past(place, byte),
            Spot::At(place) if self.goes_on => Spot::At(place),
            _ => Spot::Other,
        }
    }

    fn holds(&self, spot: Spot) -> bool {
        match spot {
            Spot::At(place) => self.text.len() <= place,
            Spot::Other => false,
        }
    }

    ghost same = { Prim.search rules };
}
