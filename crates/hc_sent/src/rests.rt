//! What stands behind an origin.
ghost use Rattle.std.specs.Prelude.{IfOk};
ghost use Rattle.std.proofs.Common.{rules};
ghost use Rattle.hc_dfa.specs.Built.{Accepts};
ghost use Rattle.hc_sent.specs.Sets.{is_place, is_rest, next_place};

use hc_base::NoMemory;
use hc_dfa::{Dfa, Reading, tested};
use std::alloc::Global;

/// What stands behind an origin: anything that an authority may end before, what has a `?`, or what has a query.
#[derive(Clone, Copy)]
pub enum Kind {
    Any,
    Asked,
    Asking,
}

/// What was read of it.
#[derive(Clone, Copy, PartialEq, Eq, Hash, Drop)]
pub enum Place {
    Begin,
    Path,
    /// The first `?`.
    Question,
    Query,
    /// What an authority doesn't end before.
    Other,
}

/// The texts of this kind that may stand behind an origin.
pub fn rests_of(alloc: Global, kind: Kind) -> Result<Dfa, NoMemory>
    ensures { IfOk result (λ made. Accepts made (is_rest kind)) }
{
    let made = tested(alloc, &kind, Place::Begin)?;
    Ok(made)
}

impl Reading for Kind {
    type Key = Place;

    ghost is_key = { λ kind place. Unit {0} };

    ghost reads = { λ kind. next_place };

    ghost holds = { is_place };

    fn next(&self, place: Place, byte: u8) -> Place {
        match place {
            Place::Begin | Place::Path if byte == b'?' => Place::Question,
            Place::Begin if byte == b'/' || byte == b'#' => Place::Path,
            Place::Path => Place::Path,
            Place::Question | Place::Query => Place::Query,
            _ => Place::Other,
        }
    }

    fn holds(&self, place: Place) -> bool {
        match (self, place) {
            (_, Place::Query) => true,
            (_, Place::Other) => false,
            (Kind::Any, _) => true,
            (Kind::Asked, Place::Question) => true,
            _ => false,
        }
    }

    ghost same = { Prim.search rules };
}
