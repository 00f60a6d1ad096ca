//! The locations that lead to one own server.
ghost use Rattle.std.specs.Prelude.{IfOk, List};
ghost use Rattle.hc_dfa.specs.Automata.{accepts};
ghost use Rattle.hc_pat_lang.specs.Sets.{AcceptsOnly};
ghost use Rattle.hc_sent.specs.Sites.{IsLeft, IsWay, LeadsTo};
ghost use Rattle.hc_sent.specs.declared.parts.Part.{Part};

use crate::origins::{behind, roots};
use crate::rests::{Kind, rests_of};
use crate::sets::{kept, slashed};
use hc_base::NoMemory;
use hc_dfa::{Dfa, Keep};
use hc_follow::Origin;
use hc_pat_lang::prefix_quotient;
use hc_rw_sets::{after_question, before_question};
use std::alloc::Global;

/// The locations that lead to one own server, before bytes are escaped.
#[derive(Drop)]
pub struct Way {
    pub texts: Dfa,
    /// What has a `?` behind the origin.
    pub asked: Dfa,
    /// What has a query there.
    pub asking: Dfa,
    /// Their paths.
    pub paths: Dfa,
    /// Their queries.
    pub queries: Dfa,
}

impl Way {
    /// By the locations and the origin of the server.
    pub fn new(alloc: Global, origin: &Origin, texts: Dfa) -> Result<Way, NoMemory>
        ensures { IfOk result (λ way. (parts : List Part) (before : List Origin)
            → AcceptsOnly (LeadsTo parts before origin.now) texts → IsWay parts before origin.now way) }
    {
        let left = left(alloc, origin, &texts)?;
        let fronts = before_question(alloc, &left)?;
        Ok(Way {
            asked: behind(alloc, origin, Kind::Asked)?,
            asking: behind(alloc, origin, Kind::Asking)?,
            paths: slashed(alloc, &fronts)?,
            queries: after_question(alloc, &left)?,
            texts,
        })
    }
}

/// What texts have behind an origin.
fn left(alloc: Global, origin: &Origin, texts: &Dfa) -> Result<Dfa, NoMemory>
    ensures { IfOk result (AcceptsOnly (IsLeft origin.now (accepts texts.now))) }
{
    let roots = roots(alloc, origin)?;
    let left = prefix_quotient(alloc, texts, &roots)?;
    let rests = rests_of(alloc, Kind::Any)?;
    let made = kept(alloc, &left, &rests, Keep::Both)?;
    Ok(made)
}
