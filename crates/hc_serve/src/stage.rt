ghost use Rattle.std.specs.Prelude.{◌≡◌, None, IfOk};
ghost use Rattle.hc_serve.specs.Passing.{followed_by};
ghost use Rattle.hc_serve.specs.ServerRules.{pass_at};

use hc_base::{Fault, NoMemory, Text};
use hc_model::{Effective, HostId, Outcome, Requirement, Spot, Walk};
use hc_rw_expand::Variables;
use std::alloc::Global;

/// Why a step does not go on: the request is answered, or memory was refused.
pub(crate) type Stop = Fault<Outcome>;

/// A pass as it begins.
#[derive(Drop)]
pub struct Pass {
    /// Passes count from 0.
    pub number: u32,
    /// The URL path.
    pub path: Text,
    pub query: Text,
    /// The query at the start of the pass.
    pub first_query: Text,
    pub vars: Variables,
    /// END was met.
    pub end: bool,
}

impl Pass {
    /// A pass as it begins.
    pub(crate) fn at(
        number: u32,
        path: Text,
        query: Text,
        vars: Variables,
        end: bool,
    ) -> Result<Pass, NoMemory>
        ensures { IfOk result (λ pass. pass ≡ pass_at number path query vars end) }
    {
        Ok(Pass {
            number,
            path,
            first_query: query.clone()?,
            query,
            vars,
            end,
        })
    }
}

/// The server that answers, and the first pass.
#[derive(Drop)]
pub(crate) struct Opened {
    pub host: HostId,
    pub pass: Pass,
}

/// A pass that has a file name.
#[derive(Drop)]
pub struct Named {
    pub pass: Pass,
    pub name: Text,
    /// The alias that gave the name.
    pub from: Option<Spot>,
    /// The name is what the rules of the server left.
    pub own: bool,
}

/// What the rules of the server leave.
#[derive(Drop)]
pub enum Placed {
    /// A pass whose URL path is to be mapped.
    Unnamed(Pass),
    Named(Named),
}

/// A pass whose name was followed.
#[derive(Drop)]
pub struct Walked {
    pub named: Named,
    pub walk: Walk,
}

/// A pass with what is in force where it is.
#[derive(Drop)]
pub struct Here {
    pub named: Named,
    pub walk: Walk,
    pub force: Effective,
}

/// How a pass ends a request, and the tree of Require lines that was in force.
#[derive(Drop)]
pub struct Ended {
    pub outcome: Outcome,
    pub require: Requirement,
}

/// A pass that follows another one, and the tree of Require lines that was in force in that one.
#[derive(Drop)]
pub struct Restarted {
    pub pass: Pass,
    pub require: Requirement,
}

impl Restarted {
    /// The first pass, which follows none.
    pub(crate) fn first(alloc: Global, pass: Pass) -> Restarted
        ensures { result ≡ followed_by None pass }
    {
        Restarted {
            pass,
            require: Requirement::none(alloc),
        }
    }
}
