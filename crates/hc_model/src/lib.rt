//! The types of the model, and in `specs/` what a world, a configuration, a name and a request mean.
//!
//! All types of a request, a configuration, rewriting and authorization, and the definitions of a world and a walk;
//! each clone equals what it is made of. Rules stand in a list (`Rules`) whose copies are meant to share it, which no
//! clause says. An `Expression` is a list of steps that contracts see as a tree, and a `Requirement` a list of trees
//! that they see as one.
#![tactic(auto)]

mod authorization;
mod config;
mod entry;
mod event;
mod expression;
mod lookups;
mod mapping;
mod outcome;
mod overrides;
mod read;
mod regex;
mod request;
mod requirement;
mod rewrite;
mod rules;
mod section;
mod spot;
mod stepped;
mod template;
mod walk;

pub use authorization::{Join, Merging, Need, ReqTree};
pub use config::{Config, Define, HostAddr, HostId, Server};
pub use entry::{Entry, EntryForm};
pub use event::{Authorized, Decision, Event};
pub use expression::{Expr, ExprStep};
pub use lookups::{Lookups, Texts};
pub use mapping::{Alias, Map, MapKind, PathTest, Redirect};
pub use outcome::{LimitKind, Outcome, Reason};
pub use overrides::{AtFault, Overrides};
pub use read::Read;
pub use regex::Regex;
pub use request::{Caller, Header, Request, Scheme, View};
pub use requirement::Requirement;
pub use rewrite::{Cond, CondKind, EnvSet, Flags, Rule};
pub use rules::Rules;
pub use section::{Allowed, Body, Effective, HtFile, Inherit, OptStep, Reach, Section};
pub use spot::Spot;
pub use stepped::Expression;
pub use template::{Piece, Template, Var};
pub use walk::{Kind, Walk};
