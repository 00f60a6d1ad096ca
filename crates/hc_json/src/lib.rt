//! The lines of a script as commands, and the lines of its replies. Our own choice.
//!
//! `command_in` gives the command that a JSON value is, or its refusal with the first wrong field
//! (specs/Command.antt, Claims.antt, Cells.antt, Hosts.antt). `hosts_of` gives the own servers of a `follow` and of
//! the claim that chains of redirects end, `cells_of` the cells of a `verify`, and `slot_named` the slot of a name. `print_reply`, `print_outcome`, `print_trailed`,
//! `print_followed`, `print_refuted`, `print_undecided` and `print_rejected` give the bytes of a reply
//! (specs/Reply.antt, Trail.antt, Claimed.antt). JSON is read and printed by `serde_json`, and the clauses rest on its
//! definitions.
#![tactic(auto)]

mod asked;
mod cells;
mod claim;
mod claimed;
mod command;
mod fields;
mod followed;
mod headers;
mod hosts;
mod rejected;
mod reply;
mod scope;
mod slots;
mod trail;

pub use asked::{Asked, RequestForm};
pub use cells::{CellForm, CutForm, cells_of};
pub use claim::{ClaimForm, PlaceForm};
pub use claimed::{print_refuted, print_undecided};
pub use command::{Command, NoCommand, bad_line, command_in, parse};
pub use followed::{Stop, print_followed};
pub use hosts::{HostForm, hosts_of};
pub use rejected::{Condition, Rejection, print_rejected};
pub use reply::{Done, Reply, print_outcome, print_reply};
pub use scope::ScopeForm;
pub use slots::{SlotForm, slot_named};
pub use trail::{Trail, print_trailed};
