//! The world of files that a session holds.
//!
//! The world of files. `put`, `list`, `drop_path` and `edit_lines` make exactly the defined world or answer the
//! defined refusal and change nothing; an accepted edit raises the number of edits by one, and each read that shows
//! something else behind it has this number, and every other the one that it had (`edit`, with `IsAccepted` in
//! specs/Edits.antt; `changed_at`). What is above a path is always a directory (`kept`, `valid`); `kind`, `text`,
//! `names`, `edits` and `walk` answer what the definitions give; `kind_at`, `text_at`, `names_at` and `follow` do
//! so as steps, and tell the look. Want of memory leaves the world as it was, also where some parents were made
//! already.
#![tactic(auto)]

mod changes;
mod drop;
mod entries;
mod lines;
mod looks;
mod names;
mod nodes;
mod path;
mod walk;
mod world;

pub use looks::{FoundText, kind_at, names_at, text_at};
pub use path::is_path;
pub use walk::follow;
pub use world::{ListKind, World, WorldFault};
