//! The flat lists of a configuration over the files of a world, and of a `.htaccess` text.
//!
//! `flatten` gives the flat list of a main file over the files of the world (`flat`: `flat_of` in specs/Flat.antt):
//! the entries with their openings, the file that reading began with, what is defined and loaded, where and why
//! reading stopped, and exactly what of the world was looked at. Its counter rises by the bytes of the texts that
//! were read (`bytes`, `rise`). `laws::flat_lists_agree`: worlds that agree on what was looked at give the same
//! flat list. `flatten_override` gives that of a `.htaccess` text under what a configuration defines and loads
//! (specs/Override.antt); its counter rises by exactly the bytes of the text.
#![tactic(auto)]

mod around;
mod candidates;
mod change;
mod component;
mod files;
mod htaccess;
mod include;
pub mod laws;
mod main_file;
mod order;
mod reading;
mod ruled;

pub use htaccess::flatten_override;
pub use main_file::flatten;
