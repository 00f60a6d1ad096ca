//! What is kept of a world with what it rests on, until an edit changes that.
//!
//! `Cache::find_valid` gives the value of a key while nothing that it rests on has changed since it was kept;
//! `store` puts it last, in the place of its key's or of the oldest (specs/Entries.antt); `copy` makes a second cache
//! like it. `value_kept` gives a value that is kept elsewhere.
#![tactic(auto)]

mod cache;
mod current;

pub use cache::{Cache, Kept, value_kept};
pub use current::is_current;
