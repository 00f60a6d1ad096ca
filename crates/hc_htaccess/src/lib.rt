//! The `.htaccess` files of directories (Apache manual, ".htaccess files").
//!
//! `read_overrides` gives what a `.htaccess` text is read as for a directory and what is allowed there, or its
//! refusal (`file_read` in specs/Reading.antt). `PlainOverrides` are the files of a world under a configuration:
//! `load` is refused exactly where reading what stands in that directory is (`reading_in`), and `get` gives what it
//! is read as, for each directory that was loaded; an earlier one stays; and unless memory is refused its counter
//! rises by no more than the bytes of the text there. `read_htaccess` reads the one of a directory.
#![tactic(auto)]

mod plain;
mod reading;
mod there;

pub use plain::PlainOverrides;
pub use reading::read_overrides;
pub use there::read_htaccess;
