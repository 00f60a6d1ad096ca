//! What was read of a world, kept as long as what it rests on stays.
//!
//! A `Site` is what a main file was read as, with what that rests on; `CachedOverrides` are the `.htaccess` files
//! of a world under a configuration, of which each is read where it isn't kept or its text has changed. They are
//! what reading them anew gives (specs/Files.antt); `laws::sites_stand`: an accepted edit leaves standing what it
//! doesn't touch.
#![tactic(auto)]

mod asked;
mod cached;
mod files;
mod key;
pub mod laws;
mod settled;
mod site;

pub use cached::{CachedFiles, CachedOverrides, FreshFile};
pub use files::KeptFiles;
pub use site::Site;
