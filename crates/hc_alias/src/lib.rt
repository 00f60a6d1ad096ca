//! How a URL path becomes a file name, or is sent away (Apache manual, mod_alias; "Mapping URLs to
//! Filesystem Locations").
//!
//! `map_url` gives the file name of a URL path, or the redirect that sends the request away, or says that there is
//! no document root (`map_url` in specs/Mapping.antt); `directory_redirect` gives where the first redirect of a
//! list sends a request that it takes (`away`).
#![tactic(auto)]

mod filling;
mod locations;
mod mapping;
mod tests;

pub use mapping::{Away, Mapped, directory_redirect, map_url, root_of, under_root};
pub use tests::is_below;
