//! What the maps of a server give (Apache manual, mod_rewrite, RewriteMap).
//!
//! `look_up` gives what the maps of a server have for a key, by the texts of files (specs/Maps.antt); `WorldMaps`
//! are those of a world. `image` gives exactly what they have for the keys of a set, and whether some key has nothing
//! (specs/Images.antt).
#![tactic(auto)]

mod images;
mod lines;
mod maps;
mod words;
mod world_maps;

pub use images::{ImageSet, image};
pub use maps::{file_of, look_up};
pub use world_maps::WorldMaps;
