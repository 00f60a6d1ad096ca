//! The branches of the way from a URL path to a file name, over a set of requests: `redirect_branches` for a list of
//! redirects, `map_branches` for redirects, aliases and the document root, `placed_branches` for what a pass goes on
//! with behind the rules of the server, and `tidied_branches` for a file name before its walk. Each finds exactly the
//! branches of its plan in hc_abs_pass (`Mapping`, `Naming`), whatever states of requests it is asked of. `as_path`
//! stores a text in hand as the URL path.
#![tactic(auto)]

mod aliases;
mod dots;
mod entries;
mod first;
mod map;
mod mapped;
mod placed;
mod redirects;
mod tidied;

pub use map::map_branches;
pub use mapped::Mapped;
pub use placed::{as_path, placed_branches};
pub use redirects::{Redirected, redirect_branches};
pub use tidied::tidied_branches;
