//! Request targets: read into a normal path and a query, and paths escaped.
//! Apache manual, core, AllowEncodedSlashes (off: an escaped slash is refused); what isn't said there
//! is our own choice.
//!
//! `read_target` reads a request's target into a normal path and a query, or answers 400, 404 or an unsupported
//! byte exactly where docs/RULES.md says so; `escape_path` escapes a path. `laws::an_escaped_path_is_read_back`: a
//! normal path that is escaped is read back as it was, with any query behind it.
#![tactic(auto)]

mod escape;
pub mod laws;
mod segments;
mod target;
mod urls;

pub use escape::escape_path;
pub use target::{TargetRead, read_target};
pub use urls::{begins_without_case, is_redirection, is_url};
