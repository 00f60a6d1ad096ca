//! Texts with parts that are filled in where they are used (Apache manual, mod_rewrite, "Test String",
//! "Substitution" and RewriteMap; mod_alias, RedirectMatch; "Expressions in Apache HTTP Server").
//!
//! `read_template` reads a text in which `$1`, `%1`, `%{NAME}`, `${map:key|fallback}` and a backslash are signs, as
//! far as its caller says which, into exactly the pieces of specs/Reading.antt, or refuses the first name or
//! look-up that may not stand there; `variable_named` and `rewriting_variable` give the variable of a name, without
//! case. `expand` fills the pieces in, exactly as what they are filled with says (specs/Filled.antt); a
//! `ViewFilling` gives each variable its value for a request (specs/Variables.antt), and sets no group. The targets
//! of the `Match` directives are read and filled in by these calls.
#![tactic(auto)]

mod filling;
mod front;
mod inner;
mod lookup;
mod pieces;
mod places;
mod reading;
mod server;
mod signs;
mod values;
mod variables;

pub use filling::{Fills, expand};
pub use lookup::{LONGEST_MAP_NAME, is_map_name};
pub use reading::read_template;
pub use server::{default_port, push_origin, push_port, scheme_name};
pub use signs::{Names, Signs};
pub use values::{Values, ViewFilling, header_value, push_address, push_host};
pub use variables::{rewriting_variable, variable_named};
