//! The expressions of `<If>` (Apache manual, "Expressions in Apache HTTP Server"): read, and
//! evaluated for a request.
//!
//! `parse_expr` reads an expression, or answers the first rule that it breaks (specs/Reading.antt): its tokens
//! (specs/Tokens.antt), and their tree (specs/Emitted.antt). `laws::tokens_have_one_tree`: that tree is the only one by
//! the grammar, in which `||` binds less than `&&` and that less than `!` (specs/Grammar.antt), and where there is
//! none, the text is refused. `holds` gives its value for a request (specs/Values.antt). Both are loops over lists:
//! nothing calls itself for a part.
#![tactic(auto)]

mod build;
mod hold;
pub mod laws;
mod operand;
mod parts;
mod read;
mod step;
mod stepping;
mod syntax;
mod test;
mod token;

pub use hold::holds;
pub use read::{ExprFault, both, lesser, parse_expr};
