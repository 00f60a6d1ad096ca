//! What a directive says to the lines behind it: variables, modules and the server root; and what
//! variables and conditions come to by that.
//!
//! `replaced` gives a text with its variables replaced, `said_of` what a directive says to those behind it or the
//! rule that it breaks, `body_kept` whether IfDefine or IfModule keeps a body.
#![tactic(auto)]

mod condition;
mod defines;
mod modules;
mod said;
mod says;
mod standard;
mod utf8;
mod variables;

pub use condition::body_kept;
pub use defines::Defines;
pub use modules::Modules;
pub use said::{with_define, with_module, with_root};
pub use says::{Says, said_of};
pub use standard::built_in;
pub use utf8::Utf8;
pub use variables::replaced;
