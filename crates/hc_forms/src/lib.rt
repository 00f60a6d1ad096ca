//! The forms of the texts of a request: its target, its method, the Host header, and the names and values of its other
//! headers (specs/Forms.antt). Our own choice.
#![tactic(auto)]

mod forms;

pub use forms::{is_host, is_method, is_name, is_target, is_value};
