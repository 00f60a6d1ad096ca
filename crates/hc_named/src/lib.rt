//! The variables and headers that rules name: in what they test and store, in the variables that they set, and in the
//! keys and fallbacks of look-ups (Apache manual, mod_rewrite, RewriteCond; RewriteRule; RewriteMap).
//!
//! `names_in` gives those of all rules of a configuration and of the `.htaccess` files that are read under it for a
//! server (specs/Named.antt). What no rule names can't show in what a set of requests comes to.
#![tactic(auto)]

mod gathering;
mod names;
mod naming;

pub use names::{Names, names_in};
