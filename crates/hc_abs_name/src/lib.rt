//! The branches of a pass from its file name on, over a set of requests: `arrived_branches`, for the walk, the
//! `.htaccess` files, the sections in force and what follows them, finds exactly the branches of hc_abs_pass's
//! `name_plan`.
#![tactic(auto)]

mod arrived;
mod forced;
mod reading;
mod walked;

pub use arrived::arrived_branches;
pub use reading::refused_at;
