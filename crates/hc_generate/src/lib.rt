//! A script that is made from a seed, run, and told in one line.
//!
//! `summary` runs the script that a seed makes (`script_of` in specs/Script.antt) through a session, and gives the
//! line that sums it up (`IsSummary` in specs/Summary.antt). The program asks for sessions through this crate, too.
#![tactic(auto)]

mod draws;
mod line;
mod run;
mod step;
mod summaries;
mod summary_line;
mod tally;

pub use hc_session::{MAIN_FILE, Status, send, serve_session};
pub use summaries::summary;
