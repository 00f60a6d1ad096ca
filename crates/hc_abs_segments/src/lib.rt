//! That the plan of a pass agrees with the segments of a request, for all configurations, requests and listed worlds.
//!
//! Where the slots of a state have what a request has come to, the run of the plan of hc_abs_pass from this state ends
//! with the decisions and the end of hc_serve's segment, no run is left out, and a text is too long for both:
//! - `pass_agrees`: from the start of a pass.
//! - `server_round_agrees`, `dir_round_agrees`: from a further round of the server's list, or of a directory's.
//!
//! An end that leads to a further pass or round has what the laws ask for there, so that segments may follow each
//! other. They ask that the world's names are listed, that sections are nested and tested where they merge a setting,
//! and that the document root and the targets of aliases begin with a slash.
//!
//! `segments_count`: a segment leads to the pass with the next number, or to a further round of the same pass.
//! `none_is_left`: no pass is left over behind as many as a request may have.
#![tactic(auto)]

pub mod laws;
