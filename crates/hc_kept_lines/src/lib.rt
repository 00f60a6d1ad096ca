//! What the logical lines of a configuration text are read as, kept beside a text that is edited by physical lines.
//!
//! `KeptLines::of` reads each logical line of a text, for both kinds of file at once. `KeptLines::edited` gives those of the
//! edited text (`lines`), and counts at most the bytes of the logical lines that the edit makes (`bytes`, with `anew` in
//! specs/Edit.antt): all others are taken over. `KeptLines::lines` gives exactly the lines of the text as one of either kind,
//! or its first refusal, and reads nothing.
#![tactic(auto)]

mod cut;
mod edit;
mod ends;
mod lines;
mod places;
mod read;
mod runs;
mod told;
mod unjoin;

pub use lines::KeptLines;
