//! An open session: a world of files, which lines of a script edit and ask about, what is kept of what was read and
//! answered, and the loop that serves a source of lines.
//!
//! `serve_session` has the clauses of hc_app's `run` but for the words, and `Session::step` answers a line as the
//! definition does (`turned`). So a refusal comes exactly where its rule holds: 45 and 46 for what is no JSON and
//! no command, 40 to 43 and 47 where an edit is refused, 44, 13 to 16 and 48 for the sets of a `decide` or
//! `verify`, their patterns and the line that it speaks of, and those of the files with their code, file and line;
//! and after a refusal or `no_memory` files, number of edits, main file, kept answers and counts are as before. A
//! step counts an evaluation exactly where an ask is answered and no answer to its request is kept of which no
//! later edit changed a read, so too for each request of a `follow`, and none at a `decide`, which runs 16 requests at
//! most for each branch that may break its claim, and of the claim that chains end the chains of 16 (`evals`). A line that is no `check`, no such ask, no `follow`, no
//! `decide` and no `verify` reads nothing (`idle`);
//! a `check` reads at most the texts of the configuration, each time that one is included, and such an ask those
//! and the `.htaccess` texts that its request looks at, each time that it does, unless its reply is `no_memory`
//! (`bytes`). That a kept answer is that of the present files is the session's invariant (specs/Sound.antt): an
//! edit that leaves all reads of an answer as they were leaves the configuration and the answer. The requests of a
//! `follow` are a chain of hc_follow, each asked behind the one before (specs/Following.antt). A `decide` is
//! answered by hc_claim over the present files (specs/Deciding.antt), and of the claim that chains of redirects end by
//! hc_ends (specs/Ending.antt); a `verify` by hc_cert (specs/Verifying.antt); and what its answer says holds. With `trail` the reply is the number of the events, the first 200, each with the
//! text of its line as the file has it, and the reads. `Status::code` and `Status::message` are the table of the
//! README. `laws`: an answer rests on its reads alone.
#![tactic(auto)]

mod asking;
mod changes;
mod conversation;
mod deciding;
mod ends;
mod following;
pub mod laws;
mod limits;
mod line_buffer;
mod replies;
mod serve;
mod session;
mod status;
mod stepped;
mod verifying;

pub use conversation::serve_session;
pub use serve::send;
pub use session::{MAIN_FILE, Session};
pub use status::Status;
pub use stepped::{Said, Stepped};
