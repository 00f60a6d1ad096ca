//! hc, an analyser of Apache HTTP Server 2.4 configuration. It reads a script of JSON lines on
//! standard input and answers each by a line of JSON on standard output.
//!
//! `run` does all that the program does. `complete`: where the words ask to serve the source, the source tells its
//! bytes, no fault was counted in the call and the status isn't 5, what was written is the replies of the session
//! to the whole lines of these bytes, up to an `end`, and the status is the session's. `served`: in every run that
//! served its source, the lines that were answered have these replies, what was written is theirs, or a front of it
//! after a fault of the sink, each status comes only where its row says so, and the counters have risen by no more
//! than these lines give. `generated`: with `--generate` the line that was written, or a front of it, sums up a run
//! of the session over the script of the seed, and the source is as before. `words`, `refused`, `read_fault`,
//! `write_fault`, `untouched`: status 2 comes only where the words are refused, and there comes it or 5; 3 and 4
//! only where the count of that source or sink rose in the call; after 2 and 5 nothing was read and nothing
//! written, and nothing counted that no line gives.
#![tactic(auto)]

ghost use Rattle.std.specs.Prelude.{◌≡◌, ◌-◌, ◌<◌, ◌^◌};

mod generate;
mod run;
#[cfg(test)]
mod tests;

use hc_base::{Counter, Sink, Source, StdSink, StdSource};
use hc_generate::Status;
pub use run::run;
use std::alloc::Global;
use std::env;
use std::io::ErrorKind;
use std::marker::Brand;
use std::process::ExitCode;
use std::rt::Env;
use std::sync::ledger::{Blank, Ledger};

// The words of the command line without the program's name, or how the program ends without them.
fn command_line(rt: &(impl Env + AllocGlobal)) -> Result<Vec<String>, Status> {
    let args = match env::args(rt) {
        Ok(args) => args,
        Err(error) if error.kind() == ErrorKind::OutOfMemory => return Err(Status::NoMemory),
        Err(_) => return Err(Status::Words),
    };
    let mut words = Vec::new(rt.alloc());
    for word in args.skip(1) {
        if words.push(word).is_err() {
            return Err(Status::NoMemory);
        }
    }
    Ok(words)
}

// A run with a counter of evaluations and one of bytes, which begin at 0.
fn run_counted<S: Source, K: Sink, E: Ledger, B: Ledger>(
    alloc: Global,
    words: &[String],
    source: &mut S,
    sink: &mut K,
    for_evals: Blank,
    for_bytes: Blank,
) -> Status
    requires source_counts { S.faults source.old < 2 ^ 64 - 1 }
    requires sink_counts { K.faults sink.old < 2 ^ 64 - 1 }
    requires evals_name { for_evals.name ≡ E.name }
    requires evals_parts { for_evals.parts ≡ E.parts }
    requires evals_whole { 0 < for_evals.parts }
    requires bytes_name { for_bytes.name ≡ B.name }
    requires bytes_parts { for_bytes.parts ≡ B.parts }
    requires bytes_whole { 0 < for_bytes.parts }
{
    let mut evals = Counter::<E>::new(for_evals);
    let mut bytes = Counter::<B>::new(for_bytes);
    run(alloc, words, source, sink, &mut evals, &mut bytes)
}

fn main(rt: HostRuntime) -> ExitCode {
    let mut source = StdSource::new(rt.stdin());
    let mut sink = StdSink::new(rt.stdout());
    let status = match command_line(&rt) {
        Ok(words) => run_counted::<_, _, Brand, Brand>(
            rt.alloc(),
            &words,
            &mut source,
            &mut sink,
            Blank::new(1),
            Blank::new(1),
        ),
        Err(status) => status,
    };
    if let Some(message) = status.message() {
        let _ = eprintln!(rt; "{message}");
    }
    ExitCode::from(status.code())
}
