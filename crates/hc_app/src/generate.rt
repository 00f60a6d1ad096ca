ghost use Rattle.std.specs.Prelude.{◌≡◌, ◌≢◌, ◌<◌, ◌^◌, ◌-◌};
ghost use Rattle.hc_generate.specs.Sessions.{work};
ghost use Rattle.hc_app.specs.Run.{Generated};

use hc_base::{Counter, Failed, Sink};
use hc_generate::{Status, send, summary};
use std::alloc::Global;
use std::sync::ledger::Ledger;

/// Runs the script that a seed makes, and writes its summary.
pub fn generate<K: Sink, E: Ledger, B: Ledger>(
    alloc: Global,
    limit: u32,
    seed: u64,
    sink: &mut K,
    evals: &mut Counter<E>,
    bytes: &mut Counter<B>,
) -> Status
    requires sink_counts { K.faults sink.old < 2 ^ 64 - 1 }
    ensures generated { result ≢ Status.NoMemory
        → Generated limit seed (K.written sink.old) (K.written sink.new)
        (work evals.old bytes.old) (work evals.new bytes.new) result }
    ensures write_fault { result ≡ Status.WriteFault → K.faults sink.old < K.faults sink.new }
    ensures untouched { result ≡ Status.NoMemory → sink.new ≡ sink.old }
    ensures idle { result ≡ Status.NoMemory → work evals.new bytes.new ≡ work evals.old bytes.old }
    ensures words { result ≢ Status.Words }
    ensures read { result ≢ Status.ReadFault }
{
    let Ok(line) = summary(alloc, limit, seed, evals, bytes) else {
        return Status::NoMemory;
    };
    match send(sink, line.as_bytes()) {
        Ok(()) => Status::Done,
        Err(Failed) => Status::WriteFault,
    }
}
