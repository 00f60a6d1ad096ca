ghost use Rattle.std.specs.Prelude.{◌≡◌, ◌≢◌, ◌⊎◌, ◌<◌, ◌^◌, ◌-◌, ℕ, None, map};
ghost use Rattle.std.specs.Prelude.{string_bytes};
ghost use Rattle.hc_generate.specs.Sessions.{Completes, Served, start, work};
ghost use Rattle.hc_words.specs.Words.{words_of};
ghost use Rattle.hc_app.specs.Run.{AsksFor, AsksToServe, Generated};

use crate::generate::generate;
use hc_base::{Counter, Sink, Source};
use hc_generate::{Status, serve_session};
use hc_words::{WordsFault, read_words};
use std::alloc::Global;
use std::sync::ledger::Ledger;

/// All that the program does: it answers each line of the source by a line to the sink, until an
/// `end` is answered, the source ends, or a line or the script reaches its limit; or it runs a
/// script that is made from a seed, and writes its summary. `evals` rises by one for each request
/// that is evaluated, and `bytes` by the bytes of the configuration and `.htaccess` texts that are read.
pub fn run<S: Source, K: Sink, E: Ledger, B: Ledger>(
    alloc: Global,
    words: &[String],
    source: &mut S,
    sink: &mut K,
    evals: &mut Counter<E>,
    bytes: &mut Counter<B>,
) -> Status
    requires source_counts { S.faults source.old < 2 ^ 64 - 1 }
    requires sink_counts { K.faults sink.old < 2 ^ 64 - 1 }

    // Where the source tells its bytes and nothing failed, what is written is the session's
    // replies to these bytes, and the status is the session's.
    ensures complete { (limit : ℕ) → AsksToServe limit (words_of (map string_bytes words.now))
        → S.faults source.new ≡ S.faults source.old → K.faults sink.new ≡ K.faults sink.old
        → result ≢ Status.NoMemory
        → Completes (start limit) (S.left source.old) (K.written sink.old) (K.written sink.new) result }

    // In every case what was written are the replies to the whole lines taken, unless the sink
    // failed: then those to some of them, of the last one's a front. `evals` has risen by no more
    // than the evaluations that these lines count, by one for each ask among them that was
    // answered `no_memory`, by 21 for each such `follow`, and by the candidates that each `decide` may try; and
    // `bytes`, where no line was answered so and none is a `follow`, a `decide` or a `verify`, by no more than the
    // texts that they may read.
    ensures served { (limit : ℕ) → AsksToServe limit (words_of (map string_bytes words.now))
        → result ≢ Status.NoMemory
        → Served (start limit) (S.left source.old) (S.left source.new)
        (K.written sink.old) (K.written sink.new)
        (work evals.old bytes.old) (work evals.new bytes.new) result }

    // A script is made without a look at the source.
    ensures generated { (limit seed : ℕ) → AsksFor limit seed (words_of (map string_bytes words.now))
        → result ≢ Status.NoMemory
        → Generated limit seed (K.written sink.old) (K.written sink.new)
        (work evals.old bytes.old) (work evals.new bytes.new) result
        × (source.new ≡ source.old) }

    ensures words { result ≡ Status.Words → words_of (map string_bytes words.now) ≡ None }
    ensures refused { words_of (map string_bytes words.now) ≡ None
        → (result ≡ Status.Words) ⊎ (result ≡ Status.NoMemory) }
    ensures read_fault { result ≡ Status.ReadFault → S.faults source.old < S.faults source.new }
    ensures write_fault { result ≡ Status.WriteFault → K.faults sink.old < K.faults sink.new }
    ensures untouched { (result ≡ Status.Words) ⊎ (result ≡ Status.NoMemory)
        → (source.new ≡ source.old) × (sink.new ≡ sink.old) }

    // Nothing was evaluated, and no text read.
    ensures idle { (result ≡ Status.Words) ⊎ (result ≡ Status.NoMemory)
        → work evals.new bytes.new ≡ work evals.old bytes.old }
{
    match read_words(alloc, words) {
        Ok(words) => match words.generate {
            Some(seed) => generate(alloc, words.cells, seed, sink, evals, bytes),
            None => serve_session(alloc, words.cells, source, sink, evals, bytes),
        },
        Err(WordsFault::NoMemory) => Status::NoMemory,
        Err(WordsFault::Refused) => Status::Words,
    }
}
