ghost use Rattle.std.specs.Prelude.{◌≡◌, ◌≢◌, ◌<◌, ◌^◌, ◌-◌, ◌≤◌};
ghost use Rattle.std.specs.Prelude.{[], IfOk, OnErr, false, length};
ghost use Rattle.std.specs.Io.KnownBytes.{Consumes, Keeps, IsAtEnd};
ghost use Rattle.hc_base.specs.Faults.{HasCause};
ghost use Rattle.hc_session.specs.Conversation.{Served, Completes, status_at_end};
ghost use Rattle.hc_session.specs.Session.{start, work};

use crate::limits::{CHUNK, LINE_LIMIT, SCRIPT_LIMIT};
use crate::line_buffer::LineBuffer;
use crate::serve::answer_lines;
use crate::session::Session;
use crate::status::Status;
use hc_base::{Counter, Failed, NoMemory, Sink, Source};
use std::alloc::Global;
use std::sync::ledger::Ledger;

/// Serves a source: answers each of its lines by a line to the sink, until an `end` is answered, the
/// source ends, or a line or the script reaches its limit. All that takes memory first (a line
/// buffer of 16 MiB) is taken before the first byte is read. `evals` rises by one for each request
/// that is evaluated, and `bytes` by the bytes of the configuration and `.htaccess` texts that are read.
/// A claim may have fewer branches than `limit`.
pub fn serve_session<S: Source, K: Sink, E: Ledger, B: Ledger>(
    alloc: Global,
    limit: u32,
    source: &mut S,
    sink: &mut K,
    evals: &mut Counter<E>,
    bytes: &mut Counter<B>,
) -> Status
    requires source_counts { S.faults source.old < 2 ^ 64 - 1 }
    requires sink_counts { K.faults sink.old < 2 ^ 64 - 1 }

    // Where the source tells its bytes and nothing failed, what is written is the session's
    // replies to these bytes, and the status is the session's.
    ensures complete { S.faults source.new ≡ S.faults source.old → K.faults sink.new ≡ K.faults sink.old
        → result ≢ Status.NoMemory
        → Completes (start limit) (S.left source.old) (K.written sink.old) (K.written sink.new) result }

    // In every case what was written are the replies to the whole lines taken, unless the sink
    // failed: then those to some of them, of the last one's a front. `evals` has risen by no more
    // than the evaluations that these lines count, by one for each ask among them that was
    // answered `no_memory`, by 21 for each such `follow`, and by the candidates that each `decide` may try; and
    // `bytes`, where no line was answered so and none is a `follow`, a `decide` or a `verify`, by no more than the
    // texts that they may read.
    ensures served { result ≢ Status.NoMemory
        → Served (start limit) (S.left source.old) (S.left source.new)
        (K.written sink.old) (K.written sink.new)
        (work evals.old bytes.old) (work evals.new bytes.new) result }

    ensures words { result ≢ Status.Words }
    ensures read_fault { result ≡ Status.ReadFault → S.faults source.old < S.faults source.new }
    ensures write_fault { result ≡ Status.WriteFault → K.faults sink.old < K.faults sink.new }
    ensures untouched { result ≡ Status.NoMemory → (source.new ≡ source.old) × (sink.new ≡ sink.old) }
    ensures idle { result ≡ Status.NoMemory → work evals.new bytes.new ≡ work evals.old bytes.old }
{
    match Desk::new(alloc, limit) {
        Ok(mut desk) => serve(
            &mut desk.session,
            &mut desk.line,
            source,
            sink,
            evals,
            bytes,
        ),
        Err(NoMemory) => Status::NoMemory,
    }
}

// All that takes memory before the first byte is read.
#[derive(Drop)]
struct Desk {
    session: Session,
    line: LineBuffer,
}

impl Desk {
    fn new(alloc: Global, limit: u32) -> Result<Desk, NoMemory>
        ensures session { IfOk result (λ desk. desk.session ≡ start limit) }
        ensures line { IfOk result (λ desk. desk.line ≡ []) }
    {
        Ok(Desk {
            session: Session::new(alloc, limit)?,
            line: LineBuffer::new(alloc)?,
        })
    }
}

fn serve<S: Source, K: Sink, E: Ledger, B: Ledger>(
    session: &mut Session,
    line: &mut LineBuffer,
    source: &mut S,
    sink: &mut K,
    evals: &mut Counter<E>,
    bytes: &mut Counter<B>,
) -> Status
    requires going { session.old.ended ≡ false }
    requires line { line.old ≡ [] }
    requires source_counts { S.faults source.old < 2 ^ 64 - 1 }
    requires sink_counts { K.faults sink.old < 2 ^ 64 - 1 }
    ensures served { Served session.old (S.left source.old) (S.left source.new)
        (K.written sink.old) (K.written sink.new)
        (work evals.old bytes.old) (work evals.new bytes.new) result }
    ensures read_fault { result ≡ Status.ReadFault → S.faults source.old < S.faults source.new }
    ensures write_fault { result ≡ Status.WriteFault → K.faults sink.old < K.faults sink.new }
{
    let mut chunk = [0u8; CHUNK];
    let mut taken = 0usize;
    'reads: while line.len() < LINE_LIMIT && taken < SCRIPT_LIMIT {
        let room = CHUNK.min(LINE_LIMIT - line.len()).min(SCRIPT_LIMIT - taken);
        let Ok(piece) = fill(source, &mut chunk, room) else {
            return Status::ReadFault;
        };
        if piece.is_empty() {
            return end_of_input(line);
        }
        taken += piece.len();
        let Ok(()) = answer_lines(session, line, piece, sink, evals, bytes) else {
            return Status::WriteFault;
        };
        if session.has_ended() {
            return Status::Done;
        }
    }
    if line.len() < LINE_LIMIT {
        Status::ScriptTooLong
    } else {
        Status::LineTooLong
    }
}

// How an input ends behind these bytes of its last line.
fn end_of_input(line: &LineBuffer) -> Status
    ensures { result ≡ status_at_end line.now }
{
    if line.is_empty() {
        Status::Done
    } else {
        Status::CutLine
    }
}

// The next bytes of the source, at most `room`; none at its end.
fn fill<'c, S: Source>(source: &mut S, chunk: &'c mut [u8], room: usize) -> Result<&'c [u8], Failed>
    requires some { 0 < room }
    requires fits { room ≤ length chunk.old }
    ensures bound { IfOk result (λ bytes. length bytes.now ≤ room) }
    ensures bytes { IfOk result (λ bytes. Consumes (S.left source.old) (S.left source.new) bytes.now) }
    ensures end { IfOk result (λ bytes. bytes.now ≡ [] → IsAtEnd (S.left source.new)) }
    ensures err { OnErr result (Keeps (S.left source.old) (S.left source.new)) }
    ensures cause { HasCause (S.faults source.old) (S.faults source.new) result }
{
    let count = source.read(&mut chunk[..room])?;
    Ok(&chunk[..count])
}
