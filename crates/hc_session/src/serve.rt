ghost use Rattle.std.specs.Prelude.{◌≡◌, ◌+◌, ◌≤◌, ◌++◌, length, false, OnOk, OnErr};
ghost use Rattle.std.specs.Io.KnownBytes.{Appends};
ghost use Rattle.hc_base.specs.Faults.{HasCause};
ghost use Rattle.hc_base.specs.Lines.{whole_lines, rest_of};
ghost use Rattle.hc_session.specs.Sending.{AppendsFront, AnswersLine, AnswersInPart, AnswersLines};
ghost use Rattle.hc_session.specs.Sending.{AnswersLinesInPart};
ghost use Rattle.hc_session.specs.Session.{work};
ghost use Rattle.hc_session.specs.declared.limits.TheConstants.{LINE_LIMIT};

use crate::line_buffer::LineBuffer;
use crate::session::Session;
use hc_base::{Counter, Failed, NoMemory, Sink};
use memchr::memchr;
use std::sync::ledger::Ledger;

const NO_MEMORY_LINE: &[u8] = b"{\"no_memory\":true}\n";

/// Writes a piece; what a call doesn't take goes to the next call.
pub fn send<K: Sink>(sink: &mut K, piece: &[u8]) -> Result<(), Failed>
    ensures ok { OnOk result (Appends (K.written sink.old) (K.written sink.new) piece.now) }
    ensures err { OnErr result (AppendsFront (K.written sink.old) (K.written sink.new) piece.now) }
    ensures cause { HasCause (K.faults sink.old) (K.faults sink.new) result }
{
    let mut rest = piece;
    while !rest.is_empty() {
        let count = sink.write(rest)?;
        rest = rest.split_at(count).1;
    }
    Ok(())
}

// Answers one line.
fn answer_line<K: Sink, E: Ledger, L: Ledger>(
    session: &mut Session,
    line: &[u8],
    sink: &mut K,
    evals: &mut Counter<E>,
    bytes: &mut Counter<L>,
) -> Result<(), Failed>
    ensures ok { OnOk result (AnswersLine session.old session.new line.now
        (K.written sink.old) (K.written sink.new) (work evals.old bytes.old) (work evals.new bytes.new)) }
    ensures err { OnErr result (AnswersInPart session.old session.new line.now
        (K.written sink.old) (K.written sink.new) (work evals.old bytes.old) (work evals.new bytes.new)) }
    ensures cause { HasCause (K.faults sink.old) (K.faults sink.new) result }
{
    match session.step(line, evals, bytes) {
        Ok(stepped) => send(sink, stepped.line.as_bytes()),
        Err(NoMemory) => send(sink, NO_MEMORY_LINE),
    }
}

// Answers each line that these bytes end, up to an `end`. `line` has the bytes of a line that has
// not ended, and has those of the next one afterwards, unless the session has ended.
pub(crate) fn answer_lines<K: Sink, E: Ledger, L: Ledger>(
    session: &mut Session,
    line: &mut LineBuffer,
    piece: &[u8],
    sink: &mut K,
    evals: &mut Counter<E>,
    bytes: &mut Counter<L>,
) -> Result<(), Failed>
    requires going { session.old.ended ≡ false }
    requires unended { rest_of line.old ≡ line.old }
    requires room { length line.old + length piece.now ≤ LINE_LIMIT }
    ensures ok { OnOk result (AnswersLines session.old session.new
        (whole_lines (line.old ++ piece.now)) (K.written sink.old) (K.written sink.new)
        (work evals.old bytes.old) (work evals.new bytes.new)) }
    ensures err { OnErr result (AnswersLinesInPart session.old
        (whole_lines (line.old ++ piece.now)) (K.written sink.old) (K.written sink.new)
        (work evals.old bytes.old) (work evals.new bytes.new)) }
    ensures rest { OnOk result (session.new.ended ≡ false → line.new ≡ rest_of (line.old ++ piece.now)) }
    ensures cause { HasCause (K.faults sink.old) (K.faults sink.new) result }
{
    let mut rest = piece;
    while let Some(end) = memchr(b'\n', rest) {
        let (front, behind) = rest.split_at(end);
        line.extend(front);
        answer_line(session, line.as_slice(), sink, evals, bytes)?;
        if session.has_ended() {
            return Ok(());
        }
        line.clear();
        rest = behind.split_at(1).1;
    }
    line.extend(rest);
    Ok(())
}
