//! Sessions over memory: faults of the source and the sink, pieces, lines that are cut.

ghost use Rattle.std.specs.Prelude.{◌≡◌, ◌-◌, ◌<◌, ◌≤◌, ◌^◌};

use hc_base::{Counter, NoMemory, Sink, Source, VecSink, VecSource};
use hc_generate::{Status, serve_session};
use hc_words::DEFAULT_CELLS;
use std::alloc::Global;
use std::marker::Brand;
use std::process::Abort;
use std::sync::ledger::{Blank, Ledger};

/// The most bytes that a session writes.
pub const LONGEST_REPLIES: usize = 262_144;

/// A session over memory: how it ended, and what was written.
#[derive(Drop)]
pub struct Finished {
    pub status: Status,
    pub written: Vec<u8>,
}

fn served<S: Source, K: Sink, E: Ledger, B: Ledger>(
    alloc: Global,
    limit: u32,
    source: &mut S,
    sink: &mut K,
    for_evals: Blank,
    for_bytes: Blank,
) -> Status
    requires source_counts { S.faults source.old < 2 ^ 64 - 1 }
    requires sink_counts { K.faults sink.old < 2 ^ 64 - 1 }
    requires evals_name { for_evals.name ≡ E.name }
    requires evals_parts { for_evals.parts ≡ E.parts }
    requires evals_whole { 0 < for_evals.parts }
    requires bytes_name { for_bytes.name ≡ B.name }
    requires bytes_parts { for_bytes.parts ≡ B.parts }
    requires bytes_whole { 0 < for_bytes.parts }
{
    let mut evals = Counter::<E>::new(for_evals);
    let mut bytes = Counter::<B>::new(for_bytes);
    serve_session(alloc, limit, source, sink, &mut evals, &mut bytes)
}

/// A session over this input. The calls of `read` and `write` with these numbers fail, and a call of
/// `write` takes at most so many bytes.
pub fn session_over(
    alloc: Global,
    input: &[u8],
    reads: &[u64],
    writes: &[u64],
    most: usize,
) -> Result<Finished, NoMemory>
    requires { 1 ≤ most }
{
    session_within(alloc, DEFAULT_CELLS, input, reads, writes, most)
}

/// The same, where so many branches of a claim are too many.
pub fn session_within(
    alloc: Global,
    limit: u32,
    input: &[u8],
    reads: &[u64],
    writes: &[u64],
    most: usize,
) -> Result<Finished, NoMemory>
    requires { 1 ≤ most }
{
    let mut source = VecSource::new(alloc, input, reads)?;
    let mut sink = VecSink::new(alloc, writes, most, LONGEST_REPLIES)?;
    let status = served::<_, _, Brand, Brand>(
        alloc,
        limit,
        &mut source,
        &mut sink,
        Blank::new(1),
        Blank::new(1),
    );
    Ok(Finished {
        status,
        written: sink.written().to_vec(alloc)?,
    })
}

/// That a session ended so, and wrote this.
pub fn check(rt: &impl Abort, end: &Finished, status: Status, wanted: &[u8], label: &str) {
    assert!(rt; end.status == status, "{label}");
    assert!(rt; end.written.as_slice() == wanted, "{label}");
}

const SCRIPT: &[u8] =
    br#"{"do":"put","path":"/etc/httpd/conf/httpd.conf","text":"DocumentRoot /var/www\nAlias /image /ftp/pub/image\n"}
{"do":"put","path":"/ftp/pub/image/a.gif","text":""}
{"do":"ask","target":"/image/a.gif"}
{"do":"ask","target":"/image"}
{"do":"ask","target":"/imagefoo"}
"#;

const REPLIES: &[u8] = br#"{"done":"put"}
{"done":"put"}
{"outcome":{"file":{"info":"","path":"/ftp/pub/image/a.gif"}}}
{"outcome":{"directory":"/ftp/pub/image"}}
{"outcome":{"not_found":true}}
"#;

#[test]
fn a_fault_of_the_sink_ends_a_session(rt: HostRuntime) -> Result<(), NoMemory> {
    let alloc = rt.alloc();
    // the failing call, the most that a call takes, and how many bytes were written before
    static ROWS: &[(u64, usize, usize)] = &[
        (1, 4096, 0),
        (2, 4096, 15),
        (3, 4096, 30),
        (4, 4096, 93),
        (5, 4096, 136),
        (1, 1, 0),
        (20, 1, 19),
    ];
    for &(call, most, count) in ROWS {
        assert!(rt; most > 0);
        let end = session_over(alloc, SCRIPT, &[], &[call], most)?;
        assert!(rt; count <= REPLIES.len());
        check(&rt, &end, Status::WriteFault, &REPLIES[..count], "write");
    }
    Ok(())
}

const BAD_COMMAND: &str =
    r#"{"refused":{"at":0,"code":46,"field":"do","file":"","line":0,"name":"BadCommand"}}
"#;

// Four lines of 12,013 bytes, of which three reads take all.
fn wide_lines(alloc: Global) -> Result<String, NoMemory> {
    let mut line = " ".repeat(alloc, 12_000)?;
    line.push_str("{\"do\":\"no\"}\n")?;
    line.repeat(alloc, 4)
}

#[test]
fn a_fault_of_the_source_ends_a_session_behind_its_whole_lines(
    rt: HostRuntime,
) -> Result<(), NoMemory> {
    let alloc = rt.alloc();
    let input = wide_lines(alloc)?;
    static ROWS: &[(u64, usize)] = &[(1, 0), (2, 1), (3, 2), (4, 4)];
    for &(call, lines) in ROWS {
        let replies = BAD_COMMAND.repeat(alloc, lines)?;
        let end = session_over(alloc, input.as_bytes(), &[call], &[], 4096)?;
        check(&rt, &end, Status::ReadFault, replies.as_bytes(), "read");
    }
    let end = session_over(alloc, input.as_bytes(), &[5], &[], 4096)?;
    assert!(rt; end.status == Status::Done);
    Ok(())
}

#[test]
fn what_a_call_does_not_take_goes_to_the_next(rt: HostRuntime) -> Result<(), NoMemory> {
    static ROWS: &[usize] = &[1, 2, 7, 62, 4096];
    for &most in ROWS {
        assert!(rt; most > 0);
        let end = session_over(rt.alloc(), SCRIPT, &[], &[], most)?;
        check(&rt, &end, Status::Done, REPLIES, "bytes a call");
    }
    Ok(())
}

#[test]
fn a_line_that_is_cut_off_has_no_reply(rt: HostRuntime) -> Result<(), NoMemory> {
    for cut in 0..=40usize {
        assert!(rt; cut <= SCRIPT.len());
        let end = session_over(rt.alloc(), &SCRIPT[..cut], &[], &[], 4096)?;
        let status = if cut == 0 {
            Status::Done
        } else {
            Status::CutLine
        };
        check(&rt, &end, status, b"", "cut");
    }
    Ok(())
}

// The script, a line longer than any that is read, and one more.
fn endless_line(alloc: Global) -> Result<Vec<u8>, NoMemory> {
    let mut input = SCRIPT.to_vec(alloc)?;
    let line = vec![in alloc; b'x'; 16_777_216]?;
    input.extend_from_slice(&line)?;
    input.extend_from_slice(b"\n{}\n")?;
    Ok(input)
}

#[test]
fn a_line_without_end_stops_at_its_limit(rt: HostRuntime) -> Result<(), NoMemory> {
    let alloc = rt.alloc();
    let end = session_over(alloc, &endless_line(alloc)?, &[], &[], 4096)?;
    check(&rt, &end, Status::LineTooLong, REPLIES, "endless");
    Ok(())
}

const STATS: &str = "{\"do\":\"stats\"}\n";

const NO_STATS: &str = "{\"stats\":{\"asks\":0,\"evaluations\":0}}\n";

#[test]
fn nothing_is_read_behind_an_end(rt: HostRuntime) -> Result<(), NoMemory> {
    let alloc = rt.alloc();
    // what stands behind the end, and which read fails where there is one
    static ROWS: &[(&str, &[u64])] = &[("", &[2]), ("x", &[2]), ("{}\n{}\nx", &[2])];
    for &(behind, reads) in ROWS {
        let mut input = String::from_str(alloc, STATS)?;
        input.push_str("{\"do\":\"end\"}\n")?;
        input.push_str(behind)?;
        let mut wanted = String::from_str(alloc, NO_STATS)?;
        wanted.push_str("{\"done\":\"end\"}\n")?;
        let end = session_over(alloc, input.as_bytes(), reads, &[], 4096)?;
        check(&rt, &end, Status::Done, wanted.as_bytes(), behind);
    }
    Ok(())
}

#[test]
fn a_second_write_fails_or_a_line_is_cut(rt: HostRuntime) -> Result<(), NoMemory> {
    let alloc = rt.alloc();
    let twice = STATS.repeat(alloc, 2)?;
    let end = session_over(alloc, twice.as_bytes(), &[], &[2], 4096)?;
    check(&rt, &end, Status::WriteFault, NO_STATS.as_bytes(), "write");
    let end = session_over(alloc, b"{\"do\":\"stats\"}", &[], &[], 4096)?;
    check(&rt, &end, Status::CutLine, b"", "cut");
    Ok(())
}
