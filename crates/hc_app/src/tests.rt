//! Runs that end at a limit, and one that does not begin.

ghost use Rattle.std.specs.Prelude.{None};

use crate::run_counted;
use hc_base::{Failed, NoMemory, Source, VecSink};
use hc_generate::Status;
use std::alloc::Global;
use std::marker::Brand;
use std::process::Abort;
use std::sync::ledger::Blank;

/// Bytes without end, of which it holds none: those of a read are `x`, the last of them is given.
#[derive(Drop)]
struct Endless {
    last: u8,
}

impl Source for Endless {
    ghost left = { λ _. None };

    ghost faults = { λ _. 0 };

    fn read(&mut self, buf: &mut [u8]) -> Result<usize, Failed> {
        buf.fill(b'x');
        if let Some(last) = buf.last_mut() {
            *last = self.last;
        }
        Ok(buf.len())
    }
}

// How a run over such bytes ends.
fn run_over(alloc: Global, words: &[&str], last: u8) -> Result<Status, NoMemory> {
    let mut source = Endless { last };
    let mut sink = VecSink::new(alloc, &[], 65_536, 16_777_216)?;
    let mut given = Vec::new(alloc);
    for word in words {
        given.push(String::from_str(alloc, word)?)?;
    }
    Ok(run_counted::<_, _, Brand, Brand>(
        alloc,
        &given,
        &mut source,
        &mut sink,
        Blank::new(1),
        Blank::new(1),
    ))
}

#[test]
fn a_line_stops_at_its_limit(rt: HostRuntime) -> Result<(), NoMemory> {
    let status = run_over(rt.alloc(), &[], b'x')?;
    assert!(rt; status == Status::LineTooLong);
    assert!(rt; status.code() == 7);
    Ok(())
}

#[test]
fn a_script_stops_at_its_limit(rt: HostRuntime) -> Result<(), NoMemory> {
    let status = run_over(rt.alloc(), &[], b'\n')?;
    assert!(rt; status == Status::ScriptTooLong);
    assert!(rt; status.code() == 8);
    Ok(())
}

#[test]
fn words_that_are_not_read_end_a_run(rt: HostRuntime) -> Result<(), NoMemory> {
    let status = run_over(rt.alloc(), &["--what"], b'x')?;
    assert!(rt; status == Status::Words);
    assert!(rt; status.code() == 2);
    Ok(())
}
