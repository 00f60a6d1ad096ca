ghost use Rattle.std.specs.Prelude.{◌≡◌, ◌<◌, ◌≤◌, [], min, take, length, Some, IfOk, OnOk, is_err};
ghost use Rattle.std.specs.Io.{ReadsAtMost, WritesAtMost};
ghost use Rattle.std.specs.Io.KnownBytes.{ReadConsumes, WriteAppends};
ghost use Rattle.hc_base.specs.Faults.{HasCause};
ghost use Rattle.hc_base.specs.Tape.{next_call, is_due, taken_of, is_refused};

use crate::{Failed, NoMemory, Sink, Source};
use std::alloc::Global;
use std::marker::Model;

/// A source in memory, which fails at chosen calls. For tests.
#[derive(Drop)]
pub struct VecSource {
    bytes: Vec<u8>,
    taken: usize,
    failing: Vec<u64>,
    calls: u64,
    faults: u64,
}

impl Model for VecSource {
    ghost use Rattle.std.specs.Prelude.{◌≤◌, drop, vec_len};
    ghost use Rattle.hc_base.specs.Tape.{SourceTape};

    ghost Value = { SourceTape };

    ghost view = { λ s. record {
      left = drop s.taken s.bytes.items;
      failing = s.failing.items;
      calls = s.calls;
      faults = s.faults;
    } };

    ghost invariant = { λ s. s.taken ≤ vec_len s.bytes };
}

impl VecSource {
    ghost use Rattle.hc_base.specs.Tape.{SourceTape};

    /// A source of these bytes. The calls of `read` with the numbers in `failing`, counted from 1,
    /// fail.
    pub fn new(alloc: Global, bytes: &[u8], failing: &[u64]) -> Result<VecSource, NoMemory>
        ensures { IfOk result (λ s. s ≡ record { left = bytes.now; failing = failing.now; calls = 0; faults = 0 }) }
    {
        Ok(VecSource {
            bytes: bytes.to_vec(alloc)?,
            taken: 0,
            failing: failing.to_vec(alloc)?,
            calls: 0,
            faults: 0,
        })
    }
}

// Counts a call, and a fault where it is to fail.
fn count_call(failing: &[u64], calls: &mut u64, faults: &mut u64) -> Result<(), Failed>
    ensures due { is_err result ≡ is_due failing.now calls.old }
    ensures calls { calls.new ≡ next_call calls.old }
    ensures cause { HasCause faults.old faults.new result }
    ensures same { OnOk result (faults.new ≡ faults.old) }
{
    *calls = calls.saturating_add(1);
    let call = *calls;
    if failing.contains(&call) {
        *faults = faults.saturating_add(1);
        return Err(Failed);
    }
    Ok(())
}

// Copies as many bytes as there are and `buf` has room for, and answers how many.
fn copy_front(bytes: &[u8], buf: &mut [u8]) -> usize
    ensures count { result ≡ min (length bytes.now) (length buf.old) }
    ensures front { take result buf.new ≡ take result bytes.now }
{
    let count = buf.len().min(bytes.len());
    buf[..count].copy_from_slice(&bytes[..count]);
    count
}

impl Source for VecSource {
    ghost left = { λ s. Some s.left };

    ghost faults = { λ s. s.faults };

    fn read(&mut self, buf: &mut [u8]) -> Result<usize, Failed>
        ensures bound { ReadsAtMost result buf.new }
        ensures bytes { ReadConsumes (Some self.old.left) (Some self.new.left) result buf.new }
        ensures cause { HasCause self.old.faults self.new.faults result }
        ensures plan { is_err result ≡ is_due self.old.failing self.old.calls }
        ensures count { IfOk result (λ n. n ≡ min (length self.old.left) (length buf.old)) }
        ensures same { OnOk result (self.new.faults ≡ self.old.faults) }
        ensures calls { self.new.calls ≡ next_call self.old.calls }
        ensures failing { self.new.failing ≡ self.old.failing }
    {
        count_call(&self.failing, &mut self.calls, &mut self.faults)?;
        let count = copy_front(&self.bytes[self.taken..], buf);
        self.taken += count;
        Ok(count)
    }
}

/// A sink in memory, which fails at chosen calls and where it has no room. For tests.
#[derive(Drop)]
pub struct VecSink {
    bytes: Vec<u8>,
    most: usize,
    room: usize,
    failing: Vec<u64>,
    calls: u64,
    faults: u64,
}

impl Model for VecSink {
    ghost use Rattle.std.specs.Prelude.{◌≤◌, vec_len, vec_capacity};
    ghost use Rattle.hc_base.specs.Tape.{SinkTape};

    ghost Value = { SinkTape };

    ghost view = { λ s. record {
      held = s.bytes.items;
      most = s.most;
      room = s.room;
      failing = s.failing.items;
      calls = s.calls;
      faults = s.faults;
    } };

    ghost invariant = { λ s. (1 ≤ s.most) × (vec_len s.bytes ≤ s.room) × (s.room ≤ vec_capacity s.bytes) };
}

impl VecSink {
    ghost use Rattle.hc_base.specs.Tape.{new_sink};

    /// An empty sink with room for `room` bytes, of which a call takes at most `most`. The calls of
    /// `write` with the numbers in `failing`, counted from 1, fail.
    pub fn new(
        alloc: Global,
        failing: &[u64],
        most: usize,
        room: usize,
    ) -> Result<VecSink, NoMemory>
        requires { 1 ≤ most }
        ensures { IfOk result (λ s. s ≡ new_sink most room failing.now) }
    {
        Ok(VecSink {
            bytes: Vec::with_capacity(alloc, room)?,
            most,
            room,
            failing: failing.to_vec(alloc)?,
            calls: 0,
            faults: 0,
        })
    }

    /// The bytes that it holds.
    pub fn written(&self) -> &[u8]
        ensures { result.now ≡ self.now.held }
    {
        &self.bytes
    }
}

impl Sink for VecSink {
    ghost written = { λ s. Some s.held };

    ghost faults = { λ s. s.faults };

    fn write(&mut self, piece: &[u8]) -> Result<usize, Failed>
        ensures bound { WritesAtMost result piece.now }
        ensures some { IfOk result (λ n. 0 < length piece.now → 0 < n) }
        ensures bytes { WriteAppends (Some self.old.held) (Some self.new.held) result piece.now }
        ensures cause { HasCause self.old.faults self.new.faults result }
        ensures plan { is_err result ≡ is_refused self.old piece.now }
        ensures count { IfOk result (λ n. n ≡ taken_of self.old piece.now) }
        ensures same { OnOk result (self.new.faults ≡ self.old.faults) }
        ensures calls { self.new.calls ≡ next_call self.old.calls }
        ensures failing { self.new.failing ≡ self.old.failing }
        ensures most { self.new.most ≡ self.old.most }
        ensures room { self.new.room ≡ self.old.room }
    {
        count_call(&self.failing, &mut self.calls, &mut self.faults)?;
        let room = self.room - self.bytes.len();
        let count = piece.len().min(self.most).min(room);
        if count == 0 && !piece.is_empty() {
            self.faults = self.faults.saturating_add(1);
            return Err(Failed);
        }
        self.bytes.extend_from_slice(&piece[..count]).unwrap();
        Ok(count)
    }
}
