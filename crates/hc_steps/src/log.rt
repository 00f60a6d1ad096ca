ghost use Rattle.std.specs.Prelude.{◌≡◌, IfOk, OnOk, false};
ghost use Rattle.hc_model.specs.declared.event.Event.{Event};
ghost use Rattle.hc_steps.specs.Laws.{empty_log};
ghost use Rattle.hc_steps.specs.Ran.{has_room, with_event, with_read};
ghost use Rattle.hc_steps.specs.Told.{told_of};

use crate::order::listed;
use hc_base::{List, NoMemory};
use hc_model::{Event, Read};
use std::alloc::Global;
use std::collections::BTreeSet;
use std::marker::Model;

/// What was told so far: the first events, or all; how many there were; and each look once, in byte
/// order of the path, and at one path the text, the kind and the names.
#[derive(Drop)]
pub struct Log {
    cap: Option<usize>,
    kept: List<Event>,
    count: u64,
    reads: BTreeSet<Read>,
}

impl Model for Log {
    ghost use Rattle.hc_steps.specs.Ran.{Logged};

    ghost Value = { Logged };

    ghost view = { λ l. record { cap = l.cap; kept = l.kept; count = l.count; reads = l.reads.keys } };
}

/// What a log has in the end.
#[derive(Drop)]
pub struct Told {
    pub events: List<Event>,
    /// How many events there were, also those that are not kept.
    pub count: u64,
    pub reads: List<Read>,
}

impl Log {
    /// An empty log that keeps at most so many events, or all.
    pub fn new(alloc: Global, cap: Option<usize>) -> Log
        ensures { result ≡ empty_log cap }
    {
        Log {
            cap,
            kept: List::new(alloc),
            count: 0,
            reads: BTreeSet::new(alloc),
        }
    }

    pub fn allocator(&self) -> Global {
        self.kept.allocator()
    }

    /// Tells an event. A log that has counted its last one finds no memory.
    pub fn say(&mut self, event: Event) -> Result<(), NoMemory>
        ensures { OnOk result (self.new ≡ with_event self.old event) }
    {
        let Some(count) = self.count.checked_add(1) else {
            return Err(NoMemory);
        };
        if self.has_room() {
            self.kept.push(event)?;
        }
        self.count = count;
        Ok(())
    }

    /// Whether the next event is kept.
    pub fn has_room(&self) -> bool
        ensures { result ≡ has_room self.now.cap self.now.kept }
    {
        match self.cap {
            None => true,
            Some(cap) => self.kept.as_slice().len() < cap,
        }
    }

    /// Tells an event that isn't kept, so that nobody has to make it.
    pub fn pass_over(&mut self) -> Result<(), NoMemory>
        requires { has_room self.old.cap self.old.kept ≡ false }
        ensures { OnOk result ((event : Event) → self.new ≡ with_event self.old event) }
    {
        let Some(count) = self.count.checked_add(1) else {
            return Err(NoMemory);
        };
        self.count = count;
        Ok(())
    }

    /// Tells a look.
    pub fn look(&mut self, read: Read) -> Result<(), NoMemory>
        ensures { OnOk result (self.new ≡ with_read self.old read) }
    {
        self.reads.insert(read)?;
        Ok(())
    }

    pub fn into_told(self) -> Result<Told, NoMemory>
        ensures { IfOk result (λ told. told ≡ told_of self) }
    {
        let alloc = self.allocator();
        Ok(Told {
            events: self.kept,
            count: self.count,
            reads: listed(alloc, self.reads)?,
        })
    }
}

impl Clone for Log {
    ghost is_clone = { λ log copy. copy ≡ log };

    fn clone(&self) -> Result<Log, NoMemory> {
        Ok(Log {
            cap: self.cap,
            kept: self.kept.copy()?,
            count: self.count,
            reads: self.reads.clone()?,
        })
    }
}

impl Clone for Told {
    ghost is_clone = { λ told copy. copy ≡ told };

    fn clone(&self) -> Result<Told, NoMemory> {
        Ok(Told {
            events: self.events.copy()?,
            count: self.count,
            reads: self.reads.copy()?,
        })
    }
}
