ghost use Rattle.std.specs.Prelude.{◌≡◌, ℕ, ◌+◌, ◌*◌, ◌<◌, Bool, IfOk, OnOk, Some, length};
ghost use Rattle.std.specs.Prelude.{slice_get, true, vec_len};
ghost use Rattle.hc_dfa.specs.Explored.{AreRows, Extends, IsTableOf, RowsExplored};

use crate::exploring::{Walk, explore};
use crate::numbers::{number_near, number_of};
use hc_base::NoMemory;
use indexmap::IndexSet;
use std::alloc::Global;
use std::hash::Hash;

/// Keys that each byte leads on from: they are the states of a deterministic automaton.
pub trait Rows {
    type Key: Eq + Hash + Drop;
    /// What is used again for each step.
    type Scratch: Drop;

    ghost begins: { Self → Self.Key → Type 0 };

    ghost is_key: { Self → Self.Key → Type 0 };

    ghost leads: { Self → Self.Key → ℕ → Self.Key → Type 0 };

    ghost marks: { Self → Self.Key → Bool → Type 0 };

    ghost fits: { Self → Self.Scratch → Type 0 };

    /// The key that a byte leads to.
    fn next(
        &self,
        scratch: &mut Self::Scratch,
        key: &Self::Key,
        byte: u8,
    ) -> Result<Self::Key, NoMemory>
        requires key { is_key self.now key.now }
        requires scratch { fits self.now scratch.old }
        ensures scratch { fits self.now scratch.new }
        ensures leads { IfOk result (leads self.now key.now byte) }
        ensures key { IfOk result (is_key self.now) };

    /// Whether the state is final.
    fn is_final(&self, scratch: &Self::Scratch, key: &Self::Key) -> bool
        requires key { is_key self.now key.now }
        requires scratch { fits self.now scratch.now }
        ensures { marks self.now key.now result };

    fn copy(&self, key: &Self::Key) -> Result<Self::Key, NoMemory>
        ensures { IfOk result (λ copy. copy ≡ key.now) };

    ghost same: { (x y : Self.Key) → Self.Key.eq x y ≡ true → x ≡ y };
}

/// A next state for each state and each of some bytes, and whether each state is final.
#[derive(Drop)]
pub struct Table {
    pub next: Vec<u32>,
    pub finals: Vec<bool>,
}

/// The table of the keys that are met from a first one on, with an entry for each of these bytes.
pub fn table_of<R: Rows>(
    alloc: Global,
    rows: &R,
    scratch: R::Scratch,
    bytes: &[u8],
    first: R::Key,
) -> Result<Table, NoMemory>
    requires first { R.begins rows.now first }
    requires key { R.is_key rows.now first }
    requires scratch { R.fits rows.now scratch }
    ensures { IfOk result (λ table. IsTableOf (R.begins rows.now) (R.is_key rows.now) (R.leads rows.now)
        (R.marks rows.now) bytes.now table.next.items table.finals.items) }
{
    let mut keys = IndexSet::new(alloc);
    number_of(&mut keys, first)?;
    let mut filled = Filled {
        scratch,
        table: Table {
            next: Vec::new(alloc),
            finals: Vec::new(alloc),
        },
    };
    explore(&Filling { rows, bytes }, &mut filled, &mut keys)?;
    Ok(filled.table)
}

#[derive(Drop)]
struct Filled<S> {
    scratch: S,
    table: Table,
}

/// The walk that fills a table.
#[derive(Drop)]
struct Filling<'a, R> {
    rows: &'a R,
    bytes: &'a [u8],
}

impl<'a, R: Rows> Walk for Filling<'a, R> {
    type Key = R::Key;

    type Gathered = Filled<R::Scratch>;

    ghost has_followed = { λ w filled keys count. R.fits w.rows.now filled.scratch
        × AreRows (R.begins w.rows.now) (R.is_key w.rows.now) (R.leads w.rows.now) (R.marks w.rows.now) w.bytes.now
        keys filled.table.next.items filled.table.finals.items count };

    fn follow(
        &self,
        filled: &mut Filled<R::Scratch>,
        keys: &mut IndexSet<R::Key>,
        number: u32,
    ) -> Result<(), NoMemory> {
        let key = self.rows.copy(&keys.as_slice()[number as usize])?;
        add_cells(
            self,
            &mut filled.scratch,
            &mut filled.table.next,
            keys,
            &key,
        )?;
        filled
            .table
            .finals
            .push(self.rows.is_final(&filled.scratch, &key))?;
        Ok(())
    }
}

/// Adds the row of a key, with an entry for each of the bytes, and the keys that it meets.
fn add_cells<'a, R: Rows>(
    walk: &Filling<'a, R>,
    scratch: &mut R::Scratch,
    next: &mut Vec<u32>,
    keys: &mut IndexSet<R::Key>,
    key: &R::Key,
) -> Result<(), NoMemory>
    requires explored { RowsExplored (R.is_key walk.now.rows.now) (R.leads walk.now.rows.now) walk.now.bytes.now
        keys.old.keys next.old.items }
    requires scratch { R.fits walk.now.rows.now scratch.old }
    requires key { R.is_key walk.now.rows.now key.now }
    requires row { (row : ℕ) × (slice_get keys.old.keys row ≡ Some key.now)
        × (vec_len next.old ≡ row * length walk.now.bytes.now) }
    ensures explored { OnOk result (RowsExplored (R.is_key walk.now.rows.now) (R.leads walk.now.rows.now)
        walk.now.bytes.now keys.new.keys next.new.items) }
    ensures scratch { R.fits walk.now.rows.now scratch.new }
    ensures len { OnOk result (vec_len next.new ≡ vec_len next.old + length walk.now.bytes.now) }
    ensures extends { OnOk result (Extends keys.old.keys keys.new.keys) }
{
    let mut near = 0;
    for byte in walk.bytes {
        let to = walk.rows.next(scratch, key, *byte)?;
        near = number_near(keys, near, to)?;
        next.push(near)?;
    }
    Ok(())
}
