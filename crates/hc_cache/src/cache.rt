ghost use Rattle.std.specs.Prelude.{◌≡◌, ◌<◌, ◌≤◌, ◌++◌, ◌∷◌, [], IfOk, None, IsOk, OnErr, OnOk};
ghost use Rattle.std.specs.Prelude.{drop, length, option_map};
ghost use Rattle.indexmap.specs.IndexMap.{IsUnique, get, spare};
ghost use Rattle.hc_cache.specs.Entries.{Entry, stored, value_of, without};
ghost use Rattle.hc_cache.specs.Views.{entry_of, in_order, value_kept};

use crate::is_current;
use hc_base::{List, NoMemory};
use hc_model::Read;
use hc_world::World;
use indexmap::IndexMap;
use std::alloc::Global;
use std::hash::Hash;
use std::marker::Model;

/// A value, what it rests on, and the number of the last edit before it was kept.
#[derive(Drop)]
pub struct Kept<V> {
    pub reads: List<Read>,
    pub at: u64,
    pub value: V,
}

impl<V: Clone> Clone for Kept<V> {
    ghost use Rattle.std.specs.Prelude.{◌≡◌};

    ghost is_clone = { λ kept copy.
        (copy.reads ≡ kept.reads) × (copy.at ≡ kept.at) × V.is_clone kept.value copy.value };

    fn clone(&self) -> Result<Kept<V>, NoMemory> {
        Ok(Kept {
            reads: self.reads.copy()?,
            at: self.at,
            value: self.value.clone()?,
        })
    }
}

/// Values by their keys, each with what it rests on, the oldest first and at most so many. They stand in a ring, so
/// that the newest takes the oldest one's place and no other moves.
#[derive(Drop)]
pub struct Cache<K: Eq + Hash, V> {
    limit: usize,
    ring: IndexMap<K, Kept<V>>,
    oldest: usize,
}

impl<K: Eq + Hash, V> Model for Cache<K, V> {
    ghost use Rattle.hc_cache.specs.Entries.{Cached};

    ghost Value = { Cached K V };

    ghost use Rattle.hc_cache.specs.Views.{in_order};

    ghost view = { λ c. record { limit = c.limit; entries = in_order c.oldest c.ring.entries } };

    ghost use Rattle.indexmap.specs.IndexMap.{IsUnique};

    ghost invariant = { λ c. IsUnique K.eq c.ring };
}

impl<K: Eq + Hash, V> Cache<K, V> {
    /// An empty cache, which takes no memory.
    pub fn new(alloc: Global, limit: usize) -> Cache<K, V>
        requires { 1 ≤ limit }
        ensures { result ≡ record { limit = limit; entries = [] } }
    {
        Cache {
            limit,
            ring: IndexMap::new(alloc),
            oldest: 0,
        }
    }

    /// The value of a key, while nothing that it rests on has changed.
    #[tactic(auto, using(crate::proofs::Entries::value_in_order))]
    pub fn find_valid(&self, key: &K, world: &World) -> Option<&V>
        ensures { option_map (λ value. value.now) result
            ≡ value_of K.eq world.now key.now self.now.entries }
    {
        value_kept(self.ring.get(key)?, world)
    }
}

impl<K: Eq + Hash + Drop, V: Drop> Cache<K, V> {
    /// Keeps a value with what it rests on, as of the edit of this number. The entry of its key
    /// leaves, else the oldest where there is no room, and the new one comes last. Where memory is
    /// refused the value is dropped.
    pub fn store(&mut self, key: K, reads: List<Read>, at: u64, value: V) -> Result<(), NoMemory>
        ensures ok { OnOk result (
            let entry : Entry K V = record { key = key; reads = reads; at = at; value = value } in
            self.new ≡ record {
              limit = self.old.limit;
              entries = stored K.eq self.old.limit entry self.old.entries;
            }) }
        ensures err { OnErr result (self.new ≡ self.old) }
    {
        // What leaves need not give its room back.
        self.ring.reserve(1)?;
        forget(&mut self.ring, &mut self.oldest, &key);
        self.oldest = begin(self.oldest, &self.ring);
        let kept = Kept { reads, at, value };
        if self.ring.len() < self.limit {
            put_last(&mut self.ring, &mut self.oldest, key, kept)
        } else {
            replace_oldest(&mut self.ring, &mut self.oldest, key, kept)
        }
    }

    /// Forgets all entries. The limit stays. It takes no memory.
    pub fn clear(&mut self)
        ensures { self.new ≡ record { limit = self.old.limit; entries = [] } }
    {
        self.ring.clear();
    }
}

impl<K: Eq + Hash + Clone, V: Clone> Cache<K, V> {
    /// A cache with clones of the keys and values, which equals this one where the clones equal them.
    pub fn copy(&self) -> Result<Cache<K, V>, NoMemory>
        requires keys { (x y : K) → K.is_clone x y → y ≡ x }
        requires values { (x y : V) → V.is_clone x y → y ≡ x }
        ensures { IfOk result (λ copy. copy ≡ self.now) }
    {
        Ok(Cache {
            limit: self.limit,
            ring: self.ring.clone()?,
            oldest: self.oldest,
        })
    }
}

/// The value, while nothing that it rests on has changed.
pub fn value_kept<'c, V>(kept: &'c Kept<V>, world: &World) -> Option<&'c V>
    ensures { option_map (λ value. value.now) result ≡ value_kept world.now kept.now }
{
    if is_current(world, kept.reads.as_slice(), kept.at) {
        Some(&kept.value)
    } else {
        None
    }
}

// The entry of a key leaves.
#[tactic(auto, using(crate::proofs::Entries::removed_before, crate::proofs::Entries::absent_in_order))]
fn forget<K: Eq + Hash + Drop, V: Drop>(
    ring: &mut IndexMap<K, Kept<V>>,
    oldest: &mut usize,
    key: &K,
)
    requires { IsUnique K.eq ring.old }
    ensures entries { in_order oldest.new ring.new.entries
        ≡ without K.eq key.now (in_order oldest.old ring.old.entries) }
    ensures absent { get K.eq ring.new key.now ≡ None }
    ensures room { spare ring.old ≤ spare ring.new }
{
    if let Some((place, _, _)) = ring.shift_remove_full(key) {
        if place < *oldest {
            *oldest -= 1;
        }
    }
}

// Where the first one in their order stands, if there is one.
#[tactic(auto, using(crate::proofs::Entries::begun))]
fn begin<K: Eq + Hash, V>(oldest: usize, ring: &IndexMap<K, Kept<V>>) -> usize
    ensures entries { in_order result ring.now.entries ≡ in_order oldest ring.now.entries }
    ensures most { result ≤ length ring.now.entries }
    ensures place { 0 < length ring.now.entries → result < length ring.now.entries }
{
    if oldest < ring.len() { oldest } else { 0 }
}

// A new key comes last.
#[tactic(auto, using(crate::proofs::Entries::last_put, crate::proofs::Entries::last_moved))]
fn put_last<K: Eq + Hash + Drop, V: Drop>(
    ring: &mut IndexMap<K, Kept<V>>,
    oldest: &mut usize,
    key: K,
    kept: Kept<V>,
) -> Result<(), NoMemory>
    requires place { oldest.old ≤ length ring.old.entries }
    requires absent { get K.eq ring.old key ≡ None }
    requires room { 0 < spare ring.old }
    ensures ok { IsOk result }
    ensures entries { in_order oldest.new ring.new.entries
        ≡ in_order oldest.old ring.old.entries ++ entry_of (key, kept) ∷ [] }
    ensures unique { IsUnique K.eq ring.new }
{
    let last = ring.len();
    ring.insert(key, kept)?;
    if *oldest > 0 {
        ring.move_index(last, *oldest);
        *oldest += 1;
    }
    Ok(())
}

// A new key takes the place of the oldest and comes last.
#[tactic(auto, using(crate::proofs::Entries::oldest_replaced))]
fn replace_oldest<K: Eq + Hash + Drop, V: Drop>(
    ring: &mut IndexMap<K, Kept<V>>,
    oldest: &mut usize,
    key: K,
    kept: Kept<V>,
) -> Result<(), NoMemory>
    requires place { 0 < length ring.old.entries → oldest.old < length ring.old.entries }
    requires absent { get K.eq ring.old key ≡ None }
    requires room { 0 < spare ring.old }
    ensures ok { IsOk result }
    ensures entries { in_order oldest.new ring.new.entries
        ≡ drop 1 (in_order oldest.old ring.old.entries) ++ entry_of (key, kept) ∷ [] }
    ensures unique { IsUnique K.eq ring.new }
{
    let last = ring.len();
    ring.insert(key, kept)?;
    if last > 0 {
        ring.swap_remove_index(*oldest);
        *oldest += 1;
    }
    Ok(())
}
