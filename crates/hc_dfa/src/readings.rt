ghost use Rattle.std.specs.Prelude.{◌≡◌, ℕ, Bool, true, IfOk};
ghost use Rattle.hc_dfa.specs.Built.{Accepts};
ghost use Rattle.hc_dfa.specs.Readings.{reading_from};

use crate::Dfa;
use crate::classes::Classes;
use crate::coarse::coarsened;
use crate::reduced::reduce;
use crate::rows::{Rows, table_of};
use hc_base::NoMemory;
use std::alloc::Global;
use std::hash::Hash;

/// A test that reads a text byte by byte: the key to which its bytes lead tells whether it holds.
pub trait Reading {
    type Key: Copy + Eq + Hash + Drop;

    ghost is_key: { Self → Self.Key → Type 0 };

    ghost reads: { Self → Self.Key → ℕ → Self.Key };

    ghost holds: { Self → Self.Key → Bool };

    /// The key that a byte leads to.
    fn next(&self, key: Self::Key, byte: u8) -> Self::Key
        requires { is_key self.now key }
        ensures value { result ≡ reads self.now key byte }
        ensures key { is_key self.now result };

    /// Whether the test holds of what was read.
    fn holds(&self, key: Self::Key) -> bool
        requires { is_key self.now key }
        ensures { result ≡ holds self.now key };

    ghost same: { (x y : Self.Key) → Self.Key.eq x y ≡ true → x ≡ y };
}

/// The automaton of the texts of which the test holds, read from a key on; reduced.
pub fn tested<R: Reading>(alloc: Global, reading: &R, first: R::Key) -> Result<Dfa, NoMemory>
    requires { R.is_key reading.now first }
    ensures { IfOk result (λ made.
        Accepts made (reading_from (R.reads reading.now) (R.holds reading.now) first)) }
{
    let classes = Classes::of_single_bytes(alloc)?;
    let table = table_of(alloc, &Keys { reading, first }, (), classes.firsts(), first)?;
    let smaller = coarsened(alloc, &Dfa::made(classes, table.next, table.finals))?;
    let reduced = reduce(alloc, &smaller)?;
    Ok(reduced)
}

/// The keys of a test that reads from a first one on.
#[derive(Drop)]
struct Keys<'a, R: Reading> {
    reading: &'a R,
    first: R::Key,
}

impl<'a, R: Reading> Rows for Keys<'a, R> {
    type Key = R::Key;

    type Scratch = ();

    ghost begins = { λ keys key. key ≡ keys.first };

    ghost is_key = { λ keys. R.is_key keys.reading.now };

    ghost leads = { λ keys key byte to. to ≡ R.reads keys.reading.now key byte };

    ghost marks = { λ keys key answer. answer ≡ R.holds keys.reading.now key };

    ghost fits = { λ keys scratch. Unit {0} };

    fn next(&self, _: &mut (), key: &R::Key, byte: u8) -> Result<R::Key, NoMemory> {
        Ok(self.reading.next(*key, byte))
    }

    fn is_final(&self, _: &(), key: &R::Key) -> bool {
        self.reading.holds(*key)
    }

    fn copy(&self, key: &R::Key) -> Result<R::Key, NoMemory> {
        Ok(*key)
    }

    ghost same = { R.same };
}
