ghost use Rattle.std.specs.Prelude.{◌≡◌, true, IfOk};
ghost use Rattle.hc_dfa.specs.Explored.{IsMet};

use hc_base::NoMemory;
use indexmap::IndexSet;
use std::hash::Hash;

/// The number of a key: its place among the keys, in the order in which they were first met.
pub fn number_of<K: Eq + Hash + Drop>(keys: &mut IndexSet<K>, key: K) -> Result<u32, NoMemory>
    requires { (x y : K) → K.eq x y ≡ true → x ≡ y }
    ensures { IfOk result (λ number. IsMet keys.old.keys key keys.new.keys number) }
{
    let (index, _) = keys.insert_full(key)?;
    match u32::try_from(index) {
        Ok(number) => Ok(number),
        Err(_) => Err(NoMemory),
    }
}

/// The same, where the key with a number that is near is looked at first: one byte after the other mostly leads to the
/// same key.
pub fn number_near<K: Eq + Hash + Drop>(
    keys: &mut IndexSet<K>,
    near: u32,
    key: K,
) -> Result<u32, NoMemory>
    requires { (x y : K) → K.eq x y ≡ true → x ≡ y }
    ensures { IfOk result (λ number. IsMet keys.old.keys key keys.new.keys number) }
{
    if keys.as_slice().get(near as usize) == Some(&key) {
        return Ok(near);
    }
    number_of(keys, key)
}
