ghost use Rattle.std.specs.Prelude.{ℕ, ◌+◌, ◌^◌, ◌<◌, ◌≤◌, List, length, OnOk};

use hc_base::NoMemory;
use indexmap::IndexSet;
use std::hash::Hash;

/// More states than this at once are refused as memory is.
pub const MOST_STATES: u32 = 1 << 22;

/// What is done with each key of a set that grows meanwhile.
pub trait Walk {
    type Key: Eq + Hash + Drop;
    /// What is gathered on the way.
    type Gathered: Drop;

    /// What is gathered is what so many of the keys give.
    ghost has_followed: { Self → Self.Gathered → List Self.Key → ℕ → Type 0 };

    /// Follows the key with this number, and adds the keys that it leads to.
    fn follow(
        &self,
        gathered: &mut Self::Gathered,
        keys: &mut IndexSet<Self::Key>,
        number: u32,
    ) -> Result<(), NoMemory>
        requires before { has_followed self.now gathered.old keys.old.keys number }
        requires number { number < length keys.old.keys }
        ensures { OnOk result (has_followed self.now gathered.new keys.new.keys (number + 1)) };
}

/// Follows each key that there is or that is met, in the order in which they are met.
pub fn explore<W: Walk>(
    walk: &W,
    gathered: &mut W::Gathered,
    keys: &mut IndexSet<W::Key>,
) -> Result<(), NoMemory>
    requires { W.has_followed walk.now gathered.old keys.old.keys 0 }
    ensures { OnOk result ((count : ℕ) × (length keys.new.keys ≤ count) × (count < 2 ^ 32)
        × W.has_followed walk.now gathered.new keys.new.keys count) }
{
    for number in 0..=MOST_STATES {
        if number as usize >= keys.len() {
            return Ok(());
        }
        if keys.len() > MOST_STATES as usize {
            return Err(NoMemory);
        }
        walk.follow(gathered, keys, number)?;
    }
    Err(NoMemory)
}
