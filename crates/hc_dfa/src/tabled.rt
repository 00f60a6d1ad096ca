ghost use Rattle.std.specs.Prelude.{◌≡◌, ℕ, ◌+◌, ◌*◌, ◌<◌, Bool, IfOk, OnOk, length};
ghost use Rattle.hc_dfa.specs.Tabled.{AreFilled, IsTabled, TellsAll};

use crate::Dfa;
use crate::classes::Classes;
use hc_base::NoMemory;
use std::alloc::Global;

/// Where bytes lead from states that are numbered from the start on.
pub trait Transitions {
    ghost is_sound: { Self → Type 0 };

    ghost count: { Self → ℕ };

    ghost step: { Self → ℕ → ℕ → ℕ };

    ghost mark: { Self → ℕ → Bool };

    fn next(&self, state: u32, byte: u8) -> u32
        requires sound { is_sound self.now }
        requires state { state < count self.now }
        ensures value { result ≡ step self.now state byte }
        ensures within { result < count self.now };

    fn is_final(&self, state: u32) -> bool
        requires sound { is_sound self.now }
        requires state { state < count self.now }
        ensures { result ≡ mark self.now state };
}

/// The automaton with these transitions, by classes of bytes that they don't tell apart.
pub fn tabled<T: Transitions>(
    alloc: Global,
    transitions: &T,
    classes: Classes,
    count: u32,
) -> Result<Dfa, NoMemory>
    requires sound { T.is_sound transitions.now }
    requires count { count ≡ T.count transitions.now }
    requires some { 0 < count }
    requires tells { TellsAll classes count (T.step transitions.now) }
    ensures { IfOk result (IsTabled count (T.step transitions.now) (T.mark transitions.now)) }
{
    let mut rows = Vec::new(alloc);
    let mut finals = Vec::new(alloc);
    let bytes = classes.firsts();
    for state in 0..count {
        add_row(transitions, bytes, &mut rows, state)?;
        finals.push(transitions.is_final(state))?;
    }
    Ok(Dfa::made(classes, rows, finals))
}

/// Adds the row of a state, with an entry for each of these bytes.
fn add_row<T: Transitions>(
    transitions: &T,
    bytes: &[u8],
    rows: &mut Vec<u32>,
    state: u32,
) -> Result<(), NoMemory>
    requires sound { T.is_sound transitions.now }
    requires state { state < T.count transitions.now }
    requires rows { AreFilled (T.count transitions.now) (T.step transitions.now) bytes.now rows.old.items
        (state * length bytes.now) }
    ensures { OnOk result (AreFilled (T.count transitions.now) (T.step transitions.now) bytes.now rows.new.items
        ((state + 1) * length bytes.now)) }
{
    for byte in bytes {
        rows.push(transitions.next(state, *byte))?;
    }
    Ok(())
}
