ghost use Rattle.std.specs.Prelude.{◌≡◌, ℕ, ◌<◌, ◌≤◌, ◌^◌, IfOk, map, not};
ghost use Rattle.std.specs.Prelude.{length, slice_index, vec_len};
ghost use Rattle.hc_dfa.specs.Automata.{states, next_state, is_final, accepts, run, IsTable};
ghost use Rattle.hc_dfa.specs.Built.{Accepts, complement_of};
ghost use Rattle.hc_dfa.specs.Classings.{AreClasses, IsRows, Tells, automaton_of};

use crate::classes::Classes;
use crate::coarse::coarsened;
use hc_base::NoMemory;
use std::alloc::Global;
use std::marker::Model;

/// How many bytes there are.
pub const BYTES: usize = 256;

/// A deterministic automaton over bytes: a set of texts. It keeps a next state for each state and
/// class of bytes.
#[derive(Drop)]
pub struct Dfa {
    classes: Classes,
    rows: Vec<u32>,
    finals: Vec<bool>,
}

impl Model for Dfa {
    ghost use Rattle.hc_dfa.specs.Automata.{Automaton};
    ghost use Rattle.hc_dfa.specs.Classings.{IsRows, automaton_of};

    ghost Value = { Automaton };

    ghost view = { λ d. automaton_of d.classes d.rows.items d.finals.items };

    ghost invariant = { λ d. IsRows d.classes d.rows.items d.finals.items };
}

impl Dfa {
    /// The automaton of a table by classes: a next state for each state and class.
    pub(crate) fn made(classes: Classes, rows: Vec<u32>, finals: Vec<bool>) -> Dfa
        requires { IsRows classes rows.items finals.items }
        ensures { result ≡ automaton_of classes rows.items finals.items }
    {
        Dfa {
            classes,
            rows,
            finals,
        }
    }

    /// The automaton of a table of 256 next states for each state.
    #[tactic(auto, using(crate::proofs::Tables::single_table, crate::proofs::Tables::single_rows))]
    pub(crate) fn of_bytes(
        alloc: Global,
        next: Vec<u32>,
        finals: Vec<bool>,
    ) -> Result<Dfa, NoMemory>
        requires { IsTable next.items finals.items }
        ensures { IfOk result (λ a. a ≡ record { next = next.items; finals = finals.items }) }
    {
        let classes = Classes::of_single_bytes(alloc)?;
        Ok(Dfa {
            classes,
            rows: next,
            finals,
        })
    }

    /// The automaton of a table: 256 next states for each state, in the order of the bytes, and
    /// whether each state is final. State 0 is the start.
    pub fn from_table(alloc: Global, next: &[u32], finals: &[bool]) -> Result<Dfa, NoMemory>
        requires { IsTable next.now finals.now }
        ensures { IfOk result (λ a. a ≡ record { next = next.now; finals = finals.now }) }
    {
        let whole = Dfa::of_bytes(alloc, next.to_vec(alloc)?, finals.to_vec(alloc)?)?;
        let smaller = coarsened(alloc, &whole)?;
        Ok(smaller)
    }

    /// Classes of bytes that lead from each state to the same state.
    #[tactic(auto, using(crate::proofs::Tables::expanded_tells))]
    pub(crate) fn classes(&self) -> &Classes
        ensures tells { Tells result.now self.now }
        ensures classes { AreClasses result.now }
    {
        &self.classes
    }

    /// The same automaton, with each step led on by a table from each state to a state.
    #[tactic(auto, using(crate::proofs::Tables::led_rows, crate::proofs::Tables::led_at))]
    pub(crate) fn redirected(&self, alloc: Global, table: &[u32]) -> Result<Dfa, NoMemory>
        requires len { length table.now ≡ states self.now }
        requires within { (s : ℕ) → s < states self.now → slice_index table.now s < states self.now }
        ensures finals { IfOk result (λ made. made.finals ≡ self.now.finals) }
        ensures steps { IfOk result (λ made. (s byte : ℕ) → s < states self.now → byte < 256 →
            next_state made s byte ≡ slice_index table.now (next_state self.now s byte)) }
    {
        let rows = led(alloc, &self.rows, table)?;
        Ok(Dfa {
            classes: self.classes.clone()?,
            rows,
            finals: self.finals.to_vec(alloc)?,
        })
    }

    /// The state in which each run begins.
    #[tactic(auto, using(crate::proofs::Tables::expanded_table))]
    pub fn start(&self) -> u32
        ensures value { result ≡ 0 }
        ensures table { IsTable self.now.next self.now.finals }
    {
        let _ = &self.rows;
        0
    }

    /// How many states there are: at least one.
    #[tactic(auto, using(crate::proofs::Tables::expanded_table))]
    pub fn states(&self) -> u32
        ensures value { result ≡ states self.now }
        ensures table { IsTable self.now.next self.now.finals }
    {
        self.finals.len() as u32
    }

    /// The state that a byte leads to.
    #[tactic(auto, using(crate::proofs::Tables::expanded_at))]
    pub fn next_state(&self, state: u32, byte: u8) -> u32
        requires { state < states self.now }
        ensures value { result ≡ next_state self.now state byte }
        ensures within { result < states self.now }
    {
        self.rows[state as usize * self.classes.count() + self.classes.class_of(byte) as usize]
    }

    pub fn is_final(&self, state: u32) -> bool
        requires { state < states self.now }
        ensures { result ≡ is_final self.now state }
    {
        self.finals[state as usize]
    }

    /// The state in which a text that is read from a state ends.
    pub(crate) fn run(&self, state: u32, text: &[u8]) -> u32
        requires { state < states self.now }
        ensures value { result ≡ run self.now state text.now }
        ensures within { result < states self.now }
    {
        let mut end = state;
        for byte in text {
            end = self.next_state(end, *byte);
        }
        end
    }

    /// Whether the text is in the set.
    #[tactic(auto, unfolding(crate::specs::Automata::accepts))]
    pub fn accepts(&self, text: &[u8]) -> bool
        ensures { result ≡ accepts self.now text.now }
    {
        self.is_final(self.run(self.start(), text))
    }
}

impl Clone for Dfa {
    ghost is_clone = { λ a copy. copy ≡ a };

    fn clone(&self) -> Result<Dfa, NoMemory> {
        Ok(Dfa {
            classes: self.classes.clone()?,
            rows: self.rows.clone()?,
            finals: self.finals.clone()?,
        })
    }
}

/// The automaton of the texts that this one does not accept.
#[tactic(auto, using(crate::proofs::Tables::opposite_rows, crate::proofs::Tables::opposite_accepts))]
pub fn complement(alloc: Global, a: &Dfa) -> Result<Dfa, NoMemory>
    ensures { IfOk result (λ made. Accepts made (complement_of a.now)) }
{
    let finals = opposites(alloc, &a.finals)?;
    Ok(Dfa {
        classes: a.classes.clone()?,
        rows: a.rows.to_vec(alloc)?,
        finals,
    })
}

/// Where a table leads each of these states.
pub fn led(alloc: Global, states: &[u32], table: &[u32]) -> Result<Vec<u32>, NoMemory>
    requires { (k : ℕ) → k < length states.now → slice_index states.now k < length table.now }
    ensures len { IfOk result (λ led. vec_len led ≡ length states.now) }
    ensures each { IfOk result (λ led. (k : ℕ) → k < length states.now
        → slice_index led.items k ≡ slice_index table.now (slice_index states.now k)) }
{
    let mut led = Vec::new(alloc);
    for state in states {
        led.push(table[*state as usize])?;
    }
    Ok(led)
}

fn opposites(alloc: Global, answers: &[bool]) -> Result<Vec<bool>, NoMemory>
    ensures { IfOk result (λ made. made.items ≡ map not answers.now) }
{
    answers.iter().map(|answer| !*answer).collect(alloc)
}
