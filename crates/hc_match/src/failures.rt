ghost use Rattle.std.specs.Prelude.{◌≡◌, ℕ, ◌+◌, ◌*◌, ◌<◌, ◌⊎◌, ◌==◌, false, IfOk};
ghost use Rattle.std.specs.Prelude.{IfSome, IfNone, IsTrue};
ghost use Rattle.hc_match.specs.Failures.{has_failed, has_number};

use hc_base::NoMemory;
use std::alloc::Global;

/// The pairs of a step's place and a place in the text that fail, a bit each.
#[derive(Drop)]
pub struct Failures {
    // How many places the text has.
    width: usize,
    words: Vec<u64>,
}

impl Failures {
    /// No pair of so many steps and so many places of a text.
    pub fn none(alloc: Global, steps: usize, width: usize) -> Result<Failures, NoMemory>
        ensures { IfOk result (λ failures. (step at : ℕ) → has_failed failures step at ≡ false) }
    {
        let Some(pairs) = steps.checked_mul(width) else {
            return Err(NoMemory);
        };
        Ok(Failures {
            width,
            words: vec![in alloc; 0u64; pairs / 64 + 1]?,
        })
    }

    /// The pair is known to fail.
    pub fn has(&self, step: u32, at: usize) -> bool
        ensures { IsTrue result → IsTrue (has_failed self.now step at) }
    {
        match self.number(step, at) {
            Some(number) => self.has_bit(number),
            None => false,
        }
    }

    /// Adds a pair that fails.
    pub fn add(&mut self, step: u32, at: usize)
        ensures { (other there : ℕ) → IsTrue (has_failed self.new other there)
            → IsTrue (has_failed self.old other there) ⊎ ((other ≡ step) × (there ≡ at)) }
    {
        if let Some(number) = self.number(step, at) {
            self.set_bit(number);
        }
    }

    // The number of a pair, if it is one.
    fn number(&self, step: u32, at: usize) -> Option<usize>
        ensures number { IfSome result (λ number. number ≡ step * self.now.width + at) }
        ensures within { IfSome result (λ number. at < self.now.width) }
    {
        if at >= self.width {
            return None;
        }
        let before = (step as usize).checked_mul(self.width)?;
        before.checked_add(at)
    }

    fn has_bit(&self, number: usize) -> bool
        ensures { IsTrue result → IsTrue (has_number self.now.words.items number) }
    {
        match self.words.get(number / 64) {
            Some(word) => *word >> (number % 64) & 1 == 1,
            None => false,
        }
    }

    fn set_bit(&mut self, number: usize)
        ensures bits { (other : ℕ) → IsTrue (has_number self.new.words.items other)
            → IsTrue (has_number self.old.words.items other) ⊎ (other ≡ number) }
        ensures width { self.new.width ≡ self.old.width }
    {
        if number / 64 < self.words.len() {
            self.words[number / 64] |= 1u64 << (number % 64);
        }
    }
}
