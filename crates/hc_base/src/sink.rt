ghost use Rattle.std.specs.Prelude.{ℕ, ◌<◌, List, Option, IfOk, length};
ghost use Rattle.std.specs.Io.{WritesAtMost};
ghost use Rattle.std.specs.Io.KnownBytes.{WriteAppends};
ghost use Rattle.hc_base.specs.Faults.{HasCause};

use crate::Failed;

/// Where bytes go.
pub trait Sink {
    /// The bytes written so far, where the sink tells them.
    ghost written: { Self → Option (List ℕ) };

    /// How often the sink has failed, up to the last value of a `u64`.
    ghost faults: { Self → ℕ };

    /// Adds the front of the piece and answers how many bytes of it, at least one where there is
    /// one. A failed call adds nothing.
    fn write(&mut self, piece: &[u8]) -> Result<usize, Failed>
        ensures bound { WritesAtMost result piece.now }
        ensures some { IfOk result (λ n. 0 < length piece.now → 0 < n) }
        ensures bytes { WriteAppends (written self.old) (written self.new) result piece.now }
        ensures cause { HasCause (faults self.old) (faults self.new) result };
}
