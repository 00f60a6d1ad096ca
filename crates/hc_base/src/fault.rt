ghost use Rattle.std.specs.Prelude.{◌≡◌};
ghost use Rattle.hc_base.specs.Rules.{rule};

use crate::NoMemory;
use std::alloc::AllocFailed;

/// Why a call did not do what it was asked for: memory was refused, or a rule is broken. Each crate
/// gives it a name for what its own calls refuse.
#[derive(Clone, Copy, Debug, PartialEq, Eq, Drop)]
pub enum Fault<R> {
    NoMemory,
    Refused(R),
}

impl<R> From<NoMemory> for Fault<R> {
    ghost use Rattle.std.specs.Prelude.{◌≡◌};
    ghost use Rattle.hc_base.specs.declared.fault.Fault.TheVariants.{NoMemory};

    ghost from_gives = { λ _ fault. fault ≡ NoMemory };

    fn from(_refused: NoMemory) -> Fault<R> {
        Fault::NoMemory
    }
}

impl<T: Drop, R> From<AllocFailed<T>> for Fault<R> {
    ghost use Rattle.std.specs.Prelude.{◌≡◌};
    ghost use Rattle.hc_base.specs.declared.fault.Fault.TheVariants.{NoMemory};

    ghost from_gives = { λ _ fault. fault ≡ NoMemory };

    fn from(_refused: AllocFailed<T>) -> Fault<R> {
        Fault::NoMemory
    }
}

/// A broken rule (its number is in `codes`) and the line at which it is broken, counted from 1.
#[derive(Clone, Copy, Debug, PartialEq, Eq)]
pub struct AtLine {
    pub code: u8,
    pub line: u32,
}

/// A broken rule (its number is in `codes`) and the byte at which it is broken, counted from 0.
#[derive(Clone, Copy, Debug, PartialEq, Eq)]
pub struct AtByte {
    pub code: u8,
    pub at: u32,
}

impl AtByte {
    /// A rule that no byte of a pattern breaks.
    pub const fn rule(code: u8) -> AtByte
        ensures { result ≡ rule code }
    {
        AtByte { code, at: 0 }
    }
}
