ghost use Rattle.std.specs.Prelude.{◌≡◌};
ghost use Rattle.hc_stated.specs.Stated.{field_name};

/// A field of a `decide` or a `verify` that sets stand in.
#[derive(Clone, Copy, PartialEq, Eq)]
pub enum Field {
    Claim,
    Scope,
    Cells,
}

impl Field {
    /// As it is written.
    pub fn name(self) -> &'static str
        ensures { result.now ≡ field_name self }
    {
        match self {
            Field::Claim => "claim",
            Field::Scope => "scope",
            Field::Cells => "cells",
        }
    }
}
