//! What a rule that matches comes to.
ghost use Rattle.std.specs.Prelude.{◌≡◌, false};

use hc_model::Reason;
use hc_plan::Tied;

/// Whether a rule follows in the list.
#[derive(Clone, Copy)]
pub struct Setting {
    pub followed: bool,
}

/// What follows an attempt.
#[derive(Clone, Copy)]
pub enum Next {
    GoesOn,
    Status(u16),
    /// A redirect leads to the slots of the location and the query, which are not escaped with NE, and where `own` is
    /// set to the server's own name before them.
    Redirect {
        status: u16,
        own: bool,
        noescape: bool,
    },
    Outside(Reason),
}

/// Whether a text was put in place of the old one, and a query, and what follows.
#[derive(Clone, Copy)]
pub struct Made {
    pub substituted: bool,
    pub replaced: bool,
    pub next: Next,
}

/// What is found where a rule matched.
#[derive(Drop)]
pub struct Applied {
    pub tied: Tied,
    pub made: Made,
}

impl Made {
    /// Neither a text nor a query was put in place of the old one.
    pub(crate) fn nothing(next: Next) -> Made
        ensures { result ≡ record { substituted = false; replaced = false; next = next } }
    {
        Made {
            substituted: false,
            replaced: false,
            next,
        }
    }
}
