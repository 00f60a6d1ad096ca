//! What is still to be matched, and what comes of trying it.
ghost use Rattle.std.specs.Prelude.{◌≡◌};
ghost use Rattle.hc_match.specs.Frames.{behind_one, less_than};

use hc_base::NoMemory;
use hc_pattern::Pat;

/// How many turns of a repeat there are: more of them first where it is greedy.
#[derive(Clone, Copy)]
pub struct Turns {
    pub least: u16,
    pub most: Option<u16>,
    pub greedy: bool,
}

/// What is still to be matched behind a pattern, as the calls that wait have it.
#[derive(Clone, Copy)]
pub enum Frame<'f> {
    /// Nothing.
    End,
    Then {
        pat: &'f Pat,
        next: &'f Frame<'f>,
    },
    /// The group ends here.
    Close {
        group: u8,
        start: usize,
        next: &'f Frame<'f>,
    },
    /// Here is behind `start`.
    Moved {
        start: usize,
        next: &'f Frame<'f>,
    },
    /// Turns of a repeat.
    Turns {
        body: &'f Pat,
        turns: Turns,
        next: &'f Frame<'f>,
    },
}

/// What came of trying ways.
#[derive(Clone, Copy)]
pub enum Tried {
    /// The first way was found.
    Matched,
    /// There is no way.
    Failed,
    /// The steps were used up.
    GaveUp,
}

/// What comes of trying ways, where memory is not refused.
pub type Trial = Result<Tried, NoMemory>;

/// One more turn of a repeat, and what is behind it.
#[derive(Clone, Copy)]
pub struct Turn<'f> {
    pub body: &'f Pat,
    pub rest: &'f Frame<'f>,
}

impl Turns {
    /// More turns have to be than may be.
    pub fn are_none(self) -> bool
        ensures { result ≡ less_than self.most self.least }
    {
        match self.most {
            Some(most) => most < self.least,
            None => false,
        }
    }

    /// The turns behind one.
    pub fn behind_one(self) -> Turns
        ensures { result ≡ behind_one self }
    {
        Turns {
            least: self.least.saturating_sub(1),
            most: self.most.map(|most| most.saturating_sub(1)),
            greedy: self.greedy,
        }
    }
}
