//! Turns of a repeat, one by one.
ghost use Rattle.std.specs.Prelude.{◌≡◌, ◌≤◌, [], IfOk};
ghost use Rattle.hc_ways.specs.Ways.{behind};
ghost use Rattle.hc_match.specs.Frames.{Says, frame_ways, preferring, turn_ways, turns_ways};

use crate::frame::{Frame, Trial, Tried, Turn, Turns};
use crate::straight::Straight;
use hc_pattern::Pat;

impl Straight {
    // Turns of a repeat, and what is behind them.
    #[cycle(straight)]
    #[inline(never)]
    pub fn turns(&mut self, text: &[u8], body: &Pat, turns: Turns, next: &Frame, at: usize) -> Trial
        requires { self.old.settings.items ≡ [] }
        ensures steps { self.new.steps ≤ self.old.steps }
        ensures says { IfOk result (λ tried. Says tried self.new
            (behind (turns_ways text.now body.now turns) (frame_ways text.now next.now) at)) }
    {
        if turns.are_none() {
            return Ok(Tried::Failed);
        }
        if turns.most == Some(0) {
            return self.go_on(text, &*next, at);
        }
        let rest = Frame::Turns {
            body: &*body,
            turns: turns.behind_one(),
            next: &*next,
        };
        if turns.least > 0 {
            return self.pattern(text, &*body, &rest, at);
        }
        if turns.most.is_some() {
            let turn = Turn {
                body: &*body,
                rest: &rest,
            };
            return self.prefer(text, turn, &*next, turns.greedy, at);
        }
        let moved = Frame::Moved {
            start: at,
            next: &rest,
        };
        let turn = Turn {
            body: &*body,
            rest: &moved,
        };
        self.prefer(text, turn, &*next, turns.greedy, at)
    }

    // One more turn with what is behind it, or none: the turn first where the repeat is greedy.
    #[cycle(straight)]
    fn prefer(
        &mut self,
        text: &[u8],
        turn: Turn<'_>,
        next: &Frame<'_>,
        greedy: bool,
        at: usize,
    ) -> Trial
        requires { self.old.settings.items ≡ [] }
        ensures steps { self.new.steps ≤ self.old.steps }
        ensures says { IfOk result (λ tried. Says tried self.new
            (preferring greedy (turn_ways text.now turn.entry) (frame_ways text.now next.now) at)) }
    {
        if greedy {
            match self.pattern(text, &*turn.body, &*turn.rest, at)? {
                Tried::Failed => self.go_on(text, &*next, at),
                tried => Ok(tried),
            }
        } else {
            match self.go_on(text, &*next, at)? {
                Tried::Failed => self.pattern(text, &*turn.body, &*turn.rest, at),
                tried => Ok(tried),
            }
        }
    }
}
