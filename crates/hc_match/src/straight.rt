//! The straight search: one way after the other, the first way first. What is to be matched later
//! stands in the calls that wait, and groups are set on the way back from a match: so a search that
//! fails takes no memory.
ghost use Rattle.std.specs.Prelude.{◌≡◌, ◌+◌, ◌^◌, ◌<◌, ◌≤◌, [], IfOk, IfSome};
ghost use Rattle.std.specs.Prelude.{if◌then◌else◌, nat_lt};
ghost use Rattle.hc_ways.specs.Ways.{behind};
ghost use Rattle.hc_ways.specs.Kept.{with_group};
ghost use Rattle.hc_match.specs.Runs.{ends};
ghost use Rattle.hc_match.specs.Frames.{IsLead, Says, both_ways, frame_ways, turns_ways};

mod turns;

use crate::captures::Setting;
use crate::frame::{Frame, Trial, Tried, Turns};
use crate::look::{frame_lead, may_begin};
use crate::run::{Run, one_byte, run_of};
use crate::single::{past_front, single_end};
use hc_pattern::Pat;

// Room for so many groups is taken at once.
const ROOM: usize = 8;

/// A straight search.
#[derive(Drop)]
pub struct Straight {
    /// How many steps are left.
    pub steps: u32,
    /// Where the way ends that was found, and what its groups are set to: the newest last.
    pub end: usize,
    pub settings: Vec<Setting>,
}

impl Straight {
    // What is still to be matched, from this place.
    #[cycle(straight)]
    #[inline(always)]
    fn go_on(&mut self, text: &[u8], frame: &Frame<'_>, at: usize) -> Trial
        requires { self.old.settings.items ≡ [] }
        ensures steps { self.new.steps ≤ self.old.steps }
        ensures says { IfOk result (λ tried. Says tried self.new (frame_ways text.now frame.now at)) }
    {
        if self.steps == 0 {
            return Ok(Tried::GaveUp);
        }
        self.steps -= 1;
        match frame {
            Frame::End => {
                self.settings.reserve(ROOM)?;
                self.end = at;
                Ok(Tried::Matched)
            }
            Frame::Then { pat, next } => self.pattern(text, &**pat, &**next, at),
            Frame::Close { group, start, next } => self.close(text, *group, *start, &**next, at),
            Frame::Moved { start, next } => self.moved(text, *start, &**next, at),
            Frame::Turns { body, turns, next } => self.turns(text, &**body, *turns, &**next, at),
        }
    }

    // Nothing is behind a turn that took no byte.
    #[cycle(straight)]
    #[inline(never)]
    fn moved(&mut self, text: &[u8], start: usize, next: &Frame<'_>, at: usize) -> Trial
        requires { self.old.settings.items ≡ [] }
        ensures steps { self.new.steps ≤ self.old.steps }
        ensures says { IfOk result (λ tried. Says tried self.new
            (λ held. if nat_lt start at then frame_ways text.now next.now at held else [])) }
    {
        if start < at {
            self.go_on(text, &*next, at)
        } else {
            Ok(Tried::Failed)
        }
    }

    // The end of a group. It is set once a way has been found.
    #[cycle(straight)]
    #[inline(never)]
    fn close(&mut self, text: &[u8], group: u8, start: usize, next: &Frame<'_>, at: usize) -> Trial
        requires { self.old.settings.items ≡ [] }
        ensures steps { self.new.steps ≤ self.old.steps }
        ensures says { IfOk result (λ tried. Says tried self.new
            (λ held. frame_ways text.now next.now at (with_group group (record { start = start; end = at }) held))) }
    {
        let tried = self.go_on(text, &*next, at)?;
        let Tried::Matched = tried else {
            return Ok(tried);
        };
        // What is set already was so later on the way, and stays before it.
        self.settings.push(Setting::to(group, start, at)?)?;
        Ok(Tried::Matched)
    }

    /// A pattern, and what is behind it.
    #[cycle(straight)]
    #[inline(always)]
    pub fn pattern(&mut self, text: &[u8], pat: &Pat, next: &Frame<'_>, at: usize) -> Trial
        requires { self.old.settings.items ≡ [] }
        ensures steps { self.new.steps ≤ self.old.steps }
        ensures says { IfOk result (λ tried. Says tried self.new (both_ways text.now pat.now next.now at)) }
    {
        let Some(rest) = past_front(text, &*pat, at) else {
            return Ok(Tried::Failed);
        };
        self.node(text, rest.pat, &*next, rest.at)
    }

    // A pattern, from its first node on. Apart, so that what fails before costs little.
    #[cycle(straight)]
    #[inline(never)]
    fn node(&mut self, text: &[u8], pat: &Pat, next: &Frame<'_>, at: usize) -> Trial
        requires { self.old.settings.items ≡ [] }
        ensures steps { self.new.steps ≤ self.old.steps }
        ensures says { IfOk result (λ tried. Says tried self.new (both_ways text.now pat.now next.now at)) }
    {
        if self.steps == 0 {
            return Ok(Tried::GaveUp);
        }
        self.steps -= 1;
        match pat {
            Pat::Cat(first, second) => {
                let then = Frame::Then {
                    pat: &**second,
                    next: &*next,
                };
                self.part(text, &**first, &then, at)
            }
            _ => self.part(text, &*pat, &*next, at),
        }
    }

    // The same. In the code of `node`, so that few calls wait in each other.
    #[cycle(straight)]
    #[inline(always)]
    fn part(&mut self, text: &[u8], pat: &Pat, next: &Frame<'_>, at: usize) -> Trial
        requires { self.old.settings.items ≡ [] }
        ensures steps { self.new.steps ≤ self.old.steps }
        ensures says { IfOk result (λ tried. Says tried self.new (both_ways text.now pat.now next.now at)) }
    {
        match pat {
            Pat::Cat(_, _) => self.node(text, &*pat, &*next, at),
            Pat::Alt(first, second) => match self.pattern(text, &**first, &*next, at)? {
                Tried::Failed => self.pattern(text, &**second, &*next, at),
                tried => Ok(tried),
            },
            Pat::Group(group, body) => {
                let close = Frame::Close {
                    group: *group,
                    start: at,
                    next: &*next,
                };
                self.body(text, &**body, &close, at)
            }
            Pat::Repeat(_, _, _, _) => self.body(text, &*pat, &*next, at),
            Pat::Empty | Pat::Byte(_) | Pat::Class(_) | Pat::Start | Pat::Finish => {
                match single_end(text, &*pat, at) {
                    Some(end) => self.go_on(text, &*next, end),
                    None => Ok(Tried::Failed),
                }
            }
        }
    }

    // A repeat, or another pattern.
    #[cycle(straight)]
    #[inline(always)]
    fn body(&mut self, text: &[u8], pat: &Pat, next: &Frame<'_>, at: usize) -> Trial
        requires { self.old.settings.items ≡ [] }
        ensures steps { self.new.steps ≤ self.old.steps }
        ensures says { IfOk result (λ tried. Says tried self.new (both_ways text.now pat.now next.now at)) }
    {
        let Pat::Repeat(body, least, most, greedy) = pat else {
            return self.pattern(text, &*pat, &*next, at);
        };
        let turns = Turns {
            least: *least,
            most: *most,
            greedy: *greedy,
        };
        self.repeat(text, &**body, turns, &*next, at)
    }

    // A repeat, and what is behind it.
    #[cycle(straight)]
    #[inline(always)]
    fn repeat(
        &mut self,
        text: &[u8],
        body: &Pat,
        turns: Turns,
        next: &Frame<'_>,
        at: usize,
    ) -> Trial
        requires { self.old.settings.items ≡ [] }
        ensures steps { self.new.steps ≤ self.old.steps }
        ensures says { IfOk result (λ tried. Says tried self.new
            (behind (turns_ways text.now body.now turns) (frame_ways text.now next.now) at)) }
    {
        let Some(set) = one_byte(&*body) else {
            return self.turns(text, &*body, turns, &*next, at);
        };
        let Some(run) = run_of(text, set, turns, at) else {
            return Ok(Tried::Failed);
        };
        self.ends(text, run, turns.greedy, &*next)
    }

    // What is still to be matched, unless the next byte tells that it has no way.
    #[cycle(straight)]
    #[inline(always)]
    fn look(&mut self, text: &[u8], lead: Option<&Pat>, next: &Frame<'_>, at: usize) -> Trial
        requires unset { self.old.settings.items ≡ [] }
        requires lead { IfSome lead (λ lead. IsLead text.now lead.now next.now) }
        ensures steps { self.new.steps ≤ self.old.steps }
        ensures says { IfOk result (λ tried. Says tried self.new (frame_ways text.now next.now at)) }
    {
        if let Some(lead) = lead {
            if !may_begin(text, lead, at) {
                return Ok(Tried::Failed);
            }
        }
        self.go_on(text, &*next, at)
    }

    // What is behind a run, end by end.
    #[cycle(straight)]
    #[inline(always)]
    fn ends(&mut self, text: &[u8], run: Run, greedy: bool, next: &Frame<'_>) -> Trial
        requires unset { self.old.settings.items ≡ [] }
        requires within { run.first + run.more < 2 ^ 64 }
        ensures steps { self.new.steps ≤ self.old.steps }
        ensures says { IfOk result (λ tried. Says tried self.new
            (ends greedy (frame_ways text.now next.now) run.first run.more)) }
    {
        if run.more == 0 {
            return self.go_on(text, &*next, run.first);
        }
        let lead = frame_lead(&*next);
        let mut left = run;
        'ends: while left.more > 0 {
            match self.look(text, lead, &*next, left.end(greedy))? {
                Tried::Failed => left = left.others(greedy),
                tried => return Ok(tried),
            }
        }
        self.go_on(text, &*next, left.first)
    }
}
