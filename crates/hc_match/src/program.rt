ghost use Rattle.std.specs.Prelude.{◌≡◌, ℕ, ◌++◌, ◌∷◌, ◌<◌, ◌≤◌, List, [], length};
ghost use Rattle.std.specs.Prelude.{slice_get, IfOk, IsTrue, None};
ghost use Rattle.hc_pattern.specs.Pattern.{pattern_of};
ghost use Rattle.hc_ways.specs.Ways.{repeated, stop, turns_then, turns_up_to};
ghost use Rattle.hc_match.specs.Program.{Compiles, HasMeaning, kept_ways, turn_step};

use hc_base::NoMemory;
use hc_pattern::{ByteSet, Pat};
use hc_ways::takes_a_byte;
use std::alloc::Global;

/// A step of a program, by the places of the steps that come behind it.
#[derive(Clone, Copy)]
pub enum Step {
    /// The way ends.
    Done,
    Byte { byte: u8, next: u32 },
    Class { set: ByteSet, next: u32 },
    Start { next: u32 },
    Finish { next: u32 },
    /// A group begins.
    Open { next: u32 },
    /// The innermost group that is open ends.
    Close { group: u8, next: u32 },
    /// The ways of the first step, and then those of the second.
    Either { first: u32, second: u32 },
}

/// A pattern in steps. A place is the number of steps before it.
#[derive(Drop)]
pub struct Program {
    steps: Vec<Step>,
}

impl Program {
    /// The program of a pattern, and the place that it begins at. Where a repeat without upper
    /// number has a body that can be empty, the answer is that memory is refused.
    pub fn of(alloc: Global, pat: &Pat) -> Result<(Program, u32), NoMemory>
        ensures { IfOk result (λ made. (text : List ℕ)
            → HasMeaning text made.0.steps.items made.1 (kept_ways text (pattern_of pat.now))) }
    {
        let mut program = Program {
            steps: Vec::new(alloc),
        };
        let done = program.emit(Step::Done)?;
        let start = program.compile(pat, done)?;
        Ok((program, start))
    }

    /// The steps, by their places.
    pub fn steps(&self) -> &[Step]
        ensures { result.now ≡ self.now.steps.items }
    {
        &self.steps
    }

    // Adds a step, and gives its place.
    fn emit(&mut self, step: Step) -> Result<u32, NoMemory>
        ensures { IfOk result (λ place. (place ≡ length self.old.steps.items)
            × (self.new.steps.items ≡ self.old.steps.items ++ step ∷ [])) }
    {
        let Ok(place) = u32::try_from(self.steps.len()) else {
            return Err(NoMemory);
        };
        self.steps.push(step)?;
        Ok(place)
    }

    // The steps of the pattern, before the step `next`.
    #[cycle(compile)]
    fn compile(&mut self, pat: &Pat, next: u32) -> Result<u32, NoMemory>
        requires { next < length self.old.steps.items }
        ensures within { IfOk result (λ place. place < length self.new.steps.items) }
        ensures longer { IfOk result (λ place. length self.old.steps.items ≤ length self.new.steps.items) }
        ensures ways { IfOk result (λ place. (text : List ℕ)
            → Compiles text self.old.steps.items self.new.steps.items
            (kept_ways text (pattern_of pat.now)) next place) }
    {
        match pat {
            Pat::Empty => Ok(next),
            Pat::Byte(byte) => self.emit(Step::Byte { byte: *byte, next }),
            Pat::Class(set) => self.emit(Step::Class { set: *set, next }),
            Pat::Start => self.emit(Step::Start { next }),
            Pat::Finish => self.emit(Step::Finish { next }),
            Pat::Cat(first, second) => {
                let behind = self.compile(second, next)?;
                self.compile(first, behind)
            }
            Pat::Alt(first, second) => {
                let second = self.compile(second, next)?;
                let first = self.compile(first, next)?;
                self.emit(Step::Either { first, second })
            }
            Pat::Group(group, body) => {
                let close = self.emit(Step::Close {
                    group: *group,
                    next,
                })?;
                let body = self.compile(body, close)?;
                self.emit(Step::Open { next: body })
            }
            Pat::Repeat(body, least, most, greedy) => {
                self.repeat(body, *least, *most, *greedy, next)
            }
        }
    }

    // Turns, by their numbers.
    #[cycle(compile)]
    fn repeat(
        &mut self,
        body: &Box<Pat>,
        least: u16,
        most: Option<u16>,
        greedy: bool,
        next: u32,
    ) -> Result<u32, NoMemory>
        requires { next < length self.old.steps.items }
        ensures within { IfOk result (λ place. place < length self.new.steps.items) }
        ensures longer { IfOk result (λ place. length self.old.steps.items ≤ length self.new.steps.items) }
        ensures ways { IfOk result (λ place. (text : List ℕ)
            → Compiles text self.old.steps.items self.new.steps.items
            (repeated (length text) (kept_ways text (pattern_of body.now.value)) least most greedy) next place) }
    {
        match most {
            None => self.endless(body, least, greedy, next),
            Some(most) if most < least => self.emit(Step::Class {
                set: ByteSet::empty(),
                next,
            }),
            Some(most) => {
                let more = self.turns_up_to(body, most - least, greedy, next)?;
                self.turns(body, least, more)
            }
        }
    }

    // So many turns.
    #[cycle(compile)]
    fn turns(&mut self, body: &Box<Pat>, count: u16, next: u32) -> Result<u32, NoMemory>
        requires { next < length self.old.steps.items }
        ensures within { IfOk result (λ place. place < length self.new.steps.items) }
        ensures longer { IfOk result (λ place. length self.old.steps.items ≤ length self.new.steps.items) }
        ensures ways { IfOk result (λ place. (text : List ℕ)
            → Compiles text self.old.steps.items self.new.steps.items
            (turns_then (kept_ways text (pattern_of body.now.value)) count stop) next place) }
    {
        let mut place = next;
        for _ in 0..count {
            place = self.compile(body, place)?;
        }
        Ok(place)
    }

    // At most so many turns.
    #[cycle(compile)]
    fn turns_up_to(
        &mut self,
        body: &Box<Pat>,
        most: u16,
        greedy: bool,
        next: u32,
    ) -> Result<u32, NoMemory>
        requires { next < length self.old.steps.items }
        ensures within { IfOk result (λ place. place < length self.new.steps.items) }
        ensures longer { IfOk result (λ place. length self.old.steps.items ≤ length self.new.steps.items) }
        ensures ways { IfOk result (λ place. (text : List ℕ)
            → Compiles text self.old.steps.items self.new.steps.items
            (turns_up_to greedy (kept_ways text (pattern_of body.now.value)) most) next place) }
    {
        let mut place = next;
        for _ in 0..most {
            let turn = self.compile(body, place)?;
            place = self.emit(turn_or_next(greedy, turn, next))?;
        }
        Ok(place)
    }

    // So many turns or more, each of which takes a byte. The place that any number of them begins
    // at is kept free until a turn is there, which leads back to it. The turns that have to be end
    // with that one.
    #[cycle(compile)]
    fn endless(
        &mut self,
        body: &Box<Pat>,
        least: u16,
        greedy: bool,
        next: u32,
    ) -> Result<u32, NoMemory>
        requires { next < length self.old.steps.items }
        ensures within { IfOk result (λ place. place < length self.new.steps.items) }
        ensures longer { IfOk result (λ place. length self.old.steps.items ≤ length self.new.steps.items) }
        ensures ways { IfOk result (λ place. (text : List ℕ)
            → Compiles text self.old.steps.items self.new.steps.items
            (repeated (length text) (kept_ways text (pattern_of body.now.value)) least None greedy) next place) }
    {
        if !takes_a_byte(body) {
            return Err(NoMemory);
        }
        let head = self.emit(Step::Done)?;
        let turn = self.compile(body, head)?;
        self.steps[head as usize] = turn_or_next(greedy, turn, next);
        if least == 0 {
            return Ok(head);
        }
        self.turns(body, least - 1, turn)
    }
}

// One more turn, or none: the turn first where the repeat is greedy.
fn turn_or_next(greedy: bool, turn: u32, next: u32) -> Step
    ensures { result ≡ turn_step greedy turn next }
{
    if greedy {
        Step::Either {
            first: turn,
            second: next,
        }
    } else {
        Step::Either {
            first: next,
            second: turn,
        }
    }
}

/// The step at the place, if there is one.
pub fn step_at(steps: &[Step], place: u32) -> Option<Step>
    ensures { result ≡ slice_get steps.now place }
{
    steps.get(place as usize).copied()
}
