//! The steps of an expression, made from its last token on.
ghost use Rattle.std.specs.Prelude.{◌≡◌, IfOk, OnOk, map};
ghost use Rattle.hc_expr.specs.Emitted.{all_emitted, finished, inverted, is_conjunction, is_whole, joined};
ghost use Rattle.hc_expr.specs.Emitted.{nothing_emitted, with_emitted};
ghost use Rattle.hc_expr.specs.StepViews.{emitted, output_of, step_view};
ghost use Rattle.hc_expr.specs.TokenViews.{token_view};
ghost use Rattle.hc_expr.specs.Tokens.{closes, negates, opens};

use crate::step::Step;
use crate::token::Token;
use hc_base::NoMemory;
use std::alloc::Global;
use std::mem::replace;

/// What is there of the inside of parentheses, from its end: what was read last, what stands behind the
/// next `&&`, and what stands behind the next `||`.
#[derive(Clone, Copy)]
pub struct Level {
    pub last: bool,
    pub conjunction: bool,
    pub disjunction: bool,
}

/// A level, and those around it, the innermost last. The steps are those of the outermost level first, and in each
/// what stands behind the next `||`, behind the next `&&`, and what was read last.
#[derive(Drop)]
pub struct Levels<'t> {
    pub inner: Level,
    pub outer: Vec<Level>,
    pub steps: Vec<Step<'t>>,
}

const NOTHING: Level = Level {
    last: false,
    conjunction: false,
    disjunction: false,
};

impl Level {
    fn is_conjunction(self) -> bool
        ensures { result ≡ is_conjunction self }
    {
        self.last || self.conjunction
    }

    fn is_whole(self) -> bool
        ensures { result ≡ is_whole self }
    {
        self.is_conjunction() || self.disjunction
    }
}

// The step joins two parts, where both are there.
fn join<'t>(
    steps: &mut Vec<Step<'t>>,
    step: Step<'t>,
    first: bool,
    second: bool,
) -> Result<(), NoMemory>
    ensures { OnOk result (emitted steps.new.items
        ≡ joined (step_view step.entry) first second (emitted steps.old.items)) }
{
    if first && second {
        steps.push(step)?;
    }
    Ok(())
}

// All that was read of a level becomes one part.
fn finish<'t>(steps: &mut Vec<Step<'t>>, level: Level) -> Result<(), NoMemory>
    ensures { OnOk result (emitted steps.new.items ≡ finished level (emitted steps.old.items)) }
{
    join(steps, Step::And, level.last, level.conjunction)?;
    join(steps, Step::Or, level.is_conjunction(), level.disjunction)
}

// Two `!` are none.
fn invert<'t>(steps: &mut Vec<Step<'t>>) -> Result<(), NoMemory>
    ensures { OnOk result (emitted steps.new.items ≡ inverted (emitted steps.old.items)) }
{
    if let Some(last) = steps.pop() {
        if let Step::Not = last {
            return Ok(());
        }
        steps.push(last)?;
    }
    steps.push(Step::Not)?;
    Ok(())
}

impl<'t> Levels<'t> {
    fn new(alloc: Global) -> Levels<'t>
        ensures { output_of result ≡ nothing_emitted }
    {
        Levels {
            inner: NOTHING,
            outer: Vec::new(alloc),
            steps: Vec::new(alloc),
        }
    }

    fn negate(&mut self) -> Result<(), NoMemory>
        ensures { OnOk result (output_of self.new ≡ with_emitted negates (output_of self.old)) }
    {
        if self.inner.last {
            invert(&mut self.steps)?;
        }
        Ok(())
    }

    // A parenthesis begins: what was read of its inside was read last of the level around it.
    fn open(&mut self) -> Result<(), NoMemory>
        ensures { OnOk result (output_of self.new ≡ with_emitted opens (output_of self.old)) }
    {
        let inner = self.inner;
        finish(&mut self.steps, inner)?;
        let around = match self.outer.pop() {
            Some(level) => level,
            None => NOTHING,
        };
        self.inner = Level {
            last: inner.is_whole(),
            ..around
        };
        Ok(())
    }

    // A parenthesis ends, so its inside comes now.
    fn close(&mut self) -> Result<(), NoMemory>
        ensures { OnOk result (output_of self.new ≡ with_emitted closes (output_of self.old)) }
    {
        let around = replace(&mut self.inner, NOTHING);
        self.outer.push(around)?;
        Ok(())
    }

    fn with_token(&mut self, token: Token<'t>) -> Result<(), NoMemory>
        ensures { OnOk result (output_of self.new ≡ with_emitted (token_view token.entry) (output_of self.old)) }
    {
        let inner = self.inner;
        match token {
            Token::Test(test) => {
                self.steps.push(Step::Test(test))?;
                self.inner.last = true;
                Ok(())
            }
            Token::Negates => self.negate(),
            Token::Ands => {
                join(&mut self.steps, Step::And, inner.last, inner.conjunction)?;
                self.inner = Level {
                    last: false,
                    conjunction: inner.is_conjunction(),
                    disjunction: inner.disjunction,
                };
                Ok(())
            }
            Token::Ors => {
                finish(&mut self.steps, inner)?;
                self.inner = Level {
                    disjunction: inner.is_whole(),
                    ..NOTHING
                };
                Ok(())
            }
            Token::Closes => self.close(),
            Token::Opens => self.open(),
            Token::Broken => Ok(()),
        }
    }

    fn into_steps(self) -> Result<Vec<Step<'t>>, NoMemory>
        ensures { IfOk result (λ steps. emitted steps.items
            ≡ finished (output_of self.entry).inner (output_of self.entry).steps) }
    {
        let Levels {
            inner,
            mut steps,
            ..
        } = self;
        finish(&mut steps, inner)?;
        Ok(steps)
    }
}

/// The steps that all tokens make.
pub fn steps_of<'t>(alloc: Global, mut tokens: Vec<Token<'t>>) -> Result<Vec<Step<'t>>, NoMemory>
    ensures { IfOk result (λ steps. emitted steps.items ≡ all_emitted (map token_view tokens.entry.items)) }
{
    let mut levels = Levels::new(alloc);
    'tokens: while let Some(last) = tokens.pop() {
        levels.with_token(last)?;
    }
    levels.into_steps()
}
