//! `<If>`, `<ElseIf>` and `<Else>`: a chain of sections of which at most one applies.
ghost use Rattle.std.specs.Prelude.{◌≡◌, IfOk};
ghost use Rattle.hc_base.specs.Gives.{Gives};
ghost use Rattle.hc_config.specs.Among.{among_of};
ghost use Rattle.hc_config.specs.Directives.{branch, branch_by, last_branch};
ghost use Rattle.hc_model.specs.declared.expression.Expr.TheVariants.{Yes};
ghost use Rattle.hc_model.specs.declared.section.Reach.TheVariants.{Otherwise, When};

use crate::among::{Among, spot_of};
use crate::effect::{Effect, EffectFault, REFUSED};
use crate::gathered::{Opened, Opening};
use hc_base::{CowStr, List, NoMemory};
use hc_expr::parse_expr;
use hc_model::{ExprStep, Expression, Reach};
use std::alloc::Global;

/// `<If expression>` (core): one word.
pub(crate) fn if_section(among: &Among, words: &[CowStr]) -> Result<Effect, EffectFault>
    ensures { Gives result (branch_by When (among_of among.now) words.now) }
{
    let [text] = words else {
        return Err(REFUSED);
    };
    let expr = parse_expr(among.alloc, text.as_str().as_bytes())?;
    Ok(branch(among, true, Reach::When(expr))?)
}

/// `<ElseIf expression>` (core): one word.
pub(crate) fn else_if(among: &Among, words: &[CowStr]) -> Result<Effect, EffectFault>
    ensures { Gives result (branch_by Otherwise (among_of among.now) words.now) }
{
    let [text] = words else {
        return Err(REFUSED);
    };
    let expr = parse_expr(among.alloc, text.as_str().as_bytes())?;
    Ok(branch(among, true, Reach::Otherwise(expr))?)
}

/// `<Else>` (core): no word.
pub(crate) fn else_section(among: &Among, words: &[CowStr]) -> Result<Effect, EffectFault>
    ensures { Gives result (last_branch (among_of among.now) words.now) }
{
    if !words.is_empty() {
        return Err(REFUSED);
    }
    let always = always(among.alloc)?;
    Ok(branch(among, false, Reach::Otherwise(always))?)
}

// Behind an `<If>` or `<ElseIf>` the chain may go on.
fn branch(among: &Among, goes_on: bool, reach: Reach) -> Result<Effect, NoMemory>
    ensures { IfOk result (λ effect. effect ≡ branch (among_of among.now) goes_on reach) }
{
    Ok(Effect::Opens(Opening {
        spot: spot_of(among.entry)?,
        opened: Opened::Reached(reach),
        chained: goes_on,
        wild: false,
    }))
}

fn always(alloc: Global) -> Result<Expression, NoMemory>
    ensures { IfOk result (λ expr. expr ≡ Yes) }
{
    let mut steps = List::new(alloc);
    steps.push(ExprStep::Yes)?;
    Ok(Expression::from(steps))
}
