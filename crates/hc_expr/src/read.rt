//! What an expression is read as.
ghost use Rattle.std.specs.Prelude.{◌≡◌, Result};
ghost use Rattle.std.specs.Result.{result_map_both};
ghost use Rattle.hc_base.specs.Gives.{Gives};
ghost use Rattle.hc_base.specs.declared.fault.Fault.TheVariants.{Refused};
ghost use Rattle.hc_expr.specs.Reading.{lesser, made_of_two, no_expression, parse_expr};

use crate::build::steps_of;
use crate::stepping::steps_read;
use crate::syntax::is_expression;
use crate::token::tokens;
use hc_base::codes::BAD_EXPRESSION;
use hc_base::{AtByte, Fault};
use hc_model::Expression;
use std::alloc::Global;

/// Why an expression is not read: memory was refused, or a rule is broken, at a byte of a pattern if it
/// is one of a pattern.
pub type ExprFault = Fault<AtByte>;

/// The refusal of the smaller code, and of equal ones the first.
pub fn lesser(first: AtByte, second: AtByte) -> AtByte
    ensures { result ≡ lesser first second }
{
    if second.code < first.code {
        second
    } else {
        first
    }
}

/// What two parts are read as, or the lesser of their refusals; `NoMemory` where one of them found no
/// memory. `C` is the type of what is made of them.
pub fn both<A: Drop, B: Drop, C>(
    first: Result<A, Fault<AtByte>>,
    second: Result<B, Fault<AtByte>>,
) -> Result<(A, B), Fault<AtByte>>
    ensures { (make : A → B → C) (a : Result A AtByte) (b : Result B AtByte)
        → Gives first a → Gives second b
        → Gives (result_map_both (λ pair. make pair.0 pair.1) (λ fault. fault) result) (made_of_two make a b) }
{
    match first {
        Ok(first) => match second {
            Ok(second) => Ok((first, second)),
            Err(fault) => Err(fault),
        },
        Err(Fault::NoMemory) => Err(Fault::NoMemory),
        Err(Fault::Refused(first)) => match second {
            Ok(_) => Err(Fault::Refused(first)),
            Err(Fault::NoMemory) => Err(Fault::NoMemory),
            Err(Fault::Refused(second)) => Err(Fault::Refused(lesser(first, second))),
        },
    }
}

fn no_expression() -> ExprFault
    ensures { result ≡ Refused no_expression }
{
    Fault::Refused(AtByte::rule(BAD_EXPRESSION))
}

/// The expression of a text (Apache manual, "Expressions in Apache HTTP Server", of which this is a
/// part): `true`, `false`, `==` or `=`, `!=`, `=~` and `!~` with a pattern between slashes, which an `i`
/// behind it makes one without case, `-ipmatch`, and tests joined by `!`, `&&`, `||` and parentheses. An
/// operand is `%{NAME}`, a text between quotes, which may hold `%{NAME}`, or digits.
///
/// It refuses 32 where the text is no expression. Else the smallest of these counts, and of equal ones
/// the first: 13 to 16 as `parse_pattern` does, at a byte of the pattern, 19 for a variable that may
/// not be named here, and 26 for what is no network. However many tests there are, and however deep they stand,
/// it takes time and memory in proportion to the text, and no call's depth grows.
#[tactic(auto, unfolding(crate::specs::Reading::parse_expr))]
pub fn parse_expr(alloc: Global, text: &[u8]) -> Result<Expression, ExprFault>
    ensures { Gives result (parse_expr text.now) }
{
    let tokens = tokens(alloc, text)?;
    if !is_expression(&tokens) {
        return Err(no_expression());
    }
    let steps = steps_of(alloc, tokens)?;
    steps_read(alloc, &steps)
}
