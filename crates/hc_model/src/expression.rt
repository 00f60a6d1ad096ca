ghost use Rattle.std.specs.Prelude.{◌≡◌};

use crate::{Regex, Template};
use hc_addr::Net;
use hc_base::{Boxed, NoMemory};

/// The expression of an `<If>` (Apache manual, "Expressions in Apache HTTP Server"), as contracts see it; the
/// code has its steps.
#[derive(Drop)]
pub enum Expr {
    /// `true`.
    Yes,
    /// `false`.
    No,
    /// `!`.
    Not(Boxed<Expr>),
    /// `&&`.
    And(Boxed<Expr>, Boxed<Expr>),
    /// `||`.
    Or(Boxed<Expr>, Boxed<Expr>),
    /// `==`.
    Same(Template, Template),
    /// `=~`.
    Search(Template, Regex),
    /// `-ipmatch`.
    IpMatch(Template, Net),
}

/// A step of an expression: a test, or what joins the parts before it.
#[derive(Drop)]
pub enum ExprStep {
    /// `true`.
    Yes,
    /// `false`.
    No,
    /// `==`.
    Same(Template, Template),
    /// `=~`.
    Search(Template, Regex),
    /// `-ipmatch`.
    IpMatch(Template, Net),
    /// `!`.
    Not,
    /// `&&`.
    And,
    /// `||`.
    Or,
}

impl Clone for ExprStep {
    ghost is_clone = { λ step copy. copy ≡ step };

    fn clone(&self) -> Result<ExprStep, NoMemory> {
        match self {
            ExprStep::Yes => Ok(ExprStep::Yes),
            ExprStep::No => Ok(ExprStep::No),
            ExprStep::Same(first, second) => Ok(ExprStep::Same(first.copy()?, second.copy()?)),
            ExprStep::Search(text, pattern) => Ok(ExprStep::Search(text.copy()?, pattern.clone()?)),
            ExprStep::IpMatch(text, net) => Ok(ExprStep::IpMatch(text.copy()?, *net)),
            ExprStep::Not => Ok(ExprStep::Not),
            ExprStep::And => Ok(ExprStep::And),
            ExprStep::Or => Ok(ExprStep::Or),
        }
    }
}
