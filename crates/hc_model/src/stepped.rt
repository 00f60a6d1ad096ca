ghost use Rattle.std.specs.Prelude.{◌≡◌};
ghost use Rattle.hc_model.specs.Steps.{expr_of};

use crate::ExprStep;
use hc_base::{List, NoMemory};
use std::marker::Model;

/// The expression of an `<If>` as a list of steps, so that nothing calls itself for a part of it: an operator
/// stands behind its parts, the second part before the first. Contracts see the tree.
#[derive(Drop)]
pub struct Expression {
    steps: List<ExprStep>,
}

impl Model for Expression {
    ghost use Rattle.std.specs.Coded.{codes};
    ghost use Rattle.hc_model.specs.contracts.expression.Expr as e;
    ghost use Rattle.hc_model.specs.declared.expression.Expr.{Expr};
    ghost use Rattle.hc_model.specs.Steps.{expr_of};

    ghost Value = { Expr };

    ghost coded = { Prim.hlevel (codes, e.the_row.coded) };

    ghost view = { λ e. expr_of e.steps };
}

impl From<List<ExprStep>> for Expression {
    ghost from_gives = { λ steps expression. expression ≡ expr_of steps };

    fn from(steps: List<ExprStep>) -> Expression {
        Expression { steps }
    }
}

impl Expression {
    pub fn steps(&self) -> &[ExprStep]
        ensures { self.now ≡ expr_of result.now }
    {
        self.steps.as_slice()
    }
}

impl Clone for Expression {
    ghost is_clone = { λ expression copy. copy ≡ expression };

    fn clone(&self) -> Result<Expression, NoMemory> {
        Ok(Expression {
            steps: self.steps.copy()?,
        })
    }
}
