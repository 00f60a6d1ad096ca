//! Which tokens are an expression.
ghost use Rattle.std.specs.Prelude.{◌≡◌, ◌<◌, ◌≤◌, ◌+◌, ◌^◌, [], IfSome, false, map, true};
ghost use Rattle.hc_expr.specs.Spots.{GoesOn};
ghost use Rattle.hc_expr.specs.Syntax.{is_expression};
ghost use Rattle.hc_expr.specs.TokenViews.{token_view};
ghost use Rattle.hc_expr.specs.Tokens.{closes};

use crate::token::Token;

/// A place between tokens: how many parentheses are open, and whether `!`, `(` or a test is awaited, or
/// else `&&`, `||`, `)` or the end.
#[derive(Clone, Copy)]
pub struct Spot {
    pub depth: usize,
    pub awaited: bool,
}

// Behind a token where `!`, `(` or a test is awaited.
fn behind_awaited(depth: usize, token: Token) -> Option<Spot>
    requires { depth < 2 ^ 63 }
    ensures next { GoesOn result depth true (token_view token.entry) }
    ensures few { IfSome result (λ spot. spot.depth ≤ depth + 1) }
{
    match token {
        Token::Opens => Some(Spot {
            depth: depth + 1,
            awaited: true,
        }),
        Token::Negates => Some(Spot {
            depth,
            awaited: true,
        }),
        Token::Test(_) => Some(Spot {
            depth,
            awaited: false,
        }),
        Token::Closes | Token::Ands | Token::Ors | Token::Broken => None,
    }
}

// Behind a token where `&&`, `||`, `)` or the end is awaited.
fn behind_operand(depth: usize, token: Token) -> Option<Spot>
    ensures next { GoesOn result depth false (token_view token.entry) }
    ensures few { IfSome result (λ spot. spot.depth ≤ depth + 1) }
{
    match token {
        Token::Closes => closed(depth),
        Token::Ands | Token::Ors => Some(Spot {
            depth,
            awaited: true,
        }),
        Token::Opens | Token::Negates | Token::Test(_) | Token::Broken => None,
    }
}

// Behind a `)`, which closes a parenthesis, if one is open.
#[tactic(auto, using(crate::proofs::SyntaxLemmas::none_open, crate::proofs::SyntaxLemmas::one_closed))]
fn closed(depth: usize) -> Option<Spot>
    ensures next { GoesOn result depth false closes }
    ensures few { IfSome result (λ spot. spot.depth ≤ depth + 1) }
{
    if depth == 0 {
        return None;
    }
    Some(Spot {
        depth: depth - 1,
        awaited: false,
    })
}

impl Spot {
    fn behind(self, token: Token) -> Option<Spot>
        requires { self.depth < 2 ^ 63 }
        ensures next { GoesOn result self.depth self.awaited (token_view token.entry) }
        ensures few { IfSome result (λ spot. spot.depth ≤ self.depth + 1) }
    {
        if self.awaited {
            behind_awaited(self.depth, token)
        } else {
            behind_operand(self.depth, token)
        }
    }

    // An expression may end here.
    #[tactic(auto, using(crate::proofs::SyntaxLemmas::ends))]
    fn may_end(self) -> bool
        ensures { result ≡ is_expression self.depth self.awaited [] }
    {
        if self.awaited {
            return false;
        }
        self.depth == 0
    }
}

/// The tokens are an expression.
pub fn is_expression(tokens: &[Token]) -> bool
    ensures { result ≡ is_expression 0 true (map token_view tokens.now) }
{
    let mut spot = Spot {
        depth: 0,
        awaited: true,
    };
    for token in tokens {
        match spot.behind(*token) {
            Some(next) => spot = next,
            None => return false,
        }
    }
    spot.may_end()
}
