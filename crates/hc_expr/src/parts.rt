//! What the parts of tests are read as.
ghost use Rattle.std.specs.Prelude.{◌≡◌, ◌∷◌, [], IfOk};
ghost use Rattle.hc_base.specs.Gives.{Gives};
ghost use Rattle.hc_expr.specs.Reading.{name_alone, names_alone, network_of, operand_of};
ghost use Rattle.hc_expr.specs.TokenViews.{operand_view};
ghost use Rattle.hc_pattern.specs.Reading.{parse_pattern};

use crate::operand::Operand;
use crate::read::ExprFault;
use crate::test::Pattern;
use hc_addr::{Net, parse_net};
use hc_base::codes::{BAD_ADDRESS, UNSUPPORTED_VARIABLE};
use hc_base::{AtByte, Fault, List, NoMemory, Text};
use hc_model::{Piece, Regex, Template};
use hc_pattern::parse_pattern;
use hc_template::{Names, Signs, read_template, variable_named};
use std::alloc::Global;

// A quoted text may hold `%{NAME}`, and no other sign.
fn names_alone() -> Signs
    ensures { result ≡ names_alone }
{
    Signs {
        groups: false,
        conditions: false,
        names: Names::Expression,
        lookups: false,
        escapes: false,
    }
}

fn one_piece(alloc: Global, piece: Piece) -> Result<Template, NoMemory>
    ensures { IfOk result (λ pieces. pieces ≡ piece ∷ []) }
{
    let mut pieces = List::new(alloc);
    pieces.push(piece)?;
    Ok(pieces)
}

fn name_alone(alloc: Global, name: &[u8]) -> Result<Template, ExprFault>
    ensures { Gives result (name_alone name.now) }
{
    match variable_named(name) {
        Some(var) => Ok(one_piece(alloc, Piece::Var(var))?),
        None => Err(Fault::Refused(AtByte::rule(UNSUPPORTED_VARIABLE))),
    }
}

/// The text that an operand stands for.
pub fn operand_of(alloc: Global, operand: Operand) -> Result<Template, ExprFault>
    ensures { Gives result (operand_of (operand_view operand.entry)) }
{
    match operand {
        Operand::Variable(name) => name_alone(alloc, name),
        Operand::Quoted(text) => read_template(alloc, text, names_alone()),
        Operand::Digits(text) => {
            let text = Text::copy_of(alloc, text)?;
            Ok(one_piece(alloc, Piece::Bytes(text))?)
        }
    }
}

pub fn network_of(text: &[u8]) -> Result<Net, ExprFault>
    ensures { Gives result (network_of text.now) }
{
    match parse_net(text) {
        Ok(net) => Ok(net),
        Err(_) => Err(Fault::Refused(AtByte::rule(BAD_ADDRESS))),
    }
}

pub fn regex_of(alloc: Global, pattern: Pattern) -> Result<Regex, ExprFault>
    ensures { Gives result (parse_pattern pattern.entry.text.now pattern.entry.nocase) }
{
    match parse_pattern(alloc, pattern.text, pattern.nocase) {
        Ok(pat) => Ok(Regex::new(alloc, pat)?),
        Err(fault) => Err(fault),
    }
}
