ghost use Rattle.std.specs.Prelude.{◌≡◌, ◌++◌, IfOk, OnOk};
ghost use Rattle.hc_template.specs.Filled.{Filling, filled, filled_piece};

use hc_base::{NoMemory, Text};
use hc_model::{Piece, Var};
use std::alloc::Global;

/// What the parts of a template stand for. Each call adds a part's text at the end of `out`, and answers
/// `NoMemory` where memory is refused.
pub trait Fills {
    ghost filling: { Self → Filling };

    /// `$0` to `$9`.
    fn push_group(&self, out: &mut Vec<u8>, number: u8) -> Result<(), NoMemory>
        ensures { OnOk result (out.new.items ≡ out.old.items ++ (filling self.now).group number) };

    /// `%0` to `%9`.
    fn push_condition(&self, out: &mut Vec<u8>, number: u8) -> Result<(), NoMemory>
        ensures { OnOk result (out.new.items ≡ out.old.items ++ (filling self.now).condition number) };

    /// `%{NAME}`.
    fn push_variable(&self, out: &mut Vec<u8>, var: &Var) -> Result<(), NoMemory>
        ensures { OnOk result (out.new.items ≡ out.old.items ++ (filling self.now).variable var.now) };
}

/// A template with its parts filled in. They are not escaped, and a look-up that is left in it gives
/// nothing. `NoMemory` where memory is refused.
pub fn expand<F: Fills>(alloc: Global, pieces: &[Piece], fills: &F) -> Result<Text, NoMemory>
    ensures { IfOk result (λ text. text ≡ filled (F.filling fills.now) pieces.now) }
{
    let mut text = Vec::new(alloc);
    for piece in pieces {
        push_piece(&mut text, piece, fills)?;
    }
    Ok(Text::from(text))
}

fn push_piece<F: Fills>(out: &mut Vec<u8>, piece: &Piece, fills: &F) -> Result<(), NoMemory>
    ensures { OnOk result (out.new.items ≡ out.old.items ++ filled_piece (F.filling fills.now) piece.now) }
{
    match piece {
        Piece::Bytes(bytes) => out.extend_from_slice(bytes.as_bytes()),
        Piece::Group(number) => fills.push_group(out, *number),
        Piece::CondGroup(number) => fills.push_condition(out, *number),
        Piece::Var(var) => fills.push_variable(out, var),
        Piece::Lookup { .. } => Ok(()),
    }
}
