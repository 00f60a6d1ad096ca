ghost use Rattle.std.specs.Prelude.{◌≡◌, map, IfOk};
ghost use Rattle.hc_regset.specs.Forms.{Form, form_of, found, only, without};
ghost use Rattle.hc_regset.specs.Joinings.{joined, keep_of, start_of};
ghost use Rattle.hc_regset.specs.Sets.{GivesSet, IsSetOf};

use crate::automata::{constant, kept};
use hc_base::{AtByte, Boxed, Fault, List, NoMemory};
use hc_dfa::{Dfa, Keep, single};
use hc_pat_lang::matched;
use hc_pattern::parse_pattern;
use hc_scope::SetForm;
use std::alloc::Global;

/// Why a set is not made: memory was refused, or a pattern is not read, by the rule (13 to 16) that it
/// breaks at a byte of its text.
pub type SetFault = Fault<AtByte>;

/// How members make a set: it has the texts of all of them, or of any.
#[derive(Clone, Copy)]
enum Joining {
    All,
    Any,
}

impl Joining {
    /// What is kept of two members.
    fn keep(self) -> Keep
        ensures { result ≡ keep_of self }
    {
        match self {
            Joining::All => Keep::Both,
            Joining::Any => Keep::Either,
        }
    }

    /// The set of no members.
    fn start(self, alloc: Global) -> Result<Dfa, NoMemory>
        ensures { IfOk result (IsSetOf (start_of self)) }
    {
        match self {
            Joining::All => constant(alloc, true),
            Joining::Any => constant(alloc, false),
        }
    }
}

/// The set of one text.
fn literal(alloc: Global, text: &[u8]) -> Result<Dfa, SetFault>
    ensures { GivesSet result (only text.now) }
{
    let set = single(alloc, text)?;
    Ok(set)
}

/// The texts that a pattern is found in.
fn pattern(alloc: Global, text: &[u8]) -> Result<Dfa, SetFault>
    ensures { GivesSet result (found text.now) }
{
    match parse_pattern(alloc, text, false) {
        Ok(pat) => {
            let set = matched(alloc, &pat)?;
            Ok(set)
        }
        Err(fault) => Err(fault),
    }
}

/// The set that the members make. Patterns are read in their order.
#[cycle(compile)]
fn members(alloc: Global, forms: &List<SetForm>, joining: Joining) -> Result<Dfa, SetFault>
    ensures { GivesSet result (joined joining (map form_of forms.now)) }
{
    let mut set = joining.start(alloc)?;
    for form in forms.as_slice() {
        match compile_set(alloc, form) {
            Ok(member) => set = kept(alloc, &set, &member, joining.keep())?,
            Err(fault) => return Err(fault),
        }
    }
    Ok(set)
}

#[cycle(compile)]
fn boxed(alloc: Global, form: &Boxed<SetForm>) -> Result<Dfa, SetFault>
    ensures { GivesSet result (form_of form.now) }
{
    compile_set(alloc, form.get())
}

/// The first set without the second.
fn difference(alloc: Global, first: &Dfa, second: &Dfa) -> Result<Dfa, SetFault>
    ensures { (F G : Form) → IsSetOf F first.now → IsSetOf G second.now → GivesSet result (without F G) }
{
    let set = kept(alloc, first, second, Keep::FirstOnly)?;
    Ok(set)
}

/// The automaton of a set of texts. Of the patterns in it, in the order in which they are written, the
/// first that is not read is refused. All of no sets is every text, and any of no sets is no text.
#[cycle(compile)]
pub fn compile_set(alloc: Global, form: &SetForm) -> Result<Dfa, SetFault>
    ensures { GivesSet result (form_of form.now) }
{
    match form {
        SetForm::Any => Ok(constant(alloc, true)?),
        SetForm::Literal(text) => literal(alloc, text.as_bytes()),
        SetForm::Pattern(text) => pattern(alloc, text.as_bytes()),
        SetForm::And(forms) => members(alloc, forms, Joining::All),
        SetForm::Or(forms) => members(alloc, forms, Joining::Any),
        SetForm::Minus(first, second) => {
            let first = match boxed(alloc, first) {
                Ok(first) => first,
                Err(fault) => return Err(fault),
            };
            match boxed(alloc, second) {
                Ok(second) => difference(alloc, &first, &second),
                Err(fault) => Err(fault),
            }
        }
    }
}
