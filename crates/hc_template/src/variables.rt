ghost use Rattle.std.specs.Prelude.{◌≡◌, ◌<◌, length, position, IfOk, IfSome};
ghost use Rattle.hc_addr.specs.Numbers.{is_colon};
ghost use Rattle.hc_template.specs.Variables.{behind_front, in_expressions};
ghost use Rattle.hc_template.specs.Variables.{named_by, rewriting_variable, variable_named};

use crate::signs::Names;
use hc_base::{NoMemory, Text};
use hc_model::Var;
use hc_table::{Front, Variable, front_named};
use std::alloc::Global;

/// The variable of this name, without case, if an expression may name it (Apache manual, mod_rewrite,
/// RewriteCond).
pub fn variable_named(name: &[u8]) -> Option<Var>
    ensures { result ≡ variable_named name.now }
{
    match hc_table::variable_named(name) {
        Some(variable) if in_expressions(variable) => Some(Var::Named(variable)),
        _ => None,
    }
}

fn in_expressions(variable: Variable) -> bool
    ensures { result ≡ in_expressions variable }
{
    matches!(
        variable,
        Variable::RequestUri
            | Variable::RequestFilename
            | Variable::QueryString
            | Variable::RequestMethod
            | Variable::RequestScheme
            | Variable::Https
            | Variable::HttpHost
            | Variable::HttpUserAgent
            | Variable::HttpReferer
            | Variable::RemoteAddr
            | Variable::ServerName
            | Variable::ServerPort
    )
}

/// The variable of this name, if rules may name it: `HTTP:` and a header, `ENV:` and a variable that rules
/// set, or one of the table; all but a set variable's name without case (Apache manual, mod_rewrite,
/// RewriteCond). `NoMemory` where memory is refused.
pub fn rewriting_variable(alloc: Global, name: &[u8]) -> Result<Option<Var>, NoMemory>
    ensures { IfOk result (λ var. var ≡ rewriting_variable name.now) }
{
    match colon_place(name) {
        None => Ok(hc_table::variable_named(name).map(Var::Named)),
        Some(at) => {
            let (front, rest) = name.split_at(at + 1);
            behind_front(alloc, front_named(front), rest)
        }
    }
}

fn colon_place(name: &[u8]) -> Option<usize>
    ensures value { result ≡ position is_colon name.now }
    ensures within { IfSome result (λ at. at < length name.now) }
{
    name.iter().position(|byte| *byte == b':')
}

// What a front says of the name that follows it.
fn behind_front(alloc: Global, front: Option<Front>, rest: &[u8]) -> Result<Option<Var>, NoMemory>
    ensures { IfOk result (λ var. var ≡ behind_front front rest.now) }
{
    match front {
        Some(Front::Header) => Ok(Some(Var::Header(Text::copy_of(alloc, rest)?))),
        Some(Front::Environment) => Ok(Some(Var::Env(Text::copy_of(alloc, rest)?))),
        None => Ok(None),
    }
}

/// The variable of this name, if it is among those.
pub(crate) fn named_by(alloc: Global, names: Names, name: &[u8]) -> Result<Option<Var>, NoMemory>
    ensures { IfOk result (λ var. var ≡ named_by names name.now) }
{
    match names {
        Names::NoName => Ok(None),
        Names::Expression => Ok(variable_named(name)),
        Names::Rewriting => rewriting_variable(alloc, name),
    }
}
