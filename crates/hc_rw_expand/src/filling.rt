ghost use Rattle.std.specs.Prelude.{◌≡◌, [], ◌++◌, unwrap_or, OnOk};
ghost use Rattle.hc_rw_expand.specs.Contexts.{context_of};
ghost use Rattle.hc_rw_expand.specs.Values.{filling_in, header_named, named_value, request_line};
ghost use Rattle.hc_rw_expand.specs.Values.{seen_in};
ghost use Rattle.hc_template.specs.SeenView.{seen_of};

use crate::context::RwContext;
use crate::groups::group_of;
use crate::state::RwState;
use hc_base::NoMemory;
use hc_model::{Request, Var};
use hc_table::Variable;
use hc_template::{Fills, Values, header_value, push_address, push_host};

/// What the parts of a template stand for where a list of rules runs (Apache manual, mod_rewrite, "Test
/// String" and RewriteCond).
#[derive(Clone, Copy)]
pub struct StateFilling<'s> {
    pub context: &'s RwContext<'s>,
    pub state: &'s RwState,
}

impl<'s> Fills for StateFilling<'s> {
    ghost filling = { λ fills. filling_in (context_of fills.context.now) fills.state.now };

    fn push_group(&self, out: &mut Vec<u8>, number: u8) -> Result<(), NoMemory> {
        out.extend_from_slice(group_of(&self.state.groups, number))
    }

    fn push_condition(&self, out: &mut Vec<u8>, number: u8) -> Result<(), NoMemory> {
        out.extend_from_slice(group_of(&self.state.cond_groups, number))
    }

    fn push_variable(&self, out: &mut Vec<u8>, var: &Var) -> Result<(), NoMemory> {
        match var {
            Var::Header(name) => push_header(out, &self.context.caller.request, name.as_bytes()),
            Var::Env(name) => out.extend_from_slice(self.state.vars.value(name)),
            Var::Named(variable) => push_value(self.context, self.state, out, *variable),
        }
    }
}

fn push_value(
    context: &RwContext<'_>,
    state: &RwState,
    out: &mut Vec<u8>,
    variable: Variable,
) -> Result<(), NoMemory>
    ensures { OnOk result (out.new.items
        ≡ out.old.items ++ named_value (context_of context.now) state.now variable) }
{
    let request = &context.caller.request;
    let headers = request.headers.as_slice();
    match variable {
        Variable::ScriptFilename => out.extend_from_slice(state.text.as_bytes()),
        Variable::PathInfo => out.extend_from_slice(state.info.as_bytes()),
        Variable::DocumentRoot => push_root(out, context),
        Variable::ServerAddr => push_address(out, request.server),
        Variable::HttpCookie => out.extend_from_slice(header_value(headers, b"Cookie")),
        Variable::HttpAccept => out.extend_from_slice(header_value(headers, b"Accept")),
        Variable::TheRequest => push_request_line(out, request),
        _ => values_in(context, state).push_value(out, variable),
    }
}

// The text that is rewritten stands for the file name.
fn values_in<'v>(context: &'v RwContext<'_>, state: &'v RwState) -> Values<'v>
    ensures { seen_of result ≡ seen_in (context_of context.now) state.now }
{
    Values {
        caller: context.caller,
        path: context.path.as_bytes(),
        query: state.query.as_bytes(),
        name: state.text.as_bytes(),
    }
}

fn push_root(out: &mut Vec<u8>, context: &RwContext<'_>) -> Result<(), NoMemory>
    ensures { OnOk result (out.new.items ≡ out.old.items ++ unwrap_or (context_of context.now).root []) }
{
    match context.root {
        Some(root) => out.extend_from_slice(root.as_bytes()),
        None => Ok(()),
    }
}

// The request line, with single spaces.
fn push_request_line(out: &mut Vec<u8>, request: &Request) -> Result<(), NoMemory>
    ensures { OnOk result (out.new.items ≡ out.old.items ++ request_line request.now) }
{
    out.extend_from_slice(request.method.as_bytes())?;
    out.push(b' ')?;
    out.extend_from_slice(request.target.as_bytes())?;
    out.extend_from_slice(b" HTTP/1.1")
}

// A header by its name, without case.
fn push_header(out: &mut Vec<u8>, request: &Request, name: &[u8]) -> Result<(), NoMemory>
    ensures { OnOk result (out.new.items ≡ out.old.items ++ header_named request.now name.now) }
{
    if name.eq_ignore_ascii_case(b"Host") {
        push_host(out, request)
    } else {
        out.extend_from_slice(header_value(request.headers.as_slice(), name))
    }
}
