ghost use Rattle.std.specs.Prelude.{◌≡◌, ◌++◌, OnOk, decimal};
ghost use Rattle.hc_addr.specs.Printed.{printed};
ghost use Rattle.hc_template.specs.SeenView.{seen_of};
ghost use Rattle.hc_template.specs.ViewFilling.{filling_of};
ghost use Rattle.hc_template.specs.Variables.{header_value, host_with_port, on_off, seen_by, value_of};

use crate::filling::Fills;
use crate::server::{push_port, scheme_name};
use hc_addr::{Addr, print_addr};
use hc_base::NoMemory;
use hc_model::{Caller, Header, Request, Scheme, Var, View};
use hc_table::Variable;

/// What variables have their values by: a request at a server, the URL path, the query and the file
/// name.
#[derive(Clone, Copy)]
pub struct Values<'v> {
    pub caller: &'v Caller,
    pub path: &'v [u8],
    pub query: &'v [u8],
    pub name: &'v [u8],
}

impl<'v> Values<'v> {
    /// Adds the value of a variable; nothing for one that an expression may not name. `NoMemory` where memory is
    /// refused.
    pub fn push_value(&self, out: &mut Vec<u8>, variable: Variable) -> Result<(), NoMemory>
        ensures { OnOk result (
            out.new.items ≡ out.old.items ++ value_of (seen_of self.now) variable) }
    {
        let request = &self.caller.request;
        let headers = request.headers.as_slice();
        match variable {
            Variable::RequestUri => out.extend_from_slice(self.path),
            Variable::RequestFilename => out.extend_from_slice(self.name),
            Variable::QueryString => out.extend_from_slice(self.query),
            Variable::RequestMethod => out.extend_from_slice(request.method.as_bytes()),
            Variable::RequestScheme => out.extend_from_slice(scheme_name(request.scheme)),
            Variable::Https => out.extend_from_slice(on_off(request.scheme)),
            Variable::HttpHost => push_host(out, request),
            Variable::HttpUserAgent => out.extend_from_slice(header_value(headers, b"User-Agent")),
            Variable::HttpReferer => out.extend_from_slice(header_value(headers, b"Referer")),
            Variable::RemoteAddr => push_address(out, request.client),
            Variable::ServerName => out.extend_from_slice(self.caller.name.as_bytes()),
            Variable::ServerPort => push_number(out, request.port),
            _ => Ok(()),
        }
    }
}

/// The parts of a text in an expression: a variable has its value for a request, and no group is set
/// (Apache manual, "Expressions in Apache HTTP Server").
#[derive(Clone, Copy)]
pub struct ViewFilling<'v> {
    pub view: &'v View,
}

impl<'v> ViewFilling<'v> {
    fn values(&self) -> Values<'v>
        ensures { seen_of result ≡ seen_by self.now.view.now }
    {
        Values {
            caller: &self.view.caller,
            path: self.view.path.as_bytes(),
            query: self.view.query.as_bytes(),
            name: self.view.name.as_bytes(),
        }
    }
}

impl<'v> Fills for ViewFilling<'v> {
    ghost filling = { λ fills. filling_of fills.view.now };

    fn push_group(&self, _out: &mut Vec<u8>, _number: u8) -> Result<(), NoMemory> {
        Ok(())
    }

    fn push_condition(&self, _out: &mut Vec<u8>, _number: u8) -> Result<(), NoMemory> {
        Ok(())
    }

    fn push_variable(&self, out: &mut Vec<u8>, var: &Var) -> Result<(), NoMemory> {
        match var {
            Var::Header(name) => {
                out.extend_from_slice(header_value(
                    self.view.caller.request.headers.as_slice(),
                    name.as_bytes(),
                ))
            }
            Var::Env(_) => Ok(()),
            Var::Named(variable) => self.values().push_value(out, *variable),
        }
    }
}

fn on_off(scheme: Scheme) -> &'static [u8]
    ensures { result.now ≡ on_off scheme }
{
    match scheme {
        Scheme::Http => b"off",
        Scheme::Https => b"on",
    }
}

/// The value of the first header of this name, without case; empty where there is none.
pub fn header_value<'h>(headers: &'h [Header], name: &[u8]) -> &'h [u8]
    ensures { result.now ≡ header_value headers.now name.now }
{
    match headers
        .iter()
        .find(|header| header.name.as_bytes().eq_ignore_ascii_case(name))
    {
        Some(header) => header.value.as_bytes(),
        None => &[],
    }
}

/// Adds the name of the Host header, and the port unless it is the scheme's default. `NoMemory` where
/// memory is refused.
pub fn push_host(out: &mut Vec<u8>, request: &Request) -> Result<(), NoMemory>
    ensures { OnOk result (out.new.items ≡ out.old.items ++ host_with_port request.now) }
{
    out.extend_from_slice(request.host.as_bytes())?;
    push_port(out, request.scheme, request.port)
}

/// Adds an address. `NoMemory` where memory is refused.
pub fn push_address(out: &mut Vec<u8>, address: Addr) -> Result<(), NoMemory>
    ensures { OnOk result (out.new.items ≡ out.old.items ++ printed address) }
{
    let text = print_addr(*out.allocator(), address)?;
    out.extend_from_slice(text.as_bytes())
}

// A number in decimal.
fn push_number(out: &mut Vec<u8>, number: u16) -> Result<(), NoMemory>
    ensures { OnOk result (out.new.items ≡ out.old.items ++ decimal number) }
{
    let text = format!(in *out.allocator(); "{number}")?;
    out.extend_from_slice(text.as_bytes())
}
