ghost use Rattle.std.specs.Prelude.{◌≡◌};

use hc_addr::Addr;
use hc_base::{List, NoMemory, Text};

/// The scheme of a request.
#[derive(Clone, Copy, PartialEq, Eq, Hash)]
pub enum Scheme {
    Http,
    Https,
}

/// A header of a request: its name and its value.
#[derive(Clone, PartialEq, Eq, Hash, Drop)]
pub struct Header {
    pub name: Text,
    pub value: Text,
}

/// A request as it arrives.
#[derive(PartialEq, Eq, Hash, Drop)]
pub struct Request {
    pub method: Text,
    pub scheme: Scheme,
    /// The address and the port to which the connection was made.
    pub server: Addr,
    pub port: u16,
    /// The name of the Host header, without a port; empty where there is none.
    pub host: Text,
    /// The address from which the connection was made.
    pub client: Addr,
    /// The headers but for Host.
    pub headers: List<Header>,
    /// The path and the query, as they are written.
    pub target: Text,
}

/// A request at the server that answers it.
#[derive(Drop)]
pub struct Caller {
    pub request: Request,
    /// SERVER_NAME (Apache manual, mod_rewrite, RewriteCond).
    pub name: Text,
}

/// What an expression sees of a request (Apache manual, "Expressions in Apache HTTP Server").
#[derive(Drop)]
pub struct View {
    pub caller: Caller,
    /// The URL path of the pass.
    pub path: Text,
    pub query: Text,
    /// The file name.
    pub name: Text,
}

impl Clone for Request {
    ghost is_clone = { λ request copy. copy ≡ request };

    fn clone(&self) -> Result<Request, NoMemory> {
        Ok(Request {
            method: self.method.clone()?,
            scheme: self.scheme,
            server: self.server,
            port: self.port,
            host: self.host.clone()?,
            client: self.client,
            headers: self.headers.copy()?,
            target: self.target.clone()?,
        })
    }
}

impl Clone for Caller {
    ghost is_clone = { λ caller copy. copy ≡ caller };

    fn clone(&self) -> Result<Caller, NoMemory> {
        Ok(Caller {
            name: self.name.clone()?,
            request: self.request.clone()?,
        })
    }
}

impl Clone for View {
    ghost is_clone = { λ view copy. copy ≡ view };

    fn clone(&self) -> Result<View, NoMemory> {
        Ok(View {
            path: self.path.clone()?,
            query: self.query.clone()?,
            name: self.name.clone()?,
            caller: self.caller.clone()?,
        })
    }
}
