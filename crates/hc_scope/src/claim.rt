ghost use Rattle.std.specs.Prelude.{◌≡◌};

use hc_addr::{Addr, Net};
use hc_base::{List, NoMemory, Place, Text};
use hc_dfa::Dfa;
use hc_model::Scheme;

/// What is claimed of every request of a scope. Our own choice.
#[derive(Clone, Drop)]
pub enum Claim {
    /// No run reaches a limit.
    Stops,
    /// The RewriteRule of this line matches no request.
    Shadowed(Place),
    /// Each request that ends with a file or directory in the set had the Require line of this place in
    /// the authorization tree of its last pass.
    Guarded { target: Dfa, by: Place },
}

/// A set of requests.
#[derive(Drop)]
pub struct Scope {
    pub scheme: Scheme,
    pub server: Addr,
    pub port: u16,
    pub host: Text,
    pub client: Net,
    pub methods: List<Text>,
    /// The paths.
    pub path: Dfa,
    pub query: Dfa,
}

impl Clone for Scope {
    ghost is_clone = { λ scope copy. copy ≡ scope };

    fn clone(&self) -> Result<Scope, NoMemory> {
        Ok(Scope {
            scheme: self.scheme,
            server: self.server,
            port: self.port,
            host: self.host.clone()?,
            client: self.client,
            methods: self.methods.copy()?,
            path: self.path.clone()?,
            query: self.query.clone()?,
        })
    }
}
