//! Which server answers a request (Apache manual, "Name-based Virtual Host Support").
//!
//! `choose` gives the server that answers a connection to an address and a port for a name of the Host header
//! (`chosen` in specs/Choice.antt): of the virtual hosts there, else of those with `*` and that port, the first
//! that has the name, else the first; else the main server.
#![tactic(auto)]

mod choice;
mod name;
mod servers;

pub use choice::choose;
pub use servers::server_at;
