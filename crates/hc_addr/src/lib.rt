//! Internet addresses and networks in text: read, compared and printed.
//! Apache manual, mod_authz_host, "Require ip"; what isn't said there is our own choice.
//!
//! `parse_addr` and `parse_net` read exactly the addresses and networks of docs/RULES.md and refuse every other
//! text, `number_up_to` a decimal number, `holds` says whether a network holds an address, and `print_addr` prints
//! one; `laws::a_printed_address_is_read_back`: what is printed is read as the same address.
#![tactic(auto)]

mod addr;
pub mod laws;
mod net;
mod numbers;
mod print;
mod sizes;

pub use addr::{Addr, parse_addr};
pub use net::{BadAddress, Net, holds, parse_net};
pub use numbers::number_up_to;
pub use print::print_addr;
pub use sizes::HIGHEST_PORT;
