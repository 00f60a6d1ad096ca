//! The client of a network of one address.
ghost use Rattle.std.specs.Prelude.{◌≡◌};
ghost use Rattle.hc_abs_start.specs.Starts.{is_whole, sole_client, whole_mask};

use hc_addr::{Addr, Net};

/// The client, where the network has one address alone.
pub fn sole_client(net: &Net) -> Option<Addr>
    ensures { result ≡ sole_client net.now }
{
    if is_whole(net.addr, net.mask) {
        Some(net.addr)
    } else {
        None
    }
}

/// A mask that leaves no other address of the family.
fn is_whole(addr: Addr, mask: u128) -> bool
    ensures { result ≡ is_whole addr mask }
{
    mask == whole_mask(addr)
}

fn whole_mask(addr: Addr) -> u128
    ensures { result ≡ whole_mask addr }
{
    match addr {
        Addr::V4(_) => u128::from(u32::MAX),
        Addr::V6(_) => u128::MAX,
    }
}
