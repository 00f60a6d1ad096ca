ghost use Rattle.std.specs.Prelude.{◌≡◌, ◌≤◌, ◌<◌, ◌^◌, ◌-◌, position, Some, IfSome, length};
ghost use Rattle.hc_addr.specs.Addresses.{addr_of};
ghost use Rattle.hc_base.specs.Paths.{is_slash};
ghost use Rattle.hc_addr.specs.Networks.{front_mask, leading_of, unmasked_of, ones_of, mask_of, masked_of, net_at};
ghost use Rattle.hc_addr.specs.Networks.{net_of, holds_in};

use crate::addr::{Addr, has_colon, parse_addr, parse_v4, parse_v6};
use crate::numbers::{Form, NumberRow, number_up_to, read_row};
use crate::sizes::{BYTE_BITS, BYTE_VALUES, BYTES, V4_BITS, V6_BITS};

/// The addresses of one family that are this one's in each bit in which the mask is one. The other
/// bits of `addr` mean nothing. An IPv4 mask stands in the low 32 bits.
#[derive(Clone, Copy, PartialEq, Eq)]
pub struct Net {
    pub addr: Addr,
    pub mask: u128,
}

/// The text is no network.
#[derive(Clone, Copy, PartialEq, Eq)]
pub struct BadAddress;

/// The address is of the network's family, and the network's own in the bits of the mask.
/// Apache manual, mod_authz_host, "Require ip".
pub fn holds(net: &Net, addr: Addr) -> bool
    ensures { result ≡ holds_in net.now addr }
{
    match (net.addr, addr) {
        (Addr::V4(own), Addr::V4(asked)) => {
            u128::from(asked) & net.mask == u128::from(own) & net.mask
        }
        (Addr::V6(own), Addr::V6(asked)) => asked & net.mask == own & net.mask,
        _ => false,
    }
}

/// So many ones.
fn low_mask(ones: u32) -> u128
    requires { ones ≤ V6_BITS }
    ensures { result ≡ 2 ^ ones - 1 }
{
    if ones == 0 {
        0
    } else {
        u128::MAX >> (V6_BITS - ones)
    }
}

/// So many ones at the front of the width, and zeros after them.
fn front_mask(width: u32, ones: u32) -> u128
    requires within { ones ≤ width }
    requires width_fits { width ≤ V6_BITS }
    ensures { result ≡ front_mask width ones }
{
    low_mask(width) - low_mask(width - ones)
}

/// The first bytes of an IPv4 address as a network, with eight bits of the mask for each.
fn leading(row: NumberRow) -> Net
    requires fits { row.value < BYTE_VALUES ^ row.count }
    requires few { row.count ≤ BYTES }
    ensures { result ≡ leading_of row }
{
    Net {
        addr: Addr::V4((row.value * BYTE_VALUES.pow(BYTES - row.count)) as u32),
        mask: front_mask(V4_BITS, BYTE_BITS * row.count),
    }
}

/// A network with no slash: an address, or the first bytes of an IPv4 address.
fn parse_unmasked(text: &[u8]) -> Option<Net>
    ensures { result ≡ unmasked_of text.now }
{
    if has_colon(text) {
        let address = parse_v6(text)?;
        Some(Net {
            addr: Addr::V6(address),
            mask: front_mask(V6_BITS, V6_BITS),
        })
    } else {
        let row = read_row(text, Form::Dotted)?;
        Some(leading(row))
    }
}

/// A mask by how many ones are at its front, a number of any number of decimal digits.
fn parse_ones(text: &[u8], width: u32) -> Option<u128>
    requires { width ≤ V6_BITS }
    ensures { result ≡ ones_of width text.now }
{
    let ones = number_up_to(text, width)?;
    Some(front_mask(width, ones))
}

/// The mask of an address of this family.
fn parse_mask(addr: Addr, text: &[u8]) -> Option<u128>
    ensures { result ≡ mask_of addr text.now }
{
    match addr {
        Addr::V4(_) => match parse_v4(text) {
            Some(mask) => Some(u128::from(mask)),
            None => parse_ones(text, V4_BITS),
        },
        Addr::V6(_) => parse_ones(text, V6_BITS),
    }
}

/// A network with this address and this mask.
fn parse_masked(addr: &[u8], mask: &[u8]) -> Option<Net>
    ensures { result ≡ masked_of (addr_of addr.now) mask.now }
{
    let addr = parse_addr(addr)?;
    let mask = parse_mask(addr, mask)?;
    Some(Net { addr, mask })
}

/// The place of the first slash.
fn find_slash(text: &[u8]) -> Option<usize>
    ensures value { result ≡ position is_slash text.now }
    ensures within { IfSome result (λ at. at < length text.now) }
{
    text.iter().position(|byte| *byte == b'/')
}

/// A network, with a mask after its first slash, if it has one.
fn parse_parts(text: &[u8]) -> Option<Net>
    ensures { result ≡ net_at text.now (position is_slash text.now) }
{
    let Some(slash) = find_slash(text) else {
        return parse_unmasked(text);
    };
    let (addr, _) = text.split_at(slash);
    let (_, mask) = text.split_at(slash + 1);
    parse_masked(addr, mask)
}

/// The network that the text writes: an address, the first one to three numbers of an IPv4
/// address, or an address with a slash and its mask, which is a number of ones or, for IPv4, an
/// address. Apache manual, mod_authz_host, "Require ip".
///
/// `BadAddress` for every other text.
pub fn parse_net(text: &[u8]) -> Result<Net, BadAddress>
    ensures { result ≡ net_of text.now }
{
    parse_parts(text).ok_or(BadAddress)
}
