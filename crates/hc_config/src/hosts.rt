ghost use Rattle.std.specs.Prelude.{◌≡◌, ◌<◌, length, IfSome, Some};
ghost use Rattle.std.specs.List.{position};
ghost use Rattle.hc_base.specs.Gives.{Gives};
ghost use Rattle.hc_addr.specs.Numbers.{is_colon};
ghost use Rattle.hc_config.specs.Hosts.{address_of, host_addr_at, host_addr_of, host_addrs, is_any};
ghost use Rattle.hc_config.specs.Hosts.{name_without_port, port_of};

use crate::effect::EffectFault;
use hc_addr::{Addr, HIGHEST_PORT, number_up_to, parse_addr};
use hc_base::codes::VHOST_ADDRESS;
use hc_base::{AtByte, CowStr, Fault, List};
use hc_model::HostAddr;
use std::alloc::Global;

/// The addresses of a `<VirtualHost>` (Apache manual, core): each IPv4, `*` or `_default_`, with a port.
pub(crate) fn host_addrs(alloc: Global, words: &[CowStr]) -> Result<List<HostAddr>, EffectFault>
    ensures { Gives result (host_addrs words.now) }
{
    let mut addresses = List::new(alloc);
    for word in words {
        let Some(address) = host_addr_of(word.as_str().as_bytes()) else {
            return Err(Fault::Refused(AtByte::rule(VHOST_ADDRESS)));
        };
        addresses.push(address)?;
    }
    Ok(addresses)
}

fn host_addr_of(word: &[u8]) -> Option<HostAddr>
    ensures { result ≡ host_addr_of word.now }
{
    match colon_of(word) {
        Some(colon) => host_addr_at(colon, word),
        None => None,
    }
}

// An address, a colon at this place, and a port.
fn host_addr_at(colon: usize, word: &[u8]) -> Option<HostAddr>
    requires { colon < length word.now }
    ensures { result ≡ host_addr_at (Some colon) word.now }
{
    let (address, _) = word.split_at(colon);
    let (_, port) = word.split_at(colon + 1);
    match (address_of(address), port_of(port)) {
        (Some(addr), Some(port)) => Some(HostAddr { addr, port }),
        _ => None,
    }
}

fn colon_of(word: &[u8]) -> Option<usize>
    ensures value { result ≡ position is_colon word.now }
    ensures within { IfSome result (λ colon. colon < length word.now) }
{
    word.iter().position(|byte| *byte == b':')
}

// `*` and `_default_` stand for any address.
fn address_of(text: &[u8]) -> Option<Option<u32>>
    ensures { result ≡ address_of text.now }
{
    if is_any(text) {
        return Some(None);
    }
    match parse_addr(text) {
        Some(Addr::V4(number)) => Some(Some(number)),
        _ => None,
    }
}

fn is_any(text: &[u8]) -> bool
    ensures { result ≡ is_any text.now }
{
    text == b"*".as_slice() || text.eq_ignore_ascii_case(b"_default_")
}

fn port_of(text: &[u8]) -> Option<u16>
    ensures { result ≡ port_of text.now }
{
    match number_up_to(text, HIGHEST_PORT) {
        Some(port) if port != 0 => Some(port as u16),
        _ => None,
    }
}

/// What stands before the first colon: a ServerName without its port.
pub(crate) fn name_without_port(name: &[u8]) -> &[u8]
    ensures { result.now ≡ name_without_port name.now }
{
    match colon_of(name) {
        Some(colon) => name.split_at(colon).0,
        None => name,
    }
}
