//! What the clients of a network may answer.
ghost use Rattle.std.specs.Prelude.{◌≡◌, ◌<◌, ◌≤◌, ◌^◌, true};
ghost use Rattle.hc_abs_authz.specs.Admitting.{clients_of, fits};
ghost use Rattle.hc_abs_authz.specs.Clients.{AreAnswers, ClientMay, IsLowestOpen, IsNet, MayBeOther, client_with};
ghost use Rattle.hc_abs_authz.specs.Clients.{farthest_from_loopback, is_local_to, loopback_of, mixed, number_of};
ghost use Rattle.hc_abs_authz.specs.Clients.{one_is_other, opposite_of, reaches_local, width_of, with_turned};
ghost use Rattle.hc_addr.specs.Networks.{holds_in};

use crate::answers::Answers;
use hc_addr::{Addr, Net, holds};

// The addresses of the machine itself: 127.0.0.0/8 and ::1.
const LOOPBACK_V4: Net = Net {
    addr: Addr::V4(0x7f00_0000),
    mask: 0xff00_0000,
};

const LOOPBACK_V6: Net = Net {
    addr: Addr::V6(1),
    mask: u128::MAX,
};

const V4_BITS: u32 = 32;

const V6_BITS: u32 = 128;

// How many IPv4 addresses there are.
const V4_VALUES: u128 = 1 << V4_BITS;

/// Whether they may be in another network: the client that is the nearest to it, and the farthest one.
pub(crate) fn net_answers(net: &Net, other: &Net) -> Answers
    ensures { AreAnswers (ClientMay net.now (holds_in other.now)) result }
{
    Answers {
        yes: is_nearest_in(net, other),
        no: !is_farthest_in(net, other),
    }
}

/// The answers of a test that says this of each client.
pub(crate) fn fixed_answers(net: &Net, is: bool) -> Answers
    ensures { AreAnswers (ClientMay net.now (λ client. is)) result }
{
    let _client = some_client(net);
    Answers { yes: is, no: !is }
}

/// A network has a client.
#[tactic(auto, using(crate::proofs::Networks::has_client))]
pub(crate) fn some_client(net: &Net) -> Addr
    ensures client { clients_of net.now result ≡ true }
    ensures net { IsNet net.now }
{
    client_with(net, 0)
}

/// Whether they may be the machine itself, and whether they may be another one. Where the client that is the farthest
/// from the machine's own addresses is the server, the one whose lowest open bit is turned decides.
pub(crate) fn local_answers(net: &Net, server: Addr) -> Answers
    ensures { AreAnswers (ClientMay net.now (is_local_to server)) result }
{
    Answers {
        yes: may_be_local(net, server),
        no: may_be_other(net, server),
    }
}

/// One of them may be.
fn may_be_local(net: &Net, server: Addr) -> bool
    ensures net { IsNet net.now }
    ensures value { result ≡ reaches_local net.now server }
{
    is_nearest_in(net, &LOOPBACK_V4) || is_nearest_in(net, &LOOPBACK_V6) || is_client(net, server)
}

/// The network holds the address.
fn is_client(net: &Net, addr: Addr) -> bool
    ensures { result ≡ clients_of net.now addr }
{
    let _number = number_of(addr);
    holds(net, addr)
}

/// One of them may be another one.
fn may_be_other(net: &Net, server: Addr) -> bool
    ensures { MayBeOther net.now server result }
{
    let far = farthest_from_loopback(net);
    let bits = lowest_open(net.mask, width_of(net.addr));
    one_is_other(server, far, bits)
}

/// The client that is the farthest from the machine's own addresses.
fn farthest_from_loopback(net: &Net) -> Addr
    ensures value { result ≡ farthest_from_loopback net.now }
    ensures net { IsNet net.now }
{
    client_with(net, opposite_of(loopback_of(net.addr).addr))
}

/// The machine's own addresses of the same family.
fn loopback_of(addr: Addr) -> Net
    ensures { result ≡ loopback_of addr }
{
    match addr {
        Addr::V4(_) => LOOPBACK_V4,
        Addr::V6(_) => LOOPBACK_V6,
    }
}

/// One of two clients isn't the machine itself.
fn one_is_other(server: Addr, far: Addr, bits: u128) -> bool
    ensures { result ≡ one_is_other server far bits }
{
    !is_local_to(server, far) || !is_local_to(server, with_turned(far, bits))
}

/// The client is the machine itself.
fn is_local_to(server: Addr, client: Addr) -> bool
    ensures { result ≡ is_local_to server client }
{
    holds(&LOOPBACK_V4, client) || holds(&LOOPBACK_V6, client) || client == server
}

/// How many bits an address of the family has.
fn width_of(addr: Addr) -> u32
    ensures { result ≡ width_of addr }
{
    match addr {
        Addr::V4(_) => V4_BITS,
        Addr::V6(_) => V6_BITS,
    }
}

/// The lowest bit below the width that the mask leaves open; no bit where it leaves none open.
fn lowest_open(mask: u128, width: u32) -> u128
    requires { width ≤ 128 }
    ensures { IsLowestOpen width mask result }
{
    let place = mask.trailing_ones();
    if place < width { 1 << place } else { 0 }
}

/// The address with these bits turned.
fn with_turned(addr: Addr, bits: u128) -> Addr
    ensures { result ≡ with_turned addr bits }
{
    match addr {
        Addr::V4(own) => Addr::V4(((u128::from(own) ^ bits) % V4_VALUES) as u32),
        Addr::V6(own) => Addr::V6(own ^ bits),
    }
}

/// The client that is the nearest to a network is in it.
fn is_nearest_in(net: &Net, other: &Net) -> bool
    ensures net { IsNet net.now }
    ensures other { fits other.now.addr ≡ true }
    ensures value { result ≡ holds_in other.now (client_with net.now (number_of other.now.addr)) }
{
    holds(other, client_with(net, number_of(other.addr)))
}

/// The client that is the farthest from a network is in it.
fn is_farthest_in(net: &Net, other: &Net) -> bool
    ensures { result ≡ holds_in other.now (client_with net.now (opposite_of other.now.addr)) }
{
    holds(other, client_with(net, opposite_of(other.addr)))
}

/// The client that has a number's bits where the network leaves them open.
fn client_with(net: &Net, rest: u128) -> Addr
    ensures value { result ≡ client_with net.now rest }
    ensures net { IsNet net.now }
{
    match net.addr {
        Addr::V4(own) => Addr::V4((mixed(net.mask, u128::from(own), rest) % V4_VALUES) as u32),
        Addr::V6(own) => Addr::V6(mixed(net.mask, own, rest)),
    }
}

/// The bits of the mask are the first number's, all others the second's.
fn mixed(mask: u128, own: u128, rest: u128) -> u128
    ensures { result ≡ mixed mask own rest }
{
    (own & mask) | (rest & !mask)
}

/// The number of an address, with the range of its family.
fn number_of(addr: Addr) -> u128
    ensures value { result ≡ number_of addr }
    ensures range { fits addr ≡ true }
{
    match addr {
        Addr::V4(own) => low_number(own),
        Addr::V6(own) => high_number(own),
    }
}

/// A number of 32 bits.
fn low_number(own: u32) -> u128
    ensures value { result ≡ own }
    ensures range { own < 2 ^ 32 }
{
    u128::from(own)
}

/// A number of 128 bits.
fn high_number(own: u128) -> u128
    ensures value { result ≡ own }
    ensures range { own < 2 ^ 128 }
{
    own
}

/// Its number with each bit turned.
fn opposite_of(addr: Addr) -> u128
    ensures { result ≡ opposite_of addr }
{
    match addr {
        Addr::V4(own) => u128::from(!own),
        Addr::V6(own) => !own,
    }
}
