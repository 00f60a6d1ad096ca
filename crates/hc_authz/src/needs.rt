ghost use Rattle.std.specs.Prelude.{◌≡◌};
ghost use Rattle.std.specs.List.{list_any};
ghost use Rattle.hc_addr.specs.Networks.{holds_in};
ghost use Rattle.hc_authz.specs.Values.{is_local, is_met, is_method, method_of};

use hc_addr::{Addr, Net, holds};
use hc_base::Text;
use hc_model::{Need, Request};

// The addresses of the machine itself: 127.0.0.0/8 and ::1.
const LOOPBACK_V4: Net = Net {
    addr: Addr::V4(0x7f00_0000),
    mask: 0xff00_0000,
};

const LOOPBACK_V6: Net = Net {
    addr: Addr::V6(1),
    mask: u128::MAX,
};

/// The request is what the line asks for.
pub(crate) fn is_met(need: &Need, request: &Request) -> bool
    ensures { result ≡ is_met request.now need.now }
{
    match need {
        Need::Granted => true,
        Need::Denied => false,
        Need::Ip(nets) => is_in_some(nets.as_slice(), request.client),
        Need::Method(names) => is_one_of(request.method.as_bytes(), names.as_slice()),
        Need::Local => is_local(request),
    }
}

fn is_in_some(nets: &[Net], client: Addr) -> bool
    ensures { result ≡ list_any (λ net. holds_in net client) nets.now }
{
    nets.iter().any(|net| holds(net, client))
}

fn is_one_of(asked: &[u8], names: &[Text]) -> bool
    ensures { result ≡ list_any (is_method asked.now) names.now }
{
    names.iter().any(|name| is_method(asked, name.as_bytes()))
}

fn is_method(asked: &[u8], name: &[u8]) -> bool
    ensures { result ≡ is_method asked.now name.now }
{
    method_of(asked) == method_of(name)
}

// GET and HEAD count as one.
fn method_of(name: &[u8]) -> &[u8]
    ensures { result.now ≡ method_of name.now }
{
    if name == b"HEAD".as_slice() {
        b"GET"
    } else {
        name
    }
}

fn is_local(request: &Request) -> bool
    ensures { result ≡ is_local request.now }
{
    holds(&LOOPBACK_V4, request.client)
        || holds(&LOOPBACK_V6, request.client)
        || request.client == request.server
}
