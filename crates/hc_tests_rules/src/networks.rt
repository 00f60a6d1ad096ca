//! Which texts are an address of a network.

use hc_addr::parse_net;
use hc_base::NoMemory;
use hc_net_sets::addresses;
use std::process::Abort;

// A network, a text, and whether the text is one of its addresses.
static ROWS: &[(&str, &str, bool)] = &[
    ("10.0.0.0/8", "10.1.2.3", true),
    ("10.0.0.0/8", "010.001.02.3", true),
    ("10.0.0.0/8", "11.1.2.3", false),
    ("10.0.0.0/8", "10.1.2", false),
    ("10.0.0.0/8", "10.1.2.256", false),
    ("10.0.0.0/8", "10.1.2.0003", false),
    ("10.0.0.0/8", "::10.1.2.3", false),
    ("192.0.2.16/28", "192.0.2.31", true),
    ("192.0.2.16/28", "192.0.2.32", false),
    ("192.0.2.9/255.255.0.255", "192.0.77.9", true),
    ("192.0.2.9/255.255.0.255", "192.0.77.8", false),
    ("192.0.2.9/0", "0.0.0.0", true),
    ("192.0.2.9/0", "::", false),
    ("::1", "::1", true),
    ("::1", "0:0:0:0:0:0:0:1", true),
    ("::1", "0000::0001", true),
    ("::1", "0:0:0:0:0:0:0:0:1", false),
    ("::1", ":::1", false),
    ("::1", "::1.0.0.0", false),
    ("fe80::/10", "FE80::A", true),
    ("fe80::/10", "febf:1:2:3:4:5:6:7", true),
    ("fe80::/10", "fec0::a", false),
    ("fe80::/10", "fe80:::a", false),
    ("2001:db8::/44", "2001:0DB8:f::1", true),
    ("2001:db8::/44", "2001:db8:10::1", false),
    ("2001:db8::/44", "2001:db8:1:2:3:4:5::", true),
    ("2001:db8::/44", "2001:db8:1:2:3:4:5:6::", false),
    ("::/0", "::", true),
    ("::/0", "1:2:3:4:5:6:7:8", true),
    ("::/0", "0.0.0.0", false),
];

#[test]
fn a_network_has_its_addresses(rt: HostRuntime) -> Result<(), NoMemory> {
    for &(net, text, want) in ROWS {
        let Ok(net) = parse_net(net.as_bytes()) else {
            assert!(rt; false, "{net}");
            return Ok(());
        };
        let made = addresses(rt.alloc(), &net)?;
        assert!(rt; made.accepts(text.as_bytes()) == want, "{text}");
    }
    Ok(())
}
