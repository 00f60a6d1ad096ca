//! Addresses and networks: each form once, texts that are refused, and what a network holds.

use hc_addr::{Addr, BadAddress, Net, holds, parse_addr, parse_net, print_addr};
use hc_base::NoMemory;
use std::alloc::Global;
use std::process::Abort;

// That the text is read as this address, or as none.
fn check_addr(rt: &impl Abort, text: &str, want: Option<Addr>) {
    assert!(rt; parse_addr(text.as_bytes()) == want, "at {text}");
}

// That the text is read as this network, or as none.
fn check_net(rt: &impl Abort, text: &str, want: Result<Net, BadAddress>) {
    assert!(rt; parse_net(text.as_bytes()) == want, "at {text}");
}

#[test]
fn reads_addresses(rt: HostRuntime) {
    static ROWS: &[(&str, Addr)] = &[
        ("10.1.2.3", Addr::V4(0x0a01_0203)),
        ("0.0.0.0", Addr::V4(0)),
        ("255.255.255.255", Addr::V4(0xffff_ffff)),
        ("010.001.000.255", Addr::V4(0x0a01_00ff)),
        (
            "1:2:3:4:5:6:7:8",
            Addr::V6(0x1_0002_0003_0004_0005_0006_0007_0008),
        ),
        ("::", Addr::V6(0)),
        ("::1", Addr::V6(1)),
        (
            "00aB::",
            Addr::V6(0x00ab_0000_0000_0000_0000_0000_0000_0000),
        ),
        (
            "2001:DB8::ff00:42:8329",
            Addr::V6(0x2001_0db8_0000_0000_0000_ff00_0042_8329),
        ),
        (
            "1:2:3:4:5:6:7::",
            Addr::V6(0x1_0002_0003_0004_0005_0006_0007_0000),
        ),
        (
            "::2:3:4:5:6:7:8",
            Addr::V6(0x2_0003_0004_0005_0006_0007_0008),
        ),
        (
            "1:2:3::5:6:7:8",
            Addr::V6(0x1_0002_0003_0000_0005_0006_0007_0008),
        ),
    ];
    for &(text, want) in ROWS {
        check_addr(&rt, text, Some(want));
    }
}

#[test]
fn refuses_what_is_no_address(rt: HostRuntime) {
    static ROWS: &[&str] = &[
        "",
        "1.2.3",
        "1.2.3.4.5",
        "256.1.1.1",
        "1..2.3",
        "1.2.3.4 ",
        " 1.2.3.4",
        "1.2.3.4.",
        ".1.2.3",
        "0001.2.3.4",
        "+1.2.3.4",
        "1.2.3.a",
        "1.2.3.4/32",
        ":",
        ":::",
        "1::2::3",
        "12345::",
        "g::",
        "::1.2.3.4",
        "1:2:3:4::5:6:7:8",
        "1:2:3:4:5:6:7",
        "1:2:3:4:5:6:7:8:9",
        "1:2:3:4:5:6:7:8:",
        ":1::",
        "[::1]",
        "fe80::1%eth0",
    ];
    for &text in ROWS {
        check_addr(&rt, text, None);
    }
}

#[test]
fn reads_networks(rt: HostRuntime) {
    static ROWS: &[(&str, Addr, u128)] = &[
        ("10.1.2.3", Addr::V4(0x0a01_0203), 0xffff_ffff),
        ("10", Addr::V4(0x0a00_0000), 0xff00_0000),
        ("10.1", Addr::V4(0x0a01_0000), 0xffff_0000),
        ("10.1.2", Addr::V4(0x0a01_0200), 0xffff_ff00),
        ("10.1.2.3/16", Addr::V4(0x0a01_0203), 0xffff_0000),
        ("10.1.0.0/255.255.0.0", Addr::V4(0x0a01_0000), 0xffff_0000),
        ("10.0.1.0/255.0.255.0", Addr::V4(0x0a00_0100), 0xff00_ff00),
        ("0.0.0.0/0", Addr::V4(0), 0),
        ("1.2.3.4/032", Addr::V4(0x0102_0304), 0xffff_ffff),
        ("10.0.0.0/0008", Addr::V4(0x0a00_0000), 0xff00_0000),
        (
            "1.2.3.4/00000000000000000032",
            Addr::V4(0x0102_0304),
            0xffff_ffff,
        ),
        ("1.2.3.4/000", Addr::V4(0x0102_0304), 0),
        ("::1", Addr::V6(1), u128::MAX),
        (
            "2001:db8::/32",
            Addr::V6(0x2001_0db8_0000_0000_0000_0000_0000_0000),
            0xffff_ffff_0000_0000_0000_0000_0000_0000,
        ),
        ("::/0", Addr::V6(0), 0),
        ("::1/128", Addr::V6(1), u128::MAX),
        ("::1/00000000000000000128", Addr::V6(1), u128::MAX),
    ];
    for &(text, addr, mask) in ROWS {
        check_net(&rt, text, Ok(Net { addr, mask }));
    }
}

#[test]
fn refuses_what_is_no_network(rt: HostRuntime) {
    static ROWS: &[&str] = &[
        "",
        "10.",
        "10.1.",
        "256",
        "10.1/8",
        "10.0.0.0/33",
        "::/129",
        "::/00129",
        "::/340282366920938463463374607431768211456",
        "10.0.0.0/",
        "/8",
        "10.0.0.0/8/8",
        "10.0.0.0//8",
        "10.0.0.0/-1",
        "10.0.0.0/0033",
        "10.0.0.0/99999999999999999999",
        "10.0.0.0/8a",
        "10.0.0.0/99999999999999999999a",
        "10.0.0.0/8 ",
        "10.0.0.0/255.0.0",
        "10.0.0.0/ffff::",
        "::/255.0.0.0",
        "::1/",
        "1:2/16",
        "example.org",
    ];
    for &text in ROWS {
        check_net(&rt, text, Err(BadAddress));
    }
}

#[test]
fn tells_what_a_network_holds(rt: HostRuntime) {
    static ROWS: &[(&str, &str, bool)] = &[
        ("10.0.0.0/8", "10.255.0.1", true),
        ("10.0.0.0/8", "11.0.0.1", false),
        ("10.1.2.3/8", "10.9.9.9", true),
        ("10", "10.0.0.1", true),
        ("10.0.1.0/255.0.255.0", "10.77.1.99", true),
        ("10.0.1.0/255.0.255.0", "10.77.2.99", false),
        ("1.2.3.4", "1.2.3.5", false),
        ("0.0.0.0/0", "::1", false),
        ("::/0", "1.2.3.4", false),
        ("2001:db8::/32", "2001:db8:ffff::1", true),
        ("2001:db8::/32", "2001:db9::", false),
        ("::1", "::1", true),
        ("::1", "::2", false),
    ];
    for &(net, addr, want) in ROWS {
        let (Ok(read), Some(asked)) = (parse_net(net.as_bytes()), parse_addr(addr.as_bytes()))
        else {
            panic!(rt; "{net} and {addr}");
        };
        assert!(rt; holds(&read, asked) == want, "at {net} and {addr}");
    }
}

// That the address is printed so, and read back.
fn check_printed(rt: &impl Abort, alloc: Global, addr: Addr, want: &str) -> Result<(), NoMemory> {
    let printed = print_addr(alloc, addr)?;
    assert!(rt; printed.as_bytes() == want.as_bytes(), "at {want}");
    check_addr(rt, want, Some(addr));
    Ok(())
}

#[test]
fn prints_addresses(rt: HostRuntime) -> Result<(), NoMemory> {
    static ROWS: &[(Addr, &str)] = &[
        (Addr::V4(0x0a00_c801), "10.0.200.1"),
        (Addr::V4(0xffff_ffff), "255.255.255.255"),
        (Addr::V6(0), "0:0:0:0:0:0:0:0"),
        (
            Addr::V6(0x2001_0db8_0000_0000_0000_0000_0000_00ff),
            "2001:db8:0:0:0:0:0:ff",
        ),
        (
            Addr::V6(u128::MAX),
            "ffff:ffff:ffff:ffff:ffff:ffff:ffff:ffff",
        ),
    ];
    for &(addr, want) in ROWS {
        check_printed(&rt, rt.alloc(), addr, want)?;
    }
    Ok(())
}
