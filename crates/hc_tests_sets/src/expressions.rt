//! Expressions: how they are read, and whether they hold.

use hc_addr::Addr;
use hc_base::{AtByte, Fault, List, NoMemory, Text};
use hc_expr::{holds, parse_expr};
use hc_model::{Caller, Request, Scheme, View};
use std::alloc::Global;

const V4: Addr = Addr::V4(0x0A01_0203);

const V6: Addr = Addr::V6(0x0A01_0203);

/// A request of this client.
pub fn request(alloc: Global, client: Addr) -> Result<Request, NoMemory> {
    Ok(Request {
        method: Text::copy_of(alloc, b"GET")?,
        scheme: Scheme::Https,
        server: Addr::V4(0xC000_0201),
        port: 443,
        host: Text::copy_of(alloc, b"a.example")?,
        client,
        headers: List::new(alloc),
        target: Text::copy_of(alloc, b"/a/b.html?q=1")?,
    })
}

fn view(alloc: Global, client: Addr) -> Result<View, NoMemory> {
    Ok(View {
        path: Text::copy_of(alloc, b"/a/b.html")?,
        query: Text::copy_of(alloc, b"q=1")?,
        name: Text::copy_of(alloc, b"/srv/a/b.html")?,
        caller: Caller {
            name: Text::copy_of(alloc, b"www.example")?,
            request: request(alloc, client)?,
        },
    })
}

// Whether the expression of a text holds for a client.
fn is_so(alloc: Global, text: &str, client: Addr) -> Result<bool, Fault<AtByte>> {
    let view = view(alloc, client)?;
    let expr = parse_expr(alloc, text.as_bytes())?;
    Ok(holds(alloc, &expr, &view)?)
}

#[test]
fn expressions_hold(rt: HostRuntime) -> Result<(), Fault<AtByte>> {
    static ROWS: &[(&str, bool)] = &[
        ("true", true),
        (" \tfalse ", false),
        ("!true", false),
        ("! !true", true),
        ("true&&false", false),
        ("true || false", true),
        // `||` binds less than `&&`
        ("false && true || true", true),
        ("true || true && false", true),
        // and that less than `!`
        ("!true || true", true),
        ("!false && false", false),
        ("(true || true) && false", false),
        ("!(true && false)", true),
        ("( (true) )", true),
        // operands
        ("%{REQUEST_URI} == '/a/b.html'", true),
        ("%{request_uri}=\"/a/b.html\"", true),
        ("%{REQUEST_URI} != '/a'", true),
        ("'%{REQUEST_URI}?%{QUERY_STRING}' == '/a/b.html?q=1'", true),
        ("\"%{REQUEST_METHOD}'s\" == \"GET's\"", true),
        ("%{SERVER_PORT} == 443", true),
        ("0443 == '443'", false),
        ("'${x}$1%1\\n' == '${x}$1%1\\n'", true),
        ("'%{REQUEST_URI' == '/a/b.html'", false),
        ("'%{REQUEST_URI' != ''", true),
        // patterns
        ("%{REQUEST_FILENAME} =~ /html$/", true),
        ("%{REQUEST_FILENAME} =~ /HTML$/", false),
        ("%{REQUEST_FILENAME} =~ /HTML$/i", true),
        ("%{REQUEST_FILENAME} !~ /^b/i && true", true),
        ("'a/b' =~ /a\\x2Fb/", true),
        // networks
        ("%{REMOTE_ADDR} -ipmatch '10.1'", true),
        ("%{REMOTE_ADDR} -ipmatch \"11.0.0.0/8\"", false),
        ("'nothing' -ipmatch '0.0.0.0/0'", false),
    ];
    for &(text, wanted) in ROWS {
        assert!(rt; is_so(rt.alloc(), text, V4)? == wanted, "{text}");
    }
    Ok(())
}

#[test]
fn a_client_is_in_networks_of_its_family(rt: HostRuntime) -> Result<(), Fault<AtByte>> {
    static ROWS: &[(&str, bool, bool)] = &[
        ("%{REMOTE_ADDR} -ipmatch '0.0.0.0/0'", true, false),
        ("%{REMOTE_ADDR} -ipmatch '::/0'", false, true),
    ];
    for &(text, v4, v6) in ROWS {
        assert!(rt; is_so(rt.alloc(), text, V4)? == v4, "{text}");
        assert!(rt; is_so(rt.alloc(), text, V6)? == v6, "{text}");
    }
    Ok(())
}

fn refusal(alloc: Global, text: &str) -> Option<(u8, u32)> {
    match parse_expr(alloc, text.as_bytes()) {
        Err(Fault::Refused(AtByte { code, at })) => Some((code, at)),
        _ => None,
    }
}

#[test]
fn what_is_no_expression_is_refused(rt: HostRuntime) {
    static ROWS: &[(&str, u8, u32)] = &[
        ("", 32, 0),
        ("true true", 32, 0),
        ("(true", 32, 0),
        ("true)", 32, 0),
        ("()", 32, 0),
        ("true &&", 32, 0),
        ("|| true", 32, 0),
        ("true & true", 32, 0),
        ("trueish", 32, 0),
        ("TRUE", 32, 0),
        ("'a'", 32, 0),
        ("'a' ==", 32, 0),
        ("'a' == \"a'", 32, 0),
        ("'a' -ipmatch 10", 32, 0),
        ("%{REQUEST_URI == ''", 32, 0),
        // a slash ends the pattern
        ("'a/b' =~ /a/b/", 32, 0),
        ("%{UNKNOWN} == ''", 19, 0),
        ("'' != 'a%{UNKNOWN}'", 19, 0),
        ("'a' =~ /ab\\b/", 13, 2),
        ("'a' =~ /ab(/", 14, 2),
        ("'a' =~ /a(b*)*/", 16, 5),
        ("'10.1.2.3' -ipmatch '10.1.2.0/33'", 26, 0),
        // no expression, whatever else is wrong
        ("%{UNKNOWN} =~ /(/ ||", 32, 0),
        // the smaller code
        ("%{UNKNOWN} =~ /(/", 14, 0),
        ("'1' -ipmatch 'x' || !%{UNKNOWN} == ''", 19, 0),
        // the first of equal ones
        ("'a' =~ /ab(/ && 'a' =~ /(/", 14, 2),
        ("'a' =~ /b(/ || (%{UNKNOWN} == '' && !'a' =~ /(/)", 14, 1),
        (
            "(%{UNKNOWN} == '' || 'a' =~ /ab(/) && (true || 'a' =~ /(/)",
            14,
            2,
        ),
        ("('a' =~ /ab(/ || true) || 'a' =~ /b\\b/", 13, 1),
        (
            "'1' -ipmatch 'x' || ('a' =~ /b(/ || 'a' =~ /(/) || %{UNKNOWN} == ''",
            14,
            1,
        ),
    ];
    for &(text, code, at) in ROWS {
        assert!(rt; refusal(rt.alloc(), text) == Some((code, at)), "{text}");
    }
}

// A text of many fronts, `true` and many backs.
fn chain(alloc: Global, count: usize, front: &str, back: &str) -> Result<String, NoMemory> {
    let mut text = front.repeat(alloc, count)?;
    text.push_str("true")?;
    let backs = back.repeat(alloc, count)?;
    text.push_str(&backs)?;
    Ok(text)
}

#[test]
fn deep_expressions_are_read(rt: HostRuntime) -> Result<(), Fault<AtByte>> {
    static ROWS: &[(usize, &str, &str, bool)] = &[
        (100_001, "!", "", false),
        (100_000, "(", ")", true),
        (100_000, "true && ", "", true),
        (100_000, "false || ", "", true),
        (20_000, "!(true && ", ")", true),
        (10_000, "(true && (false || ", "))", true),
        (20_000, "(", " && true)", true),
        (20_000, "(", " && false)", false),
        (5_000, "%{REMOTE_ADDR} -ipmatch '11.0.0.0/8' || ", "", true),
        (
            5_000,
            "%{REMOTE_ADDR} -ipmatch '10.0.0.0/8' && ",
            " && false",
            false,
        ),
    ];
    for &(count, front, back, wanted) in ROWS {
        let text = chain(rt.alloc(), count, front, back)?;
        assert!(rt; is_so(rt.alloc(), &text, V4)? == wanted, "{front}");
    }
    Ok(())
}
