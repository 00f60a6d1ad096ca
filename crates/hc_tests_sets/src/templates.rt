//! Templates: how they are read, and what they stand for.

use hc_addr::Addr;
use hc_base::{AtByte, Fault, List, NoMemory, Text};
use hc_model::{Caller, Header, Piece, Request, Scheme, Template, Var, View};
use hc_table::Variable;
use hc_template::{Names, Signs, ViewFilling, expand, push_port, read_template, variable_named};
use std::alloc::Global;

// The signs of rewriting.
const ALL: Signs = Signs {
    groups: true,
    conditions: true,
    names: Names::Rewriting,
    escapes: true,
    lookups: true,
};

// The signs of a redirect's target.
const GROUPS: Signs = Signs {
    groups: true,
    conditions: false,
    names: Names::NoName,
    escapes: false,
    lookups: false,
};

// The signs of a text in an expression.
const NAMES: Signs = Signs {
    groups: false,
    conditions: false,
    names: Names::Expression,
    escapes: false,
    lookups: false,
};

fn push_number(out: &mut Vec<u8>, sign: u8, number: u8) -> Result<(), NoMemory> {
    let text = format!(in *out.allocator(); "{number}")?;
    out.push(sign)?;
    out.extend_from_slice(text.as_bytes())
}

fn push_named(out: &mut Vec<u8>, sign: u8, name: &Text) -> Result<(), NoMemory> {
    out.push(sign)?;
    out.extend_from_slice(name.as_bytes())
}

fn shown_variable(variable: Variable) -> &'static str {
    match variable {
        Variable::HttpHost => "host",
        Variable::Https => "https",
        Variable::RequestUri => "uri",
        Variable::TheRequest => "line",
        _ => "other",
    }
}

fn push_variable(out: &mut Vec<u8>, var: &Var) -> Result<(), NoMemory> {
    match var {
        Var::Named(variable) => {
            out.push(b'@')?;
            out.extend_from_slice(shown_variable(*variable).as_bytes())
        }
        Var::Header(name) => push_named(out, b'H', name),
        Var::Env(name) => push_named(out, b'E', name),
    }
}

// A look-up within another, which no text gives, is shown as `?`.
fn push_piece(out: &mut Vec<u8>, piece: &Piece) -> Result<(), NoMemory> {
    match piece {
        Piece::Bytes(bytes) => out.extend_from_slice(bytes.as_bytes()),
        Piece::Group(number) => push_number(out, b'$', *number),
        Piece::CondGroup(number) => push_number(out, b'%', *number),
        Piece::Var(var) => push_variable(out, var),
        Piece::Lookup { .. } => out.extend_from_slice(b"?"),
    }
}

// The pieces, each before a bar.
fn push_pieces(out: &mut Vec<u8>, pieces: &Template) -> Result<(), NoMemory> {
    for piece in pieces.as_slice() {
        push_piece(out, piece)?;
        out.push(b'|')?;
    }
    Ok(())
}

fn push_lookup(
    out: &mut Vec<u8>,
    map: &Text,
    key: &Template,
    fallback: &Template,
) -> Result<(), NoMemory> {
    push_named(out, b'<', map)?;
    out.push(b':')?;
    push_pieces(out, key)?;
    out.push(b';')?;
    push_pieces(out, fallback)?;
    out.extend_from_slice(b">")
}

fn push_outer(out: &mut Vec<u8>, piece: &Piece) -> Result<(), NoMemory> {
    match piece {
        Piece::Lookup { map, key, fallback } => {
            push_lookup(out, map.get(), key.get(), fallback.get())
        }
        _ => push_piece(out, piece),
    }
}

// The same with look-ups.
fn shown(alloc: Global, pieces: &Template) -> Result<Vec<u8>, NoMemory> {
    let mut out = Vec::new(alloc);
    for piece in pieces.as_slice() {
        push_outer(&mut out, piece)?;
        out.push(b'|')?;
    }
    Ok(out)
}

fn read_as(alloc: Global, text: &str, signs: Signs) -> Result<Vec<u8>, NoMemory> {
    match read_template(alloc, text.as_bytes(), signs) {
        Ok(pieces) => shown(alloc, &pieces),
        Err(Fault::Refused(AtByte { code, at })) => {
            Ok(format!(in alloc; "refused {code} {at}")?.into_bytes())
        }
        Err(Fault::NoMemory) => Err(NoMemory),
    }
}

#[test]
fn templates_are_read_into_pieces(rt: HostRuntime) -> Result<(), NoMemory> {
    static ROWS: &[(&str, Signs, &str)] = &[
        ("", ALL, ""),
        ("a", ALL, "a|"),
        ("a$1b", ALL, "a|$1|b|"),
        ("$0$9", ALL, "$0|$9|"),
        ("$", ALL, "$|"),
        ("a$b$$1", ALL, "a$b$|$1|"),
        ("$10", ALL, "$1|0|"),
        ("%1%", ALL, "%1|%|"),
        ("\\$1\\\\x\\", ALL, "$1\\x\\|"),
        ("%{HTTPS}", ALL, "@https|"),
        ("a%{request_uri}b", ALL, "a|@uri|b|"),
        ("%{HTTPS", ALL, "%{HTTPS|"),
        ("%{}", ALL, "refused 19 0"),
        ("%{NO}%{HTTPS}", ALL, "refused 19 0"),
        ("%{THE_REQUEST}", ALL, "@line|"),
        ("%{THE_REQUEST}", NAMES, "refused 19 0"),
        ("%{ENV:a b}%{env:}%{http:X-Y}", ALL, "Ea b|E|HX-Y|"),
        ("%{ENV:x}", NAMES, "refused 19 0"),
        ("%{HTTP_HOST:}", ALL, "refused 19 0"),
        ("%{HTTP:a:b}", ALL, "Ha:b|"),
        ("/x/${m:$1|none}", ALL, "/x/|<m:$1|;none|>|"),
        ("${low:%{HTTP_HOST}}y", ALL, "<low:@host|;>|y|"),
        ("${a-_9:a\\}b|c\\|d|e}", ALL, "<a-_9:a}b|;c|d|e|>|"),
        ("${m:}${m:|}", ALL, "<m:;>|<m:;>|"),
        ("${m:%{HTTP:a|b}|%2}", ALL, "<m:Ha|b|;%2|>|"),
        ("$${m:$}", ALL, "$|<m:$|;>|"),
        ("${m:${n:x}}", ALL, "refused 19 0"),
        ("${m:a|${n:x}}", ALL, "refused 19 0"),
        ("${m:a", ALL, "refused 19 0"),
        ("${m:a|b", ALL, "refused 19 0"),
        ("${m:%{a}", ALL, "refused 19 0"),
        ("${m:a\\}", ALL, "refused 19 0"),
        ("${m", ALL, "refused 19 0"),
        ("${:a}", ALL, "refused 19 0"),
        ("${m!:a}", ALL, "refused 19 0"),
        ("a${m:b}", GROUPS, "a${m:b}|"),
        ("%{%{HTTPS}", ALL, "refused 19 0"),
        ("%{HTTPS}}$1", ALL, "@https|}|$1|"),
        ("$1%1%{NO}\\$2", GROUPS, "$1|%1%{NO}\\|$2|"),
        ("$1%1%{HTTPS}\\$2", NAMES, "$1%1|@https|\\$2|"),
    ];
    for &(text, signs, wanted) in ROWS {
        let read = read_as(rt.alloc(), text, signs)?;
        assert!(rt; read.as_slice() == wanted.as_bytes(), "{text}");
    }
    Ok(())
}

fn named(name: &str) -> Option<Variable> {
    match variable_named(name.as_bytes()) {
        Some(Var::Named(variable)) => Some(variable),
        _ => None,
    }
}

#[test]
fn names_of_variables(rt: HostRuntime) -> Result<(), NoMemory> {
    static ROWS: &[(&str, Option<Variable>)] = &[
        ("HTTP_HOST", Some(Variable::HttpHost)),
        ("http_user_agent", Some(Variable::HttpUserAgent)),
        ("Request_Uri", Some(Variable::RequestUri)),
        ("SERVER_PORT", Some(Variable::ServerPort)),
        ("HTTPS", Some(Variable::Https)),
        ("HTTP_COOKIE", None),
        ("THE_REQUEST", None),
        ("HTTP:", None),
        ("ENV:", None),
        ("", None),
        ("HTTPS ", None),
    ];
    for &(name, wanted) in ROWS {
        assert!(rt; named(name) == wanted, "{name}");
    }
    Ok(())
}

fn headers(alloc: Global) -> Result<List<Header>, NoMemory> {
    static ROWS: &[(&str, &str)] = &[
        ("Accept", "*/*"),
        ("user-agent", "one"),
        ("User-Agent", "two"),
    ];
    let mut headers = List::new(alloc);
    for &(name, value) in ROWS {
        headers.push(header(alloc, name, value)?)?;
    }
    Ok(headers)
}

fn header(alloc: Global, name: &str, value: &str) -> Result<Header, NoMemory> {
    Ok(Header {
        name: Text::copy_of(alloc, name.as_bytes())?,
        value: Text::copy_of(alloc, value.as_bytes())?,
    })
}

fn request(alloc: Global, scheme: Scheme) -> Result<Request, NoMemory> {
    Ok(Request {
        method: Text::copy_of(alloc, b"GET")?,
        scheme,
        server: Addr::V4(0xC000_0201),
        port: 80,
        host: Text::copy_of(alloc, b"a.example")?,
        client: Addr::V4(0x7F00_0001),
        target: Text::copy_of(alloc, b"/x?y=1")?,
        headers: headers(alloc)?,
    })
}

fn view(alloc: Global, scheme: Scheme) -> Result<View, NoMemory> {
    Ok(View {
        path: Text::copy_of(alloc, b"/x")?,
        query: Text::copy_of(alloc, b"y=1")?,
        name: Text::copy_of(alloc, b"/srv/x")?,
        caller: Caller {
            name: Text::copy_of(alloc, b"www.example")?,
            request: request(alloc, scheme)?,
        },
    })
}

fn expanded(alloc: Global, scheme: Scheme, text: &str) -> Result<Text, Fault<AtByte>> {
    let view = view(alloc, scheme)?;
    let pieces = read_template(alloc, text.as_bytes(), ALL)?;
    Ok(expand(alloc, pieces.as_slice(), &ViewFilling { view: &view })?)
}

#[test]
fn variables_have_the_values_of_a_request(rt: HostRuntime) -> Result<(), Fault<AtByte>> {
    static ROWS: &[(Scheme, &str, &str)] = &[
        (Scheme::Http, "", ""),
        (Scheme::Http, "a$1b%2c", "abc"),
        (Scheme::Http, "%{REQUEST_URI}?%{QUERY_STRING}", "/x?y=1"),
        (Scheme::Http, "%{REQUEST_FILENAME}", "/srv/x"),
        (
            Scheme::Http,
            "%{REQUEST_METHOD} %{REQUEST_SCHEME}",
            "GET http",
        ),
        (Scheme::Http, "%{HTTPS} %{HTTP_HOST}", "off a.example"),
        (Scheme::Https, "%{HTTPS} %{HTTP_HOST}", "on a.example:80"),
        (Scheme::Http, "%{HTTP_USER_AGENT},%{HTTP_REFERER},", "one,,"),
        (Scheme::Http, "%{REMOTE_ADDR}", "127.0.0.1"),
        (
            Scheme::Https,
            "%{REQUEST_SCHEME}://%{SERVER_NAME}",
            "https://www.example",
        ),
        (Scheme::Http, "%{SERVER_PORT}", "80"),
    ];
    for &(scheme, text, wanted) in ROWS {
        let given = expanded(rt.alloc(), scheme, text)?;
        assert!(rt; given.as_bytes() == wanted.as_bytes(), "{text}");
    }
    Ok(())
}

fn port_of(alloc: Global, scheme: Scheme, port: u16) -> Result<Vec<u8>, NoMemory> {
    let mut out = Vec::new(alloc);
    push_port(&mut out, scheme, port)?;
    Ok(out)
}

#[test]
fn the_default_port_is_left_out(rt: HostRuntime) -> Result<(), NoMemory> {
    static ROWS: &[(Scheme, u16, &str)] = &[
        (Scheme::Http, 80, ""),
        (Scheme::Http, 443, ":443"),
        (Scheme::Https, 443, ""),
        (Scheme::Https, 80, ":80"),
        (Scheme::Http, 0, ":0"),
    ];
    for &(scheme, port, wanted) in ROWS {
        let given = port_of(rt.alloc(), scheme, port)?;
        assert!(rt; given.as_slice() == wanted.as_bytes(), "{wanted}");
    }
    Ok(())
}
