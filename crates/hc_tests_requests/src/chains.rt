//! Chains of redirects to own servers: the request that follows a location, and how chains end.

ghost use Rattle.std.specs.Prelude.{◌≡◌, ◌<◌, true};
ghost use Rattle.hc_base.specs.Paths.{begins_with_slash};

use crate::answers::request;
use crate::configs::{config_of, world_of};
use hc_base::paths::begins_with_slash;
use hc_base::{Counter, NoMemory, Text};
use hc_follow::{Chain, Next, Origin, Stop, follow, next_request};
use hc_htaccess::PlainOverrides;
use hc_model::{Config, Outcome, Request, Scheme};
use hc_world::World;
use std::alloc::Global;
use std::marker::Brand;
use std::process::Abort;
use std::sync::ledger::{Blank, Ledger};
use std::test::Fail;

// The own servers of all rows, in their order.
fn origins(alloc: Global) -> Result<Vec<Origin>, NoMemory> {
    let mut origins = Vec::new(alloc);
    for (scheme, host, port) in [
        (Scheme::Http, "localhost", 80),
        (Scheme::Http, "localhost", 8080),
        (Scheme::Https, "localhost", 443),
        (Scheme::Https, "www.example", 8443),
        (Scheme::Http, "LOCALHOST", 80),
    ] {
        let host = Text::copy_of(alloc, host.as_bytes())?;
        origins.push(Origin { scheme, host, port })?;
    }
    Ok(origins)
}

fn stop_name(stop: Stop) -> &'static str {
    match stop {
        Stop::Ended => "ended",
        Stop::Away => "away",
        Stop::BadTarget => "bad target",
        Stop::TooMany => "too many",
    }
}

fn scheme_name(scheme: Scheme) -> &'static str {
    match scheme {
        Scheme::Http => "http",
        Scheme::Https => "https",
    }
}

fn text_of(alloc: Global, bytes: &[u8]) -> Result<String, NoMemory> {
    match str::from_utf8(bytes) {
        Ok(text) => String::from_str(alloc, text),
        Err(_) => String::from_str(alloc, "?"),
    }
}

// What follows, as `METHOD SCHEME HOST PORT TARGET`, or why nothing does.
fn shown(alloc: Global, next: &Next) -> Result<String, NoMemory> {
    match next {
        Next::Halt(stop) => String::from_str(alloc, stop_name(*stop)),
        Next::Go(request) => {
            let method = text_of(alloc, request.method.as_bytes())?;
            let scheme = scheme_name(request.scheme);
            let host = text_of(alloc, request.host.as_bytes())?;
            let target = text_of(alloc, request.target.as_bytes())?;
            let port = request.port;
            format!(in alloc; "{method} {scheme} {host} {port} {target}")
        }
    }
}

fn next_of(alloc: Global, status: u16, location: &str) -> Result<String, NoMemory> {
    let mut from = request(alloc, "other", "/from")?;
    from.method = Text::copy_of(alloc, b"POST")?;
    let location = Text::copy_of(alloc, location.as_bytes())?;
    let outcome = Outcome::Redirect { status, location };
    let next = next_request(alloc, &origins(alloc)?, &from, &outcome)?;
    shown(alloc, &next)
}

// A status, a location, and what follows.
static NEXT: &[(u16, &str, &str)] = &[
    (302, "http://localhost/b", "POST http localhost 80 /b"),
    (303, "http://localhost/b", "GET http localhost 80 /b"),
    (
        302,
        "HTTP://LocalHost:80/b?q",
        "POST http localhost 80 /b?q",
    ),
    (302, "http://localhost", "POST http localhost 80 /"),
    (302, "http://localhost?q=/", "POST http localhost 80 /?q=/"),
    (302, "http://localhost#f", "POST http localhost 80 /"),
    (302, "http://localhost/b#f?g", "POST http localhost 80 /b"),
    (302, "http://localhost//b", "POST http localhost 80 //b"),
    (
        302,
        "http://localhost:8080/b",
        "POST http localhost 8080 /b",
    ),
    (302, "https://localhost/b", "POST https localhost 443 /b"),
    (
        302,
        "https://localhost:443/b",
        "POST https localhost 443 /b",
    ),
    (
        302,
        "https://www.example:8443",
        "POST https www.example 8443 /",
    ),
    (302, "https://www.example/", "away"),
    (302, "http://localhost:443/b", "away"),
    (302, "http://localhost:080/b", "away"),
    (302, "http://localhost:/b", "away"),
    (302, "http://localhost.example/b", "away"),
    (302, "http://localhost\\b", "away"),
    (302, "http:/localhost/b", "away"),
    (302, "/b", "away"),
    (302, "", "away"),
    (302, "http://localhost/a b", "bad target"),
    (302, "http://localhost/\u{e9}", "bad target"),
];

#[test]
fn a_location_is_followed_to_own_servers(rt: HostRuntime) -> Result<(), Fail> {
    let alloc = rt.alloc();
    for &(status, location, wanted) in NEXT {
        let next = next_of(alloc, status, location)?;
        assert!(rt; next.as_bytes() == wanted.as_bytes(), "{location}: {next}");
    }
    Ok(())
}

#[test]
fn a_long_target_is_none(rt: HostRuntime) -> Result<(), Fail> {
    let alloc = rt.alloc();
    let mut location = String::from_str(alloc, "http://localhost/")?;
    for _ in 1..8_190 {
        location.push('a')?;
    }
    let longest = next_of(alloc, 302, &location)?;
    assert!(rt;
        longest
            .as_bytes()
            .starts_with(b"POST http localhost 80 /aaa")
    );
    location.push('a')?;
    let longer = next_of(alloc, 302, &location)?;
    assert!(rt; longer.as_bytes() == "bad target".as_bytes());
    Ok(())
}

#[test]
fn what_is_no_redirect_ends(rt: HostRuntime) -> Result<(), Fail> {
    let alloc = rt.alloc();
    let from = request(alloc, "localhost", "/")?;
    let next = next_request(alloc, &origins(alloc)?, &from, &Outcome::Status(403))?;
    assert!(rt; shown(alloc, &next)?.as_bytes() == "ended".as_bytes());
    Ok(())
}

// ---- chains

fn followed<E: Ledger, B: Ledger>(
    for_evals: Blank,
    for_bytes: Blank,
    alloc: Global,
    config: &Config,
    world: &World,
    request: &Request,
) -> Result<Chain, NoMemory>
    requires target { begins_with_slash request.now.target ≡ true }
    requires evals_name { for_evals.name ≡ E.name }
    requires evals_parts { for_evals.parts ≡ E.parts }
    requires evals_whole { 0 < for_evals.parts }
    requires bytes_name { for_bytes.name ≡ B.name }
    requires bytes_parts { for_bytes.parts ≡ B.parts }
    requires bytes_whole { 0 < for_bytes.parts }
{
    let mut evals = Counter::<E>::new(for_evals);
    let mut bytes = Counter::<B>::new(for_bytes);
    let mut over = PlainOverrides::new(alloc, config, world, &mut bytes);
    let hosts = origins(alloc)?;
    follow(alloc, config, world, &mut over, &hosts, request, &mut evals)
}

fn chain_in(rt: &impl Abort, alloc: Global, main: &str, target: &str) -> Result<Chain, Fail> {
    let world = world_of(alloc, main)?;
    let request = request(alloc, "localhost", target)?;
    if !begins_with_slash(request.target.as_bytes()) {
        panic!(rt; "a target without a slash");
    }
    let Ok(config) = config_of(alloc, &world) else {
        panic!(rt; "no configuration");
    };
    Ok(followed::<Brand, Brand>(
        Blank::new(1),
        Blank::new(1),
        alloc,
        &config,
        &world,
        &request,
    )?)
}

// A main file, a target, how many redirects are followed, and how the chain ends.
static CHAINS: &[(&str, &str, u32, &str)] = &[
    ("DocumentRoot /srv\n", "/f", 0, "ended"),
    (
        "DocumentRoot /srv\nRedirect permanent /a http://localhost/b\nRedirect /b http://localhost/f\n",
        "/a",
        2,
        "ended",
    ),
    (
        "DocumentRoot /srv\nRedirect /a http://localhost/b\nRedirect /b http://localhost/a\n",
        "/a",
        20,
        "too many",
    ),
    // 20 and 21 steps
    (
        "DocumentRoot /srv\nRedirectMatch ^/(a*)a$ http://localhost/$1\n",
        "/aaaaaaaaaaaaaaaaaaaa",
        20,
        "ended",
    ),
    (
        "DocumentRoot /srv\nRedirectMatch ^/(a*)a$ http://localhost/$1\n",
        "/aaaaaaaaaaaaaaaaaaaaa",
        20,
        "too many",
    ),
    // one path over two schemes
    (
        "DocumentRoot /srv\n<VirtualHost *:80>\nDocumentRoot /srv\nRedirect /f https://localhost/f\n</VirtualHost>\n\
<VirtualHost *:443>\nDocumentRoot /srv\n</VirtualHost>\n",
        "/f",
        1,
        "ended",
    ),
    (
        "DocumentRoot /srv\nRedirect /a http://two.example/\n",
        "/a",
        0,
        "away",
    ),
];

#[test]
fn chains_end(rt: HostRuntime) -> Result<(), Fail> {
    let alloc = rt.alloc();
    for &(main, target, steps, stop) in CHAINS {
        let chain = chain_in(&rt, alloc, main, target)?;
        assert!(rt; chain.steps == steps, "{main}{target}");
        assert!(rt;
            stop_name(chain.stop).as_bytes() == stop.as_bytes(),
            "{main}{target}"
        );
    }
    Ok(())
}
