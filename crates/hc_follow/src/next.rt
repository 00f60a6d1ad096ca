//! The request that follows a redirect.
ghost use Rattle.std.specs.Prelude.{◌≡◌, ◌≤◌, IfOk, length, not};
ghost use Rattle.std.specs.List.{prefix_len};
ghost use Rattle.hc_follow.specs.Next.{is_hash, method_behind, next_request, sent, sent_to, slashed, target_in};

use crate::origin::Origin;
use hc_base::paths::begins_with_slash;
use hc_base::{NoMemory, Text};
use hc_forms::is_target;
use hc_model::{Outcome, Request};
use std::alloc::Global;

/// The status that a GET follows (RFC 9110, section 15.4.4).
pub const SEE_OTHER: u16 = 303;

/// Why a chain halts.
#[derive(Clone, Copy, PartialEq, Eq)]
pub enum Stop {
    /// What is received is no redirect.
    Ended,
    /// The location is of no own server.
    Away,
    /// What stands behind the origin is no target.
    BadTarget,
    /// There are too many steps.
    TooMany,
}

/// What follows an outcome.
#[derive(Drop)]
pub enum Next {
    Go(Request),
    Halt(Stop),
}

/// The request that follows an outcome, among these own servers, of which the first one counts whose URLs begin
/// as the location does. What isn't said by the location stays as it was: the address of the server, the client
/// and the headers.
pub fn next_request(
    alloc: Global,
    hosts: &[Origin],
    from: &Request,
    outcome: &Outcome,
) -> Result<Next, NoMemory>
    ensures { IfOk result (λ next. next ≡ next_request hosts.now from.now outcome.now) }
{
    match outcome {
        Outcome::Redirect { status, location } => {
            sent_to(alloc, from, *status, hosts, location.as_bytes())
        },
        _ => Ok(Next::Halt(Stop::Ended)),
    }
}

fn sent_to(
    alloc: Global,
    from: &Request,
    status: u16,
    hosts: &[Origin],
    location: &[u8],
) -> Result<Next, NoMemory>
    ensures { IfOk result (λ next. next ≡ sent_to from.now status hosts.now location.now) }
{
    for origin in hosts {
        if let Some(rest) = origin.behind(alloc, location)? {
            return sent(alloc, from, status, origin, rest);
        }
    }
    Ok(Next::Halt(Stop::Away))
}

fn sent(
    alloc: Global,
    from: &Request,
    status: u16,
    origin: &Origin,
    rest: &[u8],
) -> Result<Next, NoMemory>
    ensures { IfOk result (λ next. next ≡ sent from.now status origin.now rest.now) }
{
    let target = target_in(alloc, rest)?;
    if !is_target(target.as_bytes()) {
        return Ok(Next::Halt(Stop::BadTarget));
    }
    Ok(Next::Go(Request {
        method: method_behind(alloc, status, &from.method)?,
        scheme: origin.scheme,
        server: from.server,
        port: origin.port,
        host: origin.host.clone()?,
        client: from.client,
        headers: from.headers.copy()?,
        target,
    }))
}

// Up to a fragment, and with a slash before it.
fn target_in(alloc: Global, rest: &[u8]) -> Result<Text, NoMemory>
    ensures { IfOk result (λ target. target ≡ target_in rest.now) }
{
    slashed(alloc, &rest[..fragment_start(rest)])
}

fn fragment_start(rest: &[u8]) -> usize
    ensures value { result ≡ prefix_len (λ b. not (is_hash b)) rest.now }
    ensures within { result ≤ length rest.now }
{
    rest.iter().take_while(|byte| **byte != b'#').count()
}

fn slashed(alloc: Global, text: &[u8]) -> Result<Text, NoMemory>
    ensures { IfOk result (λ made. made ≡ slashed text.now) }
{
    let mut made = Vec::new(alloc);
    if !begins_with_slash(text) {
        made.push(b'/')?;
    }
    made.extend_from_slice(text)?;
    Ok(Text::from(made))
}

fn method_behind(alloc: Global, status: u16, method: &Text) -> Result<Text, NoMemory>
    ensures { IfOk result (λ made. made ≡ method_behind status method.now) }
{
    if status == SEE_OTHER {
        Text::copy_of(alloc, b"GET")
    } else {
        method.clone()
    }
}
