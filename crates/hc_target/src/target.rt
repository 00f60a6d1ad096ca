ghost use Rattle.std.specs.Prelude.{◌≡◌, true, IfOk};
ghost use Rattle.std.specs.List.{after_first, before_first, list_all, position};
ghost use Rattle.percent_encoding.specs.Percent.{percent_decode};
ghost use Rattle.hc_base.specs.Paths.{begins_with_slash};
ghost use Rattle.hc_target.specs.Segments.{is_plain};
ghost use Rattle.hc_base.specs.Bytes.{is_question};
ghost use Rattle.hc_target.specs.Targets.{HasNormalPath, read, read_decoded, read_sent};

use crate::escape::{escapes_slash, has_bad_escape};
use crate::segments::normal_path;
use hc_base::bytes::DELETE;
use hc_base::{NoMemory, Text};
use percent_encoding::percent_decode;
use std::alloc::Global;

/// What a request target is read as.
#[derive(Clone, Drop)]
pub enum TargetRead {
    /// The normal path that it asks for, decoded, and the bytes behind its first `?` as they stand.
    Path { path: Text, query: Text },
    /// A bad escape, or a path above the root: the status is 400.
    Bad400,
    /// An escaped slash: the status is 404.
    Miss404,
    /// A byte of the path that isn't answered: a blank, a control, `%`, `?` or `#`, decoded.
    PathByte,
}

fn is_plain(byte: u8) -> bool
    ensures { result ≡ is_plain byte }
{
    byte > b' ' && !matches!(byte, DELETE | b'%' | b'?' | b'#')
}

fn has_plain_bytes(path: &[u8]) -> bool
    ensures { result ≡ list_all is_plain path.now }
{
    path.iter().all(|byte| is_plain(*byte))
}

/// The place of the first `?`.
fn find_question(target: &[u8]) -> Option<usize>
    ensures { result ≡ position is_question target.now }
{
    target.iter().position(|byte| *byte == b'?')
}

/// The path before the first `?`, and the query behind it.
fn split_query(target: &[u8]) -> (&[u8], &[u8])
    ensures path { result.0.now ≡ before_first is_question target.now }
    ensures query { result.1.now ≡ after_first is_question target.now }
{
    match find_question(target) {
        Some(place) => (&target[..place], &target[place + 1..]),
        None => (target, &[]),
    }
}

/// The answer for a path without escapes.
fn read_decoded(alloc: Global, path: &[u8], query: &[u8]) -> Result<TargetRead, NoMemory>
    ensures { IfOk result (λ answer. answer ≡ read_decoded path.now query.now) }
{
    if !has_plain_bytes(path) {
        return Ok(TargetRead::PathByte);
    }
    match normal_path(alloc, path)? {
        Some(path) => Ok(TargetRead::Path {
            path,
            query: Text::copy_of(alloc, query)?,
        }),
        None => Ok(TargetRead::Bad400),
    }
}

/// The answer for a path as it was sent.
fn read_sent(alloc: Global, path: &[u8], query: &[u8]) -> Result<TargetRead, NoMemory>
    ensures { IfOk result (λ answer. answer ≡ read_sent path.now query.now) }
{
    if has_bad_escape(path) {
        return Ok(TargetRead::Bad400);
    }
    if escapes_slash(path) {
        return Ok(TargetRead::Miss404);
    }
    let mut decoded = Vec::new(alloc);
    percent_decode(path).append_to(&mut decoded)?;
    read_decoded(alloc, &decoded, query)
}

/// What the target asks for. A bad escape is told first, then an escaped slash, then a byte that
/// isn't answered, and then a path above the root. `NoMemory` where memory is refused.
pub fn read_target(alloc: Global, target: &[u8]) -> Result<TargetRead, NoMemory>
    requires { begins_with_slash target.now ≡ true }
    ensures value { IfOk result (λ answer. answer ≡ read target.now) }
    ensures normal { IfOk result HasNormalPath }
{
    let (path, query) = split_query(target);
    read_sent(alloc, path, query)
}
