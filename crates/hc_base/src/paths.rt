ghost use Rattle.std.specs.Prelude.{◌≡◌, IfOk};
ghost use Rattle.hc_base.specs.Paths.{begins_with_slash, ends_with_slash, has_dots, is_dots, merge_slashes};
ghost use Rattle.hc_base.specs.Paths.{without_final_slash};

use crate::bytes::{begins_with, ends_with};
use crate::{NoMemory, Text};
use std::alloc::Global;

pub fn begins_with_slash(path: &[u8]) -> bool
    ensures { result ≡ begins_with_slash path.now }
{
    begins_with(path, b'/')
}

pub fn ends_with_slash(path: &[u8]) -> bool
    ensures { result ≡ ends_with_slash path.now }
{
    ends_with(path, b'/')
}

/// The segment of a path is `.` or `..`.
pub fn is_dots(segment: &[u8]) -> bool
    ensures { result ≡ is_dots segment.now }
{
    matches!(segment, [b'.'] | [b'.', b'.'])
}

/// A segment of the path is `.` or `..`.
pub fn has_dots(path: &[u8]) -> bool
    ensures { result ≡ has_dots path.now }
{
    path.split(|byte| *byte == b'/').any(is_dots)
}

/// The bytes with each run of slashes as one.
pub fn merge_slashes(alloc: Global, bytes: &[u8]) -> Result<Text, NoMemory>
    ensures { IfOk result (λ merged. merged ≡ merge_slashes bytes.now) }
{
    let mut merged = Vec::new(alloc);
    for (index, byte) in bytes.iter().enumerate() {
        if *byte != b'/' || !begins_with_slash(&bytes[index + 1..]) {
            merged.push(*byte)?;
        }
    }
    Ok(Text::from(merged))
}

/// A final slash is dropped, but for `/`.
pub fn without_final_slash(path: &[u8]) -> &[u8]
    ensures { result.now ≡ without_final_slash path.now }
{
    if path.len() > 1 && ends_with_slash(path) {
        path.split_at(path.len() - 1).0
    } else {
        path
    }
}
