//! Request targets and escaped paths: what each target is read as, and how each class of bytes is escaped.

use hc_base::NoMemory;
use hc_base::paths::begins_with_slash;
use hc_target::{TargetRead, escape_path, read_target};
use std::alloc::Global;
use std::process::Abort;

// What a target is read as: the path and the query with `?` between them, or the name of another answer.
fn show_read(alloc: Global, target: &[u8]) -> Result<Vec<u8>, NoMemory> {
    if !begins_with_slash(target) {
        return Vec::from_slice(alloc, b"relative");
    }
    match read_target(alloc, target)? {
        TargetRead::Path { path, query } => {
            let mut shown = path.into_vec();
            shown.push(b'?')?;
            shown.extend_from_slice(query.as_bytes())?;
            Ok(shown)
        }
        TargetRead::Bad400 => Vec::from_slice(alloc, b"400"),
        TargetRead::Miss404 => Vec::from_slice(alloc, b"404"),
        TargetRead::PathByte => Vec::from_slice(alloc, b"byte"),
    }
}

// A target, and what it is read as.
static READ: &[(&[u8], &[u8])] = &[
    (b"/", b"/?"),
    (b"/image/a.gif", b"/image/a.gif?"),
    (b"/a/./b", b"/a/b?"),
    (b"/a/../b", b"/b?"),
    (b"/a/..", b"/?"),
    (b"/a/b/..", b"/a/?"),
    (b"/a/.", b"/a/?"),
    (b"/.", b"/?"),
    (b"/a/...", b"/a/...?"),
    (b"/a/.b/..c", b"/a/.b/..c?"),
    (b"/..", b"400"),
    (b"/a/../../b", b"400"),
    (b"/../a", b"400"),
    (b"//a///b/", b"/a/b/?"),
    (b"//", b"/?"),
    (b"//..", b"400"),
    (b"/a//..", b"/?"),
    (b"/%2e%2e/", b"400"),
    (b"/a/%2E%2e/b", b"/b?"),
    (b"/a/%2e", b"/a/?"),
    (b"/%61%62", b"/ab?"),
    (b"/a%2Fb", b"404"),
    (b"/a%2fb", b"404"),
    (b"/../%2f", b"404"),
    (b"/a%2fb%zz", b"400"),
    (b"/a%2fb%00", b"404"),
    (b"/%00", b"byte"),
    (b"/a%20b", b"byte"),
    (b"/a b", b"byte"),
    (b"/%7f", b"byte"),
    (b"/\x1f", b"byte"),
    (b"/%25", b"byte"),
    (b"/%3f", b"byte"),
    (b"/%23", b"byte"),
    (b"/#", b"byte"),
    (b"/../%23", b"byte"),
    (b"/%252f", b"byte"),
    (b"/a+b", b"/a+b?"),
    (b"/%2b", b"/+?"),
    (b"/%c3%a9", b"/\xc3\xa9?"),
    (b"/%80%Ff", b"/\x80\xff?"),
    (b"/\xc3\xa9", b"/\xc3\xa9?"),
    (
        b"/~a!$&'()*,;=:@|\"<>[]^`{}\\",
        b"/~a!$&'()*,;=:@|\"<>[]^`{}\\?",
    ),
    (b"/x?", b"/x?"),
    (b"/x?a=b?c%zz", b"/x?a=b?c%zz"),
    (b"/x?/../ \x00#", b"/x?/../ \x00#"),
    (b"/a/..?q", b"/?q"),
    (b"/%zz?%2f", b"400"),
    (b"/%4", b"400"),
    (b"/%", b"400"),
    (b"/%%41", b"400"),
    (b"/%4g", b"400"),
    (b"/%4?1", b"400"),
];

#[test]
fn targets_are_read(rt: HostRuntime) -> Result<(), NoMemory> {
    for &(target, want) in READ {
        let shown = show_read(rt.alloc(), target)?;
        assert!(rt; shown.as_slice() == want);
    }
    Ok(())
}

// The unit that many times, behind a slash.
fn long_target(alloc: Global, unit: &[u8], count: usize) -> Result<Vec<u8>, NoMemory> {
    let mut target = Vec::from_slice(alloc, b"/")?;
    target.extend_from_slice(&unit.repeat(alloc, count)?)?;
    Ok(target)
}

// The program takes at most 8,190 bytes of a target.
#[test]
fn long_targets_are_read(rt: HostRuntime) -> Result<(), NoMemory> {
    // a unit, how many of it stand in the target, and what each is read as
    static ROWS: &[(&[u8], usize, &[u8])] = &[
        (b"a", 8189, b"a"),
        (b"a/", 4094, b"a/"),
        (b"a/../", 1637, b""),
        (b"%61", 2729, b"a"),
    ];
    for &(unit, count, read) in ROWS {
        let shown = show_read(rt.alloc(), &long_target(rt.alloc(), unit, count)?)?;
        let mut wanted = long_target(rt.alloc(), read, count)?;
        wanted.push(b'?')?;
        assert!(rt; shown.as_slice() == wanted.as_slice());
    }
    Ok(())
}

#[test]
fn paths_are_escaped(rt: HostRuntime) -> Result<(), NoMemory> {
    static ROWS: &[(&[u8], &[u8])] = &[
        (b"", b""),
        (b"/image/a.gif", b"/image/a.gif"),
        (b"azAZ09", b"azAZ09"),
        (b"$-_.+!*'(),:;@&=/~", b"$-_.+!*'(),:;@&=/~"),
        (b"%?#", b"%25%3f%23"),
        (b"\"<>[\\]^`{|}", b"%22%3c%3e%5b%5c%5d%5e%60%7b%7c%7d"),
        (b"\x00\x1f \x7f", b"%00%1f%20%7f"),
        (b"\x80\xab\xff", b"%80%ab%ff"),
        (b"/%2f", b"/%252f"),
    ];
    for &(text, want) in ROWS {
        let escaped = escape_path(rt.alloc(), text)?;
        assert!(rt; escaped.as_bytes() == want);
    }
    Ok(())
}
