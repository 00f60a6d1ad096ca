//! What AllowOverride allows, and which `.htaccess` files are read.

use crate::configs::{config_of, world_of};
use hc_addr::Addr;
use hc_base::{List, NoMemory, Text};
use hc_merge::{Wanted, allowed, wanted_by};
use hc_model::{Allowed, Config, Kind, Walk};
use hc_vhost::choose;
use std::alloc::Global;
use std::process::Abort;
use std::test::Fail;

// 192.0.2.1
const SERVER: u32 = 0xC000_0201;

// The classes of AllowOverride that are allowed, by their first letters.
fn letters(alloc: Global, allowed: Allowed) -> Result<String, NoMemory> {
    let mut shown = String::new(alloc);
    let classes = [
        (allowed.auth, "A"),
        (allowed.file_info, "F"),
        (allowed.indexes, "I"),
        (allowed.limit, "L"),
        (allowed.options, "O"),
    ];
    for (is_allowed, letter) in classes {
        if is_allowed {
            shown.push_str(letter)?;
        }
    }
    Ok(shown)
}

const ALLOWING: &str =
    "DocumentRoot /srv\n<Directory />\nAllowOverride None\n</Directory>\n<Directory /srv>\n\
AllowOverride FileInfo Limit\n</Directory>\n<Directory /srv/*>\nAllowOverride All\n</Directory>\n\
<Directory /srv/a>\nAllowOverride Options\nAllowOverride Indexes\n</Directory>\n\
<Directory /srv/a/x>\nOptions None\n</Directory>\n<DirectoryMatch />\n</DirectoryMatch>\n\
<VirtualHost *:80>\nServerName h\n<Directory /srv/a>\nAllowOverride AuthConfig\n</Directory>\n\
<Directory /srv/b>\nAllowOverride None\n</Directory>\n</VirtualHost>\n\
<VirtualHost *:81>\n</VirtualHost>\n";

// A port, a directory, and what is allowed there.
static ALLOWED: &[(u16, &str, &str)] = &[
    (82, "/", ""),
    (82, "/srv", "FL"),
    (82, "/srv/c", "AFILO"),
    (82, "/srv/a", "I"),
    (82, "/srv/a/x", "I"),
    (82, "/srv/c/d/e", "AFILO"),
    (82, "/other", ""),
    (80, "/srv/a", "A"),
    (80, "/srv/a/x", "A"),
    (80, "/srv/b", ""),
    (80, "/srv/c", "AFILO"),
    (81, "/srv/a", "I"),
];

fn check_allowed(rt: &impl Abort, alloc: Global, config: &Config) -> Result<(), NoMemory> {
    for &(port, dir, wanted) in ALLOWED {
        let host = choose(config, Addr::V4(SERVER), port, b"h");
        let found = allowed(alloc, config, host, dir.as_bytes())?;
        assert!(rt; letters(alloc, found)?.as_str() == wanted);
    }
    Ok(())
}

#[test]
fn the_last_line_of_all_above_says_what_is_allowed(rt: HostRuntime) -> Result<(), Fail> {
    let world = world_of(rt.alloc(), ALLOWING)?;
    match config_of(rt.alloc(), &world) {
        Ok(config) => Ok(check_allowed(&rt, rt.alloc(), &config)?),
        Err(_) => panic!(&rt; "no configuration"),
    }
}

// A port, the directories of a walk, and those whose `.htaccess` is read with what is allowed there.
static WANTED: &[(u16, &[&str], &str)] = &[
    (82, &["/", "/srv", "/srv/c"], "/srv FL /srv/c AFILO "),
    (
        82,
        &["/", "/srv", "/srv/a", "/srv/a/x"],
        "/srv FL /srv/a I /srv/a/x I ",
    ),
    (80, &["/", "/srv", "/srv/b"], "/srv FL "),
    (
        80,
        &["/", "/srv", "/srv/a", "/srv/a/x"],
        "/srv FL /srv/a A /srv/a/x A ",
    ),
    (82, &["/", "/other"], ""),
];

fn shown_wanted(alloc: Global, list: &[Wanted<'_>]) -> Result<Vec<u8>, NoMemory> {
    let mut shown = Vec::new(alloc);
    for each in list {
        shown.extend_from_slice(each.dir.as_bytes())?;
        shown.push(b' ')?;
        shown.extend_from_slice(letters(alloc, each.allowed)?.as_bytes())?;
        shown.push(b' ')?;
    }
    Ok(shown)
}

fn check_wanted(rt: &impl Abort, alloc: Global, config: &Config) -> Result<(), NoMemory> {
    for &(port, dirs, wanted) in WANTED {
        let host = choose(config, Addr::V4(SERVER), port, b"h");
        let walk = walk_of(alloc, dirs, "/srv")?;
        let list = wanted_by(alloc, config, host, &walk)?;
        assert!(rt; shown_wanted(alloc, &list)?.as_slice() == wanted.as_bytes());
    }
    Ok(())
}

#[test]
fn a_file_is_wanted_where_something_is_allowed(rt: HostRuntime) -> Result<(), Fail> {
    let world = world_of(rt.alloc(), ALLOWING)?;
    match config_of(rt.alloc(), &world) {
        Ok(config) => Ok(check_wanted(&rt, rt.alloc(), &config)?),
        Err(_) => panic!(&rt; "no configuration"),
    }
}

fn texts_of(alloc: Global, words: &[&str]) -> Result<List<Text>, NoMemory> {
    let mut texts = List::new(alloc);
    for word in words {
        texts.push(Text::copy_of(alloc, word.as_bytes())?)?;
    }
    Ok(texts)
}

fn walk_of(alloc: Global, dirs: &[&str], name: &str) -> Result<Walk, NoMemory> {
    Ok(Walk {
        name: Text::copy_of(alloc, name.as_bytes())?,
        info: Text::new(alloc),
        kind: Kind::File,
        dirs: texts_of(alloc, dirs)?,
    })
}
