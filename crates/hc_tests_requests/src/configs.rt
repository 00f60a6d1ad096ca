//! Worlds of a main file, and the configurations that they make.

ghost use Rattle.std.specs.Prelude.{◌≡◌, ◌<◌};

use hc_base::{Counter, Fault};
use hc_config::{BuildFault, build};
use hc_include::flatten;
use hc_model::Config;
use hc_world::{ListKind, World, WorldFault};
use std::alloc::Global;
use std::marker::Brand;
use std::sync::ledger::{Blank, Ledger};

/// The main file of each of these worlds.
pub const MAIN_FILE: &str = "/etc/httpd/conf/httpd.conf";

/// A world with this main file, the file `/srv/f`, and two `.htaccess` files.
pub fn world_of(alloc: Global, main: &str) -> Result<World, WorldFault> {
    let mut world = World::new(alloc)?;
    put(&mut world, MAIN_FILE, main)?;
    put(&mut world, "/.htaccess", "No such line\n")?;
    put(
        &mut world,
        "/srv/.htaccess",
        "Redirect 302 /p http://two.example/p\n",
    )?;
    if world.edits() < u64::MAX {
        world.list(b"/srv/f", ListKind::File)?;
    }
    Ok(world)
}

fn put(world: &mut World, path: &str, text: &str) -> Result<(), WorldFault> {
    if world.edits() < u64::MAX {
        world.put(path.as_bytes(), text)?;
    }
    Ok(())
}

fn config_counted<L: Ledger>(
    blank: Blank,
    alloc: Global,
    world: &World,
) -> Result<Config, BuildFault>
    requires name { blank.name ≡ L.name }
    requires parts { blank.parts ≡ L.parts }
    requires whole { 0 < blank.parts }
{
    let mut bytes = Counter::<L>::new(blank);
    let flat = flatten(alloc, world, MAIN_FILE.as_bytes(), &mut bytes)?;
    build(alloc, &flat)
}

/// The configuration of a world.
pub fn config_of(alloc: Global, world: &World) -> Result<Config, BuildFault> {
    config_counted::<Brand>(Blank::new(1), alloc, world)
}

fn has_root(config: &Config, wanted: &str) -> bool {
    match &config.main.root {
        Some(root) => root.as_bytes() == wanted.as_bytes(),
        None => false,
    }
}

// Whether a main file is read, and gives this document root.
fn gives_root(alloc: Global, main: &str, root: &str) -> Result<bool, WorldFault> {
    let world = world_of(alloc, main)?;
    match config_of(alloc, &world) {
        Ok(config) => Ok(has_root(&config, root)),
        Err(Fault::Refused(_)) => Ok(false),
        Err(Fault::NoMemory) => Err(Fault::NoMemory),
    }
}

#[test]
fn a_document_root_loses_a_final_slash(rt: HostRuntime) -> Result<(), WorldFault> {
    // main files, and their document roots
    static ROWS: &[(&str, &str)] = &[
        ("DocumentRoot /srv/\n", "/srv"),
        ("DocumentRoot /srv\n", "/srv"),
        ("DocumentRoot /\n", "/"),
        ("DocumentRoot //\n", "/"),
        ("DocumentRoot /srv//\n", "/srv/"),
        ("DocumentRoot \"/a b/\"\n", "/a b"),
        ("DocumentRoot /a/\nDocumentRoot /b/\n", "/b"),
    ];
    for &(main, root) in ROWS {
        assert!(rt; gives_root(rt.alloc(), main, root)?, "{main}");
    }
    Ok(())
}
