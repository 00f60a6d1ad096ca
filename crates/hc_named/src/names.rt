//! The variables and headers that rules name.
ghost use Rattle.std.specs.Prelude.{◌≡◌, [], IfOk, OnOk, if◌then◌else◌, option_map};
ghost use Rattle.std.specs.List.{flat_map};
ghost use Rattle.hc_merge.specs.Overriding.{allows_nothing, files_read};
ghost use Rattle.hc_model.specs.Overrides.{Kept};
ghost use Rattle.hc_model.specs.World.{IsWorld};
ghost use Rattle.hc_named.specs.Gathering.{with_rules};
ghost use Rattle.hc_named.specs.Named.{AreNames, all_rules, dir_rules, file_rules};
ghost use Rattle.hc_vhost.specs.Servers.{IsHostOf};
ghost use Rattle.hc_world.specs.Places.{paths_of};
ghost use Rattle.hc_world.specs.declared.world.ListKind.TheVariants.{Dir};

use crate::gathering::Gathered;
use crate::naming::Naming;
use hc_base::{Fault, List, NoMemory, Text};
use hc_model::{Allowed, Config, HostId, HtFile, Overrides};
use hc_world::{ListKind, World};
use std::alloc::Global;

/// Names of variables and of headers, each once, in byte order.
#[derive(Drop)]
pub struct Names {
    /// With each variable those that its name gives without `REDIRECT_` in front, as a restart takes their values from
    /// these (Apache manual, mod_rewrite, RewriteRule).
    pub variables: List<Text>,
    /// In lower case.
    pub headers: List<Text>,
}

/// What the rules of a configuration name, and those of the `.htaccess` files of a world that are read for a server.
pub fn names_in<O: Overrides>(
    alloc: Global,
    config: &Config,
    host: HostId,
    world: &World,
    over: &mut O,
) -> Result<Names, NoMemory>
    requires { IsHostOf config.now host }
    ensures names { IfOk result (AreNames
        (all_rules (O.reading (O.fixed over.old)) config.now host (paths_of world.now.files Dir))) }
    ensures valid { OnOk result (IsWorld world.now.files) }
    ensures fixed { O.fixed over.new ≡ O.fixed over.old }
    ensures kept { Kept (O.loaded over.old) (O.loaded over.new) }
{
    let mut gathered = Gathered::new(alloc)?;
    config.add_to(&mut gathered)?;
    let dirs = world.paths(ListKind::Dir)?;
    add_files(alloc, config, host, dirs.as_slice(), over, &mut gathered)?;
    let names = gathered.into_names()?;
    Ok(names)
}

/// What the `.htaccess` files of directories name.
fn add_files<O: Overrides>(
    alloc: Global,
    config: &Config,
    host: HostId,
    dirs: &[Text],
    over: &mut O,
    gathered: &mut Gathered,
) -> Result<(), NoMemory>
    requires { IsHostOf config.now host }
    ensures names { OnOk result (gathered.new ≡ with_rules gathered.old
        (flat_map (dir_rules (O.reading (O.fixed over.old)) config.now host) dirs.now)) }
    ensures fixed { O.fixed over.new ≡ O.fixed over.old }
    ensures kept { Kept (O.loaded over.old) (O.loaded over.new) }
{
    for dir in dirs {
        let allowed = hc_merge::allowed(alloc, config, host, dir.as_bytes())?;
        add_wanted(dir.as_bytes(), allowed, over, gathered)?;
    }
    Ok(())
}

/// What the `.htaccess` of a directory names, where something is allowed there.
fn add_wanted<O: Overrides>(
    dir: &[u8],
    allowed: Allowed,
    over: &mut O,
    gathered: &mut Gathered,
) -> Result<(), NoMemory>
    ensures names { OnOk result (gathered.new ≡ with_rules gathered.old (if allows_nothing allowed then []
        else file_rules (files_read (O.reading (O.fixed over.old)) dir.now allowed))) }
    ensures fixed { O.fixed over.new ≡ O.fixed over.old }
    ensures kept { Kept (O.loaded over.old) (O.loaded over.new) }
{
    if allows_nothing(allowed) {
        return Ok(());
    }
    add_file(dir, allowed, over, gathered)
}

fn allows_nothing(allowed: Allowed) -> bool
    ensures { result ≡ allows_nothing allowed }
{
    !(allowed.auth || allowed.file_info || allowed.indexes || allowed.limit || allowed.options)
}

/// What the `.htaccess` of a directory names. One that is refused isn't read.
fn add_file<O: Overrides>(
    dir: &[u8],
    allowed: Allowed,
    over: &mut O,
    gathered: &mut Gathered,
) -> Result<(), NoMemory>
    ensures names { OnOk result (gathered.new ≡ with_rules gathered.old
        (file_rules (files_read (O.reading (O.fixed over.old)) dir.now allowed))) }
    ensures fixed { O.fixed over.new ≡ O.fixed over.old }
    ensures kept { Kept (O.loaded over.old) (O.loaded over.new) }
{
    match over.load(dir, allowed) {
        Ok(()) => add_found(over.get(dir, allowed), gathered),
        Err(Fault::Refused(_)) => Ok(()),
        Err(Fault::NoMemory) => Err(NoMemory),
    }
}

fn add_found(file: Option<&HtFile>, gathered: &mut Gathered) -> Result<(), NoMemory>
    ensures { OnOk result (gathered.new ≡ with_rules gathered.old
        (file_rules (option_map (λ file. file.now) file.entry))) }
{
    match file {
        Some(file) => gathered.add_each(file.body.rules.as_slice()),
        None => Ok(()),
    }
}
