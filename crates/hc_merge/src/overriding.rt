ghost use Rattle.std.specs.Prelude.{◌≡◌, filter, IfOk, map};
ghost use Rattle.std.specs.List.{flat_map};
ghost use Rattle.hc_merge.specs.CandidateView.{sections_view};
ghost use Rattle.hc_merge.specs.Candidates.{is_of, sections_at};
ghost use Rattle.hc_merge.specs.Overriding as definition;
ghost use Rattle.hc_merge.specs.Overriding.{allowed_behind, allows_nothing, nothing_allowed, wanted, wanted_by};
ghost use Rattle.hc_merge.specs.WantedView.{loaded_of};
ghost use Rattle.hc_model.specs.World.{parents};
ghost use Rattle.hc_vhost.specs.Servers.{IsHostOf};

use crate::sections::{Sections, is_glob_of};
use hc_base::{NoMemory, Text};
use hc_model::{Allowed, Config, HostId, Section, Walk};
use std::alloc::Global;

/// A directory of a walk whose `.htaccess` is read, and what is allowed there.
#[derive(Clone, Copy)]
pub struct Wanted<'w> {
    pub dir: &'w Text,
    pub allowed: Allowed,
}

pub(crate) const NOTHING_ALLOWED: Allowed = Allowed {
    auth: false,
    file_info: false,
    indexes: false,
    limit: false,
    options: false,
};

/// What may stand in a `.htaccess` of a directory (Apache manual, core, AllowOverride): by the sections
/// of it and of those above it, the last of which counts.
pub fn allowed(
    alloc: Global,
    config: &Config,
    host: HostId,
    dir: &[u8],
) -> Result<Allowed, NoMemory>
    requires { IsHostOf config.now host }
    ensures { IfOk result (λ allowed. allowed ≡ definition.allowed config.now host dir.now) }
{
    let sections = Sections::of(config, host);
    let above = allowed_above(alloc, sections, dir)?;
    allowed_at(alloc, sections, dir, above)
}

pub(crate) fn allows_nothing(allowed: Allowed) -> bool
    ensures { result ≡ allows_nothing allowed }
{
    !(allowed.auth || allowed.file_info || allowed.indexes || allowed.limit || allowed.options)
}

/// The directories of a walk whose `.htaccess` is read, from `/` down: those in which something is allowed.
pub fn wanted_by<'w>(
    alloc: Global,
    config: &Config,
    host: HostId,
    walk: &'w Walk,
) -> Result<Vec<Wanted<'w>>, NoMemory>
    requires { IsHostOf config.now host }
    ensures { IfOk result (λ wanted. map loaded_of wanted.items ≡ wanted_by config.now host walk.now.dirs) }
{
    wanted_among(alloc, Sections::of(config, host), walk.dirs.as_slice())
}

fn wanted_among<'w>(
    alloc: Global,
    sections: Sections<'_>,
    dirs: &'w [Text],
) -> Result<Vec<Wanted<'w>>, NoMemory>
    ensures { IfOk result (λ list. map loaded_of list.items
        ≡ wanted (sections_view sections.entry) nothing_allowed dirs.now) }
{
    let mut list = Vec::new(alloc);
    let mut allowed = NOTHING_ALLOWED;
    for dir in dirs {
        allowed = allowed_at(alloc, sections, dir.as_bytes(), allowed)?;
        if allows_nothing(allowed) {
            continue;
        }
        list.push(Wanted { dir, allowed })?;
    }
    Ok(list)
}

fn allowed_above(alloc: Global, sections: Sections<'_>, dir: &[u8]) -> Result<Allowed, NoMemory>
    ensures { IfOk result (λ allowed. allowed
        ≡ allowed_behind nothing_allowed (flat_map (sections_at (sections_view sections.entry)) (parents dir.now))) }
{
    if dir.len() <= 1 {
        return Ok(NOTHING_ALLOWED);
    }
    let mut allowed = allowed_at(alloc, sections, b"/", NOTHING_ALLOWED)?;
    for at in 1..dir.len() {
        if dir[at] != b'/' {
            continue;
        }
        allowed = allowed_at(alloc, sections, dir.split_at(at).0, allowed)?;
    }
    Ok(allowed)
}

fn allowed_at(
    alloc: Global,
    sections: Sections<'_>,
    dir: &[u8],
    so_far: Allowed,
) -> Result<Allowed, NoMemory>
    ensures { IfOk result (λ allowed. allowed
        ≡ allowed_behind so_far (sections_at (sections_view sections.entry) dir.now)) }
{
    let allowed = allowed_among(alloc, sections.main, dir, so_far)?;
    match sections.host {
        Some(host) => allowed_among(alloc, host, dir, allowed),
        None => Ok(allowed),
    }
}

fn allowed_among(
    alloc: Global,
    sections: &[Section],
    dir: &[u8],
    so_far: Allowed,
) -> Result<Allowed, NoMemory>
    ensures { IfOk result (λ allowed. allowed ≡ allowed_behind so_far (filter (is_of dir.now) sections.now)) }
{
    let mut allowed = so_far;
    for section in sections {
        if !is_glob_of(alloc, dir, &section.reach)? {
            continue;
        }
        allowed = section.body.allow.unwrap_or(allowed);
    }
    Ok(allowed)
}
