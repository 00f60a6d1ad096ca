ghost use Rattle.std.specs.Prelude.{◌≡◌, IfOk, Ok};
ghost use Rattle.hc_base.specs.Gives.{Gives};
ghost use Rattle.hc_model.specs.declared.section.Reach.TheVariants.{LocationGlob};
ghost use Rattle.hc_config.specs.Among.{among_of};
ghost use Rattle.hc_config.specs.Directives.{directory_section, has_wildcards, opens, opens_as, section};
ghost use Rattle.hc_config.specs.Directives.{virtual_host};
ghost use Rattle.hc_config.specs.Sections.{directory, location, name_glob, path_glob, pattern_alone, plain_or_tilde};
ghost use Rattle.hc_config.specs.Sections.{searched};
ghost use Rattle.hc_config.specs.SectionViews.{plain_of, reach_of};

use crate::among::{Among, spot_of};
use crate::effect::{Effect, EffectFault, REFUSED};
use crate::gathered::{Opened, Opening};
use crate::hosts::host_addrs;
use hc_base::paths::without_final_slash;
use hc_base::{CowStr, NoMemory, Text};
use hc_model::{Reach, Regex};
use hc_pattern::{glob_pattern, has_wildcard, parse_pattern};
use std::alloc::Global;

/// What a section looks at (Apache manual, "Configuration Sections").
#[derive(Clone, Copy)]
pub(crate) enum Seen {
    /// `<Directory>`: the directories of a file name.
    Directory,
    /// `<Files>`: the last component of a file name.
    Files,
    /// `<Location>`: the URL path.
    Location,
}

/// `<VirtualHost address:port ..>` (core): one address or more.
pub(crate) fn virtual_host(among: &Among, words: &[CowStr]) -> Result<Effect, EffectFault>
    ensures { Gives result (virtual_host (among_of among.now) words.now) }
{
    if words.is_empty() {
        return Err(REFUSED);
    }
    let addresses = host_addrs(among.alloc, words)?;
    opens(among, Opened::Host(addresses))
}

/// `<Directory path>`, or `~` and a pattern (core). A path with wildcards is no directory of its own.
pub(crate) fn directory_section(among: &Among, words: &[CowStr]) -> Result<Effect, EffectFault>
    ensures { Gives result (directory_section (among_of among.now) words.now) }
{
    let reach = reach_by(among.alloc, Seen::Directory, words)?;
    let wild = has_wildcards(among.alloc, words)?;
    opens_as(wild, among, Opened::Reached(reach))
}

fn has_wildcards(alloc: Global, words: &[CowStr]) -> Result<bool, NoMemory>
    ensures { IfOk result (λ wild. wild ≡ has_wildcards words.now) }
{
    match words {
        [word] => has_wildcard(alloc, without_final_slash(word.as_str().as_bytes())),
        _ => Ok(false),
    }
}

/// `<Files name>` and `<Location url-path>`, or `~` and a pattern (core).
pub(crate) fn section(seen: Seen, among: &Among, words: &[CowStr]) -> Result<Effect, EffectFault>
    ensures { Gives result (section (plain_or_tilde (plain_of seen) (reach_of seen)) (among_of among.now) words.now) }
{
    let reach = reach_by(among.alloc, seen, words)?;
    opens(among, Opened::Reached(reach))
}

fn reach_by(alloc: Global, seen: Seen, words: &[CowStr]) -> Result<Reach, EffectFault>
    ensures { Gives result (plain_or_tilde (plain_of seen) (reach_of seen) words.now) }
{
    match words {
        [sign] if sign.as_str() == "~" => Err(REFUSED),
        [word] => plain(alloc, seen, word.as_str().as_bytes()),
        [sign, word] if sign.as_str() == "~" => searched(alloc, seen, word),
        _ => Err(REFUSED),
    }
}

/// `<DirectoryMatch pattern>` and its like (core).
pub(crate) fn match_section(
    seen: Seen,
    among: &Among,
    words: &[CowStr],
) -> Result<Effect, EffectFault>
    ensures { Gives result (section (pattern_alone (reach_of seen)) (among_of among.now) words.now) }
{
    let [word] = words else {
        return Err(REFUSED);
    };
    let reach = searched(among.alloc, seen, word)?;
    opens(among, Opened::Reached(reach))
}

fn opens(among: &Among, opened: Opened) -> Result<Effect, EffectFault>
    ensures { Gives result (Ok (opens (among_of among.now) opened)) }
{
    opens_as(false, among, opened)
}

fn opens_as(wild: bool, among: &Among, opened: Opened) -> Result<Effect, EffectFault>
    ensures { Gives result (Ok (opens_as wild (among_of among.now) opened)) }
{
    Ok(Effect::Opens(Opening {
        spot: spot_of(among.entry)?,
        opened,
        chained: false,
        wild,
    }))
}

fn plain(alloc: Global, seen: Seen, word: &[u8]) -> Result<Reach, EffectFault>
    ensures { Gives result (plain_of seen word.now) }
{
    match seen {
        Seen::Directory => directory(alloc, word),
        Seen::Files => name_glob(alloc, word),
        Seen::Location => location(alloc, word),
    }
}

#[tactic(auto, unfolding(crate::specs::Sections::path_glob))]
fn directory(alloc: Global, word: &[u8]) -> Result<Reach, EffectFault>
    ensures { Gives result (directory word.now) }
{
    match glob_pattern(alloc, without_final_slash(word), true) {
        Ok(pattern) => Ok(Reach::Dir(Regex::new(alloc, pattern)?)),
        Err(fault) => Err(fault),
    }
}

#[tactic(auto, unfolding(crate::specs::Sections::name_glob))]
fn name_glob(alloc: Global, word: &[u8]) -> Result<Reach, EffectFault>
    ensures { Gives result (name_glob word.now) }
{
    match glob_pattern(alloc, word, false) {
        Ok(pattern) => Ok(Reach::Files(Regex::new(alloc, pattern)?)),
        Err(fault) => Err(fault),
    }
}

fn location(alloc: Global, word: &[u8]) -> Result<Reach, EffectFault>
    ensures { Gives result (location word.now) }
{
    if has_wildcard(alloc, word)? {
        return location_glob(alloc, word);
    }
    Ok(Reach::Location(Text::copy_of(alloc, word)?))
}

#[tactic(auto, unfolding(crate::specs::Sections::path_glob))]
fn location_glob(alloc: Global, word: &[u8]) -> Result<Reach, EffectFault>
    ensures { Gives result (path_glob LocationGlob word.now) }
{
    match glob_pattern(alloc, word, true) {
        Ok(pattern) => Ok(Reach::LocationGlob(Regex::new(alloc, pattern)?)),
        Err(fault) => Err(fault),
    }
}

#[tactic(auto, unfolding(crate::specs::Sections::searched))]
fn searched(alloc: Global, seen: Seen, word: &CowStr) -> Result<Reach, EffectFault>
    ensures { Gives result (searched (reach_of seen) word.now) }
{
    match parse_pattern(alloc, word.as_str().as_bytes(), false) {
        Ok(pattern) => Ok(reach_of(seen, Regex::new(alloc, pattern)?)),
        Err(fault) => Err(fault),
    }
}

// A section that searches for the pattern.
fn reach_of(seen: Seen, pattern: Regex) -> Reach
    ensures { result ≡ reach_of seen pattern }
{
    match seen {
        Seen::Directory => Reach::DirSearch(pattern),
        Seen::Files => Reach::Files(pattern),
        Seen::Location => Reach::LocationSearch(pattern),
    }
}
