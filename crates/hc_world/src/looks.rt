//! Looks at a world, each told in a log.
ghost use Rattle.std.specs.Prelude.{◌≡◌, IfOk, option_map};
ghost use Rattle.hc_steps.specs.Ran.{Takes};
ghost use Rattle.hc_steps.specs.Shown.{found_in, names_shown, shown_by};
ghost use Rattle.hc_steps.specs.Step.{kind_at, names_at, text_at};

use crate::World;
use hc_base::{Fault, List, NoMemory, Text};
use hc_model::{Kind, Read};
use hc_steps::Log;
use std::marker::Model;

/// What stands at a path, and the text that is there.
#[derive(Drop)]
pub struct FoundText<'w> {
    kind: Kind,
    text: Option<&'w str>,
}

impl<'w> Model for FoundText<'w> {
    ghost use Rattle.std.specs.Prelude.{option_map};
    ghost use Rattle.hc_steps.specs.Step.{Found};

    ghost Value = { Found };

    ghost view = { λ f. record { kind = f.kind; text = option_map (λ text. text.now) f.text } };
}

impl<'w> FoundText<'w> {
    pub fn kind(&self) -> Kind
        ensures { result ≡ self.now.kind }
    {
        self.kind
    }

    /// The text, as long as the world lends it.
    pub fn text(&self) -> Option<&'w str>
        ensures { option_map (λ text. text.now) result ≡ self.now.text }
    {
        self.text
    }
}

/// Looks at what stands at a path.
#[tactic(auto, using(hc_steps::proofs::Going::ran_shown, hc_steps::proofs::Going::ran_no_memory))]
pub fn kind_at<E>(world: &World, log: &mut Log, path: &[u8]) -> Result<Kind, Fault<E>>
    ensures { Takes result log (kind_at path.now) (shown_by world.now.files) }
{
    log.look(Read::KindOf(Text::copy_of(log.allocator(), path)?))?;
    Ok(world.kind(path))
}

/// Looks at the text at a path, and lends it.
#[tactic(auto, using(hc_steps::proofs::Going::ran_shown, hc_steps::proofs::Going::ran_no_memory))]
pub fn text_at<'w, E>(
    world: &'w World,
    log: &mut Log,
    path: &[u8],
) -> Result<FoundText<'w>, Fault<E>>
    ensures { Takes result log (text_at path.now) (shown_by world.now.files) }
{
    log.look(Read::TextOf(Text::copy_of(log.allocator(), path)?))?;
    Ok(found_in(world, path))
}

fn found_in<'w>(world: &'w World, path: &[u8]) -> FoundText<'w>
    ensures { result ≡ found_in world.now.files path.now }
{
    FoundText {
        kind: world.kind(path),
        text: world.text(path),
    }
}

/// Looks at the names in a directory; None where there is no directory.
#[tactic(auto, using(hc_steps::proofs::Going::ran_shown, hc_steps::proofs::Going::ran_no_memory))]
pub fn names_at<E>(
    world: &World,
    log: &mut Log,
    path: &[u8],
) -> Result<Option<List<Text>>, Fault<E>>
    ensures { Takes result log (names_at path.now) (shown_by world.now.files) }
{
    log.look(Read::NamesOf(Text::copy_of(log.allocator(), path)?))?;
    Ok(names_shown(world, path)?)
}

fn names_shown(world: &World, path: &[u8]) -> Result<Option<List<Text>>, NoMemory>
    ensures { IfOk result (λ names. names ≡ names_shown world.now.files path.now) }
{
    match world.kind(path) {
        Kind::Dir => Ok(Some(world.names(path)?)),
        _ => Ok(None),
    }
}
