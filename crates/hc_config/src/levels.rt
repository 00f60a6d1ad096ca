ghost use Rattle.std.specs.Prelude.{◌≡◌, Err, OnOk};
ghost use Rattle.hc_base.specs.Gives.{Gives};
ghost use Rattle.hc_base.specs.Rules.{refusal_at, rule};
ghost use Rattle.hc_config.specs.Levels.{container_of, context_inside, context_of, context_of_reach, holding_opened};
ghost use Rattle.hc_config.specs.Levels.{innermost_closed, innermost_released, nothing_standing, opened, wild_of};
ghost use Rattle.hc_config.specs.Levels.{with_given};
ghost use Rattle.hc_config.specs.LevelViews.{left_by, standing_of};

use crate::config::BuildFault;
use crate::containers::{Container, container_rule, tree_of};
use crate::gathered::{Gathered, Given, Held, Holding, Opened, Opening};
use crate::source::Source;
use hc_base::{AtByte, Fault, List, NoMemory, Place, Refusal};
use hc_model::Reach;
use hc_table::Context;
use std::alloc::Global;
use std::mem::replace;

/// An opening, and what that in which it stands had before it.
#[derive(Drop)]
pub(crate) struct Around {
    pub opening: Opening,
    pub gathered: Gathered,
    /// The containers that were open there.
    pub held: Vec<Held>,
}

/// What the innermost server or section has so far, and what is open around it, the innermost last.
#[derive(Drop)]
pub(crate) struct Standing {
    pub so_far: Gathered,
    /// Its containers of Require lines that are open, the innermost last.
    pub held: Vec<Held>,
    pub around: Vec<Around>,
    /// An `<If>` or `<ElseIf>` is closed right before the next entry.
    pub chained: bool,
}

impl Standing {
    /// Nothing is open and nothing said, with room for so many aliases.
    pub(crate) fn nothing(alloc: Global, aliases: usize) -> Standing
        ensures { standing_of result ≡ nothing_standing }
    {
        Standing {
            so_far: Gathered::nothing(alloc, aliases),
            held: Vec::new(alloc),
            around: Vec::new(alloc),
            chained: false,
        }
    }

    /// The context of an entry that comes next (Apache manual, the "Context" of each directive): that of
    /// the innermost opening, else that outside all.
    pub(crate) fn context(&self, source: Source) -> Context
        ensures { result ≡ context_of source (standing_of self.now) }
    {
        match self.around.last() {
            Some(around) => context_inside(&around.opening.opened),
            None => source.top_context(),
        }
    }

    /// An entry that comes next stands right in a `<Directory>` with wildcards.
    pub(crate) fn is_wild(&self) -> bool
        ensures { result ≡ wild_of (standing_of self.now) }
    {
        match self.around.last() {
            Some(around) => around.opening.wild,
            None => false,
        }
    }

    pub(crate) fn take(&mut self, given: Given) -> Result<(), NoMemory>
        ensures { OnOk result
            (standing_of self.new ≡ record (standing_of self.old) { so_far = with_given self.old.so_far given }) }
    {
        self.so_far.take(given)
    }

    /// The innermost container of Require lines around an entry that comes next.
    pub(crate) fn container(&self) -> Option<Container>
        ensures { result ≡ container_of (standing_of self.now) }
    {
        match self.held.last() {
            Some(held) => Some(held.holding.container),
            None => None,
        }
    }

    /// What stands around a container waits until it is closed.
    pub(crate) fn hold(&mut self, alloc: Global, holding: Holding) -> Result<(), NoMemory>
        ensures { OnOk result (standing_of self.new ≡ holding_opened (standing_of self.old) holding) }
    {
        let members = replace(&mut self.so_far.members, List::new(alloc));
        self.held.push(Held { holding, members })?;
        Ok(())
    }

    /// The innermost container is closed, or refused at its opening.
    pub(crate) fn release(&mut self, alloc: Global) -> Result<(), BuildFault>
        ensures { Gives (left_by result self.new) (innermost_released (standing_of self.old)) }
    {
        let Some(held) = self.held.pop() else {
            return Ok(());
        };
        let Held { holding, members } = held;
        if let Some(code) = container_rule(holding.container, self.so_far.members.as_slice()) {
            return Err(refused_at(alloc, holding.place, code));
        }
        let own = replace(&mut self.so_far.members, members);
        self.so_far.members.push(tree_of(holding.container, own))?;
        Ok(())
    }

    pub(crate) fn open(&mut self, alloc: Global, opening: Opening) -> Result<(), NoMemory>
        ensures { OnOk result (standing_of self.new ≡ opened (standing_of self.old) opening) }
    {
        let gathered = replace(&mut self.so_far, Gathered::nothing(alloc, 0));
        let held = replace(&mut self.held, Vec::new(alloc));
        self.around.push(Around {
            opening,
            gathered,
            held,
        })?;
        Ok(())
    }

    /// The innermost opening is closed.
    pub(crate) fn close(&mut self, alloc: Global) -> Result<(), NoMemory>
        ensures { OnOk result (standing_of self.new ≡ innermost_closed (standing_of self.old)) }
    {
        let Some(around) = self.around.pop() else {
            return Ok(());
        };
        let Opening {
            spot,
            opened,
            chained,
            wild: _,
        } = around.opening;
        self.held = around.held;
        self.chained = chained;
        let inner = replace(&mut self.so_far, around.gathered);
        self.so_far.close(alloc, spot, opened, inner)
    }
}

fn context_inside(opened: &Opened) -> Context
    ensures { result ≡ context_inside opened.now }
{
    match opened {
        Opened::Host(_) => Context::VirtualHost,
        Opened::Reached(reach) => context_of_reach(reach),
    }
}

fn context_of_reach(reach: &Reach) -> Context
    ensures { result ≡ context_of_reach reach.now }
{
    match reach {
        Reach::Dir(_) => Context::Directory,
        Reach::DirSearch(_) => Context::DirectoryMatch,
        Reach::Files(_) => Context::Files,
        Reach::Location(_) | Reach::LocationGlob(_) | Reach::LocationSearch(_) => Context::Location,
        Reach::When(_) | Reach::Otherwise(_) => Context::IfSection,
    }
}

fn refused_at(alloc: Global, place: Place, code: u8) -> BuildFault
    ensures { result ≡ Fault.Refused (refusal_at place (rule code)) }
{
    Fault::Refused(Refusal::at(alloc, place, AtByte::rule(code)))
}
