//! Where a location leads.
ghost use Rattle.std.specs.Prelude.{[], IfOk, List, OnOk};
ghost use Rattle.hc_pat_lang.specs.Sets.{AcceptsOnly};
ghost use Rattle.hc_sent.specs.Joints.{AreJoints};
ghost use Rattle.hc_sent.specs.Sites.{Adds, LeadsTo};
ghost use Rattle.hc_sent.specs.Ways.{AreLedFrom, AreLedTo, AreReachedFrom};

use crate::joints::{Joint, joined, joints_of};
use crate::origins::fits;
use crate::parts::Part;
use crate::sets::{add, has_text, kept, where_any};
use crate::sites::Site;
use crate::ways::Way;
use hc_base::NoMemory;
use hc_dfa::{Dfa, Keep};
use hc_follow::Origin;
use std::alloc::Global;

/// Where a location leads.
#[derive(Drop)]
pub enum Led {
    /// To this own server, with a path and a query of these sets, each by itself.
    On {
        origin: Origin,
        paths: Dfa,
        queries: Dfa,
    },
    /// To an own server, where what comes may be outside.
    Outside,
    /// To no own server.
    Away,
}

/// Whether a location leads to an own server.
#[derive(Clone, Copy)]
pub enum Reach {
    Own,
    Away,
}

/// What a location leads to, in the order of the own servers: the first one that it fits counts.
pub fn leads(alloc: Global, hosts: &[Origin], parts: &[Part]) -> Result<Vec<Led>, NoMemory>
    ensures { IfOk result (λ found. AreLedFrom parts.now [] hosts.now found.items) }
{
    let joints = joints_of(alloc, parts)?;
    let mut left = joined(alloc, parts)?;
    let mut found = Vec::new(alloc);
    for origin in hosts {
        let fits = fits(alloc, origin)?;
        let texts = kept(alloc, &left, &fits, Keep::Both)?;
        add_led(alloc, &joints, origin, texts, &mut found)?;
        left = kept(alloc, &left, &fits, Keep::FirstOnly)?;
    }
    add(&mut found, where_any(alloc, &left, Led::Away)?)?;
    Ok(found)
}

/// `Own` once for each own server that it leads to, and `Away` behind them.
pub fn reached(alloc: Global, hosts: &[Origin], parts: &[Part]) -> Result<Vec<Reach>, NoMemory>
    ensures { IfOk result (λ found. AreReachedFrom parts.now [] hosts.now found.items) }
{
    let mut left = joined(alloc, parts)?;
    let mut found = Vec::new(alloc);
    for origin in hosts {
        let fits = fits(alloc, origin)?;
        let texts = kept(alloc, &left, &fits, Keep::Both)?;
        add(&mut found, where_any(alloc, &texts, Reach::Own)?)?;
        left = kept(alloc, &left, &fits, Keep::FirstOnly)?;
    }
    add(&mut found, where_any(alloc, &left, Reach::Away)?)?;
    Ok(found)
}

/// Adds what the locations lead to at an own server, which are these of all with these parts.
fn add_led(
    alloc: Global,
    joints: &[Joint],
    origin: &Origin,
    texts: Dfa,
    found: &mut Vec<Led>,
) -> Result<(), NoMemory>
    ensures { OnOk result ((parts : List Part) (before : List Origin) → AreJoints [] parts joints.now
        → AcceptsOnly (LeadsTo parts before origin.now) texts
        → Adds (AreLedTo parts before origin.now) found.old.items found.new.items) }
{
    if !has_text(alloc, &texts)? {
        return Ok(());
    }
    let way = Way::new(alloc, origin, texts)?;
    let site = Site {
        joints,
        way: &way,
        origin,
    };
    site.add_led(alloc, found)?;
    Ok(())
}
