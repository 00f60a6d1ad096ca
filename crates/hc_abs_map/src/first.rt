//! Texts by what stands at their first component (Apache manual, mod_rewrite: RewriteRule, "Substitution").
ghost use Rattle.std.specs.Prelude.{◌≡◌, ◌<◌, IfOk};
ghost use Rattle.std.proofs.Common.{rules};
ghost use Rattle.hc_abs_pass.specs.Naming.{first_exists};
ghost use Rattle.hc_dfa.specs.Automata.{accepts, states};
ghost use Rattle.hc_dfa.specs.Built.{Accepts};
ghost use Rattle.hc_steps.specs.Shown.{shown_by};
ghost use Rattle.hc_abs_map.specs.First.{IsSpot, first_in, next_spot, spot_holds, stands_in};
ghost use Rattle.hc_abs_map.specs.declared.first.Spot.TheVariants as spot;

use hc_base::NoMemory;
use hc_dfa::{Dfa, Keep, Reading, listed, product, tested};
use hc_world::{ListKind, World};
use std::alloc::Global;

/// The texts whose first component names something that exists.
pub(crate) fn first_exists(alloc: Global, world: &World) -> Result<Dfa, NoMemory>
    ensures { IfOk result (λ made. Accepts made (first_exists (shown_by world.now.files))) }
{
    let paths = paths_there(alloc, world)?;
    let made = first_in(alloc, &paths)?;
    Ok(made)
}

/// The paths at which something stands.
fn paths_there(alloc: Global, world: &World) -> Result<Dfa, NoMemory>
    ensures { IfOk result (λ made. Accepts made (stands_in world.now.files)) }
{
    let files = world.paths(ListKind::File)?;
    let dirs = world.paths(ListKind::Dir)?;
    let one = listed(alloc, files.as_slice())?;
    let other = listed(alloc, dirs.as_slice())?;
    let made = product(alloc, &one, &other, Keep::Either)?;
    Ok(made)
}

/// The texts whose first component has a path of the set.
fn first_in(alloc: Global, paths: &Dfa) -> Result<Dfa, NoMemory>
    ensures { IfOk result (λ made. Accepts made (first_in (accepts paths.now))) }
{
    let made = tested(alloc, &FirstIn { paths }, Spot::Slashes)?;
    Ok(made)
}

/// Slashes alone were read; some of the first component, which leads to a state; what follows it, and whether its path
/// is in the set.
#[derive(Clone, Copy, PartialEq, Eq, Hash, Drop)]
pub enum Spot {
    Slashes,
    Within(u32),
    Behind(bool),
}

#[derive(Clone, Copy)]
struct FirstIn<'a> {
    paths: &'a Dfa,
}

impl<'a> Reading for FirstIn<'a> {
    type Key = Spot;

    ghost is_key = { λ test. IsSpot test.paths.now };

    ghost reads = { λ test. next_spot test.paths.now };

    ghost holds = { λ test. spot_holds test.paths.now };

    fn next(&self, spot: Spot, byte: u8) -> Spot {
        match spot {
            Spot::Slashes => begun(self.paths, byte),
            Spot::Within(state) => within(self.paths, state, byte),
            Spot::Behind(is) => Spot::Behind(is),
        }
    }

    fn holds(&self, spot: Spot) -> bool {
        match spot {
            Spot::Slashes => false,
            Spot::Within(state) => self.paths.is_final(state),
            Spot::Behind(is) => is,
        }
    }

    ghost same = { Prim.search rules };
}

/// Behind slashes.
fn begun(paths: &Dfa, byte: u8) -> Spot
    ensures value { result ≡ next_spot paths.now spot.Slashes byte }
    ensures spot { IsSpot paths.now result }
{
    if byte == b'/' {
        return Spot::Slashes;
    }
    let front = paths.next_state(paths.start(), b'/');
    Spot::Within(paths.next_state(front, byte))
}

/// Within the first component.
fn within(paths: &Dfa, state: u32, byte: u8) -> Spot
    requires { state < states paths.now }
    ensures value { result ≡ next_spot paths.now (spot.Within state) byte }
    ensures spot { IsSpot paths.now result }
{
    if byte == b'/' {
        return Spot::Behind(paths.is_final(state));
    }
    Spot::Within(paths.next_state(state, byte))
}
