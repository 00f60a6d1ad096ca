//! A chain of redirects.
ghost use Rattle.std.specs.Prelude.{◌≡◌, ◌+◌, ◌≤◌, IfOk, true};
ghost use Rattle.hc_base.specs.Paths.{begins_with_slash};
ghost use Rattle.hc_follow.specs.Chains.{IsChain};
ghost use Rattle.hc_serve.specs.Lent.{Lends, Returns};

use crate::next::{Next, Stop, next_request};
use crate::origin::Origin;
use hc_base::{Counter, NoMemory};
use hc_model::{Config, Overrides, Request};
use hc_serve::{Answer, evaluate};
use hc_world::World;
use std::alloc::Global;
use std::sync::ledger::Ledger;

/// How many redirects are followed.
pub const MOST_STEPS: u32 = 20;

/// What a request comes to, where its redirects to own servers are followed.
#[derive(Drop)]
pub struct Chain {
    /// How many redirects were followed.
    pub steps: u32,
    /// What the last request receives.
    pub last: Answer,
    pub stop: Stop,
}

/// Follows the redirects of a request among these own servers. `over` reads the `.htaccess` files of the world;
/// `evals` counts each request of the chain.
pub fn follow<O: Overrides, L: Ledger>(
    alloc: Global,
    config: &Config,
    world: &World,
    over: &mut O,
    hosts: &[Origin],
    request: &Request,
    evals: &mut Counter<L>,
) -> Result<Chain, NoMemory>
    requires slash { begins_with_slash request.now.target ≡ true }
    requires over { Lends O.reading O.size (O.fixed over.old) world.now.files config.now }
    ensures chain { IfOk result (IsChain world.now.files config.now hosts.now request.now) }
    ensures evals { IfOk result (λ chain. evals.new ≡ evals.old + chain.steps + 1) }
    ensures grows { evals.old ≤ evals.new }
    ensures most { evals.new ≤ evals.old + 21 }
    ensures over { Returns O.fixed O.loaded over }
{
    let mut asked = request.clone()?;
    let mut steps = 0;
    loop {
        let last = evaluate(alloc, config, world, over, &asked, evals)?;
        match next_request(alloc, hosts, &asked, &last.outcome)? {
            Next::Halt(stop) => return Ok(Chain { steps, last, stop }),
            Next::Go(_) if steps == MOST_STEPS => {
                return Ok(Chain {
                    steps,
                    last,
                    stop: Stop::TooMany,
                });
            }
            Next::Go(next) => {
                asked = next;
                steps += 1;
            }
        }
    }
}
