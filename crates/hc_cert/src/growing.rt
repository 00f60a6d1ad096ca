//! Whether ranks and rounds grow from cell to cell.
ghost use Rattle.std.specs.Prelude.{◌≡◌};
ghost use Rattle.hc_cert.specs.Coded.{grows_in};
ghost use Rattle.hc_cert.specs.Conditions.{round_before, round_grows};

use crate::belonging::same_cut;
use crate::bounds::Bounds;
use hc_abs_left::Finish;
use hc_invariant::{Cut, NamedCell};
use hc_model::Rule;
use hc_rank::shrinks;

/// From one cell to another, where a branch that ends so leads.
pub(crate) fn grows(bounds: Bounds, from: &NamedCell, finish: &Finish, to: &NamedCell) -> bool
    ensures { result ≡ grows_in bounds from.now finish.now to.now }
{
    match finish {
        Finish::ServerRound { rule, .. } => {
            from.rank <= to.rank && round_grows(from, &Cut::Server, rule, bounds.shrinks, to.round)
        }
        Finish::DirRound { settings, rule, .. } => {
            let rules = settings.force.rules.as_slice();
            from.rank <= to.rank && round_grows(from, &to.at, rule, shrinks(rules, true), to.round)
        }
        _ => from.rank < to.rank && u64::from(to.rank) < bounds.passes,
    }
}

/// From a cell to a round that a rule begins. `shorter` tells whether the list of rules shrinks.
fn round_grows(from: &NamedCell, at: &Cut, rule: &Rule, shorter: bool, round: Option<u32>) -> bool
    ensures { result ≡ round_grows from.now at.now rule.now shorter round }
{
    match round {
        Some(round) => round < rule.flags.rounds && round_before(from, at) < round,
        None => shorter && rule.flags.rounds > 1,
    }
}

/// What a round has to be over: that of a cell of the same cut, where it has one.
fn round_before(from: &NamedCell, at: &Cut) -> u32
    ensures { result ≡ round_before from.now at.now }
{
    if same_cut(&from.at, at) {
        from.round.unwrap_or(0)
    } else {
        0
    }
}
