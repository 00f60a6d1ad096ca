ghost use Rattle.std.specs.Prelude.{◌≡◌, ℕ, [], IfOk, OnErr};
ghost use Rattle.hc_session.specs.Session.{start, work};
ghost use Rattle.hc_generate.specs.Summary.{IsSummary, nothing_said};

use crate::draws::Draws;
use crate::run::Run;
use crate::summary_line::SummaryLine;
use hc_base::{Counter, NoMemory, Text};
use std::alloc::Global;
use std::sync::ledger::Ledger;

/// Runs the script that a seed makes in a session of its own, in which a claim may have fewer branches than `limit`,
/// and tells the run in a line of JSON, with its LF. `evals` rises by one for each request that is evaluated, and
/// `bytes` by the bytes of the configuration and `.htaccess` texts that are read. Memory is refused only before the
/// first line of the script.
pub fn summary<E: Ledger, B: Ledger>(
    alloc: Global,
    limit: u32,
    seed: u64,
    evals: &mut Counter<E>,
    bytes: &mut Counter<B>,
) -> Result<Text, NoMemory>
    ensures told { IfOk result (λ line. IsSummary limit seed line
        (work evals.old bytes.old) (work evals.new bytes.new)) }
    ensures idle { OnErr result (work evals.new bytes.new ≡ work evals.old bytes.old) }
{
    let line = SummaryLine::new(alloc)?;
    let mut run = Run::new(alloc, limit)?;
    Ok(told(&mut run, line, seed, evals, bytes))
}

// The summary of a run that has not begun.
fn told<E: Ledger, B: Ledger>(
    run: &mut Run,
    line: SummaryLine,
    seed: u64,
    evals: &mut Counter<E>,
    bytes: &mut Counter<B>,
) -> Text
    requires fresh { run.old.tally ≡ nothing_said }
    requires line { line ≡ [] }
    ensures { (limit : ℕ) → run.old.session ≡ start limit
        → IsSummary limit seed result (work evals.old bytes.old) (work evals.new bytes.new) }
{
    run.take_all(Draws::new(seed), evals, bytes);
    line.tell(&run.session, run.tally)
}
