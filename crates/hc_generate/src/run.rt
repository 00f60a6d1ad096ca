ghost use Rattle.std.specs.Prelude.{◌≡◌, ◌<◌, ◌≤◌, ◌^◌, ◌-◌, ◌+◌, ℕ, List, [], ◌∷◌};
ghost use Rattle.std.specs.Prelude.{false, IfOk};
ghost use Rattle.hc_session.specs.Session.{start, work};
ghost use Rattle.hc_generate.specs.Run.{Goes, Takes};
ghost use Rattle.hc_generate.specs.Script.{file_step, files_behind, in_order, override_step, turn};
ghost use Rattle.hc_generate.specs.Summary.{nothing_said, total};
ghost use Rattle.hc_generate.specs.declared.draws.TheConstants.{DIRECTORIES, FILES, TURNS};
ghost use Rattle.hc_generate.specs.declared.step.Step.{Step};
ghost use Rattle.hc_generate.specs.declared.step.Step.TheVariants.{Main};

use crate::draws::{DIRECTORIES, Draws, FILES, TURNS};
use crate::line::line;
use crate::step::Step;
use crate::tally::Tally;
use hc_base::{Counter, NoMemory};
use hc_session::Session;
use std::alloc::Global;
use std::sync::ledger::Ledger;

/// A session, and what it has said so far.
#[derive(Drop)]
pub(crate) struct Run {
    alloc: Global,
    pub(crate) session: Session,
    pub(crate) tally: Tally,
}

impl Run {
    pub(crate) fn new(alloc: Global, limit: u32) -> Result<Run, NoMemory>
        ensures { IfOk result (λ run. (run.session ≡ start limit) × (run.tally ≡ nothing_said)) }
    {
        Ok(Run {
            alloc,
            session: Session::new(alloc, limit)?,
            tally: Tally::new(),
        })
    }

    // Has a line answered.
    fn answer<E: Ledger, B: Ledger>(
        &mut self,
        line: &[u8],
        evals: &mut Counter<E>,
        bytes: &mut Counter<B>,
    )
        requires going { self.old.session.ended ≡ false }
        requires room { total self.old.tally < 2 ^ 64 - 1 }
        ensures goes { (left : List (List ℕ))
            → Goes self.old self.new (line.now ∷ left) left
            (work evals.old bytes.old) (work evals.new bytes.new) }
        ensures few { total self.new.tally ≤ total self.old.tally + 1 }
    {
        match self.session.step(line, evals, bytes) {
            Ok(stepped) => self.tally.count(stepped.said),
            Err(NoMemory) => self.tally.count_refusal(),
        }
    }

    // Takes a step, unless the session has ended. Where its line finds no memory, it counts as answered so.
    fn take<E: Ledger, B: Ledger>(
        &mut self,
        step: Step,
        evals: &mut Counter<E>,
        bytes: &mut Counter<B>,
    )
        requires room { total self.old.tally < 2 ^ 64 - 1 }
        ensures goes { (left : List Step) → Takes self.old self.new (step ∷ left) left
            (work evals.old bytes.old) (work evals.new bytes.new) }
        ensures few { total self.new.tally ≤ total self.old.tally + 1 }
    {
        if self.session.has_ended() {
            return;
        }
        match line(self.alloc, step) {
            Ok(line) => self.answer(line.as_bytes(), evals, bytes),
            Err(NoMemory) => self.tally.count_refusal(),
        }
    }

    // Lists the files.
    fn list_files<E: Ledger, B: Ledger>(
        &mut self,
        draws: &mut Draws,
        evals: &mut Counter<E>,
        bytes: &mut Counter<B>,
    )
        requires room { total self.old.tally + FILES < 2 ^ 64 - 1 }
        ensures goes { (behind : ℕ → List Step) → Takes self.old self.new
            (in_order file_step 0 FILES behind draws.old.x) (behind draws.new.x)
            (work evals.old bytes.old) (work evals.new bytes.new) }
        ensures few { total self.new.tally ≤ total self.old.tally + FILES }
    {
        for file in 0..FILES {
            self.take(draws.file(file), evals, bytes);
        }
    }

    // Gives each directory a text.
    fn put_texts<E: Ledger, B: Ledger>(
        &mut self,
        draws: &mut Draws,
        evals: &mut Counter<E>,
        bytes: &mut Counter<B>,
    )
        requires room { total self.old.tally + DIRECTORIES < 2 ^ 64 - 1 }
        ensures goes { (behind : ℕ → List Step) → Takes self.old self.new
            (in_order override_step 0 DIRECTORIES behind draws.old.x) (behind draws.new.x)
            (work evals.old bytes.old) (work evals.new bytes.new) }
        ensures few { total self.new.tally ≤ total self.old.tally + DIRECTORIES }
    {
        for directory in 0..DIRECTORIES {
            self.take(draws.text(directory), evals, bytes);
        }
    }

    // Takes the turns.
    fn take_turns<E: Ledger, B: Ledger>(
        &mut self,
        draws: &mut Draws,
        evals: &mut Counter<E>,
        bytes: &mut Counter<B>,
    )
        requires room { total self.old.tally + TURNS < 2 ^ 64 - 1 }
        ensures goes { (behind : ℕ → List Step) → Takes self.old self.new
            (in_order (λ number. turn) 0 TURNS behind draws.old.x) (behind draws.new.x)
            (work evals.old bytes.old) (work evals.new bytes.new) }
        ensures few { total self.new.tally ≤ total self.old.tally + TURNS }
    {
        for number in 0..TURNS {
            self.take(draws.turn(), evals, bytes);
        }
    }

    /// Takes the steps of the script that these draws make.
    pub(crate) fn take_all<E: Ledger, B: Ledger>(
        &mut self,
        mut draws: Draws,
        evals: &mut Counter<E>,
        bytes: &mut Counter<B>,
    )
        requires fresh { total self.old.tally ≡ 0 }
        ensures { Takes self.old self.new (Main ∷ files_behind draws.x) []
            (work evals.old bytes.old) (work evals.new bytes.new) }
    {
        self.take(Step::Main, evals, bytes);
        self.list_files(&mut draws, evals, bytes);
        self.put_texts(&mut draws, evals, bytes);
        self.take_turns(&mut draws, evals, bytes);
    }
}
