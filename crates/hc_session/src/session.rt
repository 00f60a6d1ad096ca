ghost use Rattle.std.specs.Prelude.{◌≡◌, ◌+◌, ◌<◌, ◌≤◌, ◌-◌, ◌^◌, None, Some, Ok, true, IfOk};
ghost use Rattle.std.specs.Prelude.{IfSome, OnErr, OnOk};
ghost use Rattle.serde_json.specs.View.{items_view};
ghost use Rattle.hc_base.specs.Paths.{begins_with_slash};
ghost use Rattle.hc_ends.specs.Asking.{HaveNames};
ghost use Rattle.hc_json.specs.Cells.{cells_of};
ghost use Rattle.hc_json.specs.Command.{command_of};
ghost use Rattle.hc_json.specs.CommandView.{claim_view, question_view, request_view, scope_view};
ghost use Rattle.hc_json.specs.Hosts.{hosts_of};
ghost use Rattle.hc_kept.specs.Files.{AreFilesOf};
ghost use Rattle.hc_kept.specs.Site.{is_current_site};
ghost use Rattle.hc_session.specs.Asking.{answer_of, asked, evaluated};
ghost use Rattle.hc_session.specs.Changes.{changed_by, done_of};
ghost use Rattle.hc_session.specs.Deciding.{DecideTurn, MayTry, present_lines};
ghost use Rattle.hc_session.specs.Ending.{EndsTurn, Follows, MayFollow};
ghost use Rattle.hc_session.specs.Following.{FollowTurn, FollowUnder, IsFollowed};
ghost use Rattle.hc_session.specs.Session.{Counts, CountsCommand, CountsRuns, EditTurn, Gave, IsTurn, ReadsCommand};
ghost use Rattle.hc_session.specs.Session.{StepTurn, ask_bytes, ask_turn, check_turn, end_turn};
ghost use Rattle.hc_session.specs.Session.{evaluated_turn, is_kept, kept_turn, main_turn, new_bytes, new_turn, present};
ghost use Rattle.hc_session.specs.Session.{reads_nothing};
ghost use Rattle.hc_session.specs.Session.{site_bytes, start, stats_turn};
ghost use Rattle.hc_session.specs.Sound.{IsAnswerOf, IsAskedIn, IsKeptAnswer, IsSite};
ghost use Rattle.hc_session.specs.Stating.{EndsWith, HasSets, IsRead, Replies, VerifiesWith, chained_in, claim_in};
ghost use Rattle.hc_session.specs.Stating.{scope_in};
ghost use Rattle.hc_session.specs.Verifying.{VerifyTurn};

use crate::asking::{answer, find_answer};
use crate::changes::{Change, done_of, make};
use crate::deciding::{Stating, decide_at};
use crate::ends::{Ending, ends_at};
use crate::following::origins_in;
use crate::limits::{KEPT_ANSWERS, MOST_ASKS};
use crate::replies::{answered, checked, followed, no_command, no_set, refused, refusing, replied};
use crate::stepped::Stepped;
use crate::verifying::{Verifying, verify_at};
use hc_base::codes::PATH_FORM;
use hc_base::{Counter, Fault, NoMemory, Text};
use hc_cache::Cache;
use hc_follow::{Chain, MOST_STEPS, Next, Origin, Stop, next_request};
use hc_json::{
    Asked, ClaimForm, Command, Done, Reply, RequestForm, ScopeForm, cells_of, command_in, parse,
};
use hc_kept::{KeptFiles, Site};
use hc_model::{Config, Request};
use hc_serve::Answer;
use hc_stated::{cells_in, sets_in};
use hc_world::{World, is_path};
use serde_json::Value;
use std::alloc::Global;
use std::marker::Model;
use std::sync::ledger::Ledger;

/// The path of the main file, until another is named.
pub const MAIN_FILE: &str = "/etc/httpd/conf/httpd.conf";

/// An open session: a world of files, which lines edit and ask about, and what is kept of what was read and
/// answered.
#[derive(Drop)]
pub struct Session {
    alloc: Global,
    /// A claim may have fewer branches than these.
    limit: u32,
    world: World,
    main: Text,
    answers: Cache<Request, Answer>,
    site: Option<Site>,
    asks: u64,
    evaluations: u64,
    ended: bool,
}

impl Model for Session {
    ghost use Rattle.std.specs.Coded.{codes};
    ghost use Rattle.hc_model.specs.contracts.read.Read as d;
    ghost use Rattle.hc_model.specs.contracts.request.Request as r;
    ghost use Rattle.hc_serve.specs.contracts.answer.Answer as a;
    ghost use Rattle.hc_world.specs.Edits.{edited_code};
    ghost use Rattle.hc_session.specs.Session.{State};

    ghost Value = { State };

    ghost coded = { Prim.hlevel (codes, edited_code, a.the_row.coded, d.the_row.coded, r.the_row.coded) };

    ghost use Rattle.hc_session.specs.Inside.{state_of, IsWhole};

    ghost view = { state_of };

    ghost invariant = { IsWhole };
}

impl Session {
    /// A session whose world has the root alone, and in which a claim may have fewer branches than `limit`.
    pub fn new(alloc: Global, limit: u32) -> Result<Session, NoMemory>
        ensures { IfOk result (λ session. session ≡ start limit) }
    {
        Ok(Session {
            alloc,
            limit,
            world: World::new(alloc)?,
            main: Text::copy_of(alloc, MAIN_FILE.as_bytes())?,
            answers: Cache::new(alloc, KEPT_ANSWERS),
            site: None,
            asks: 0,
            evaluations: 0,
            ended: false,
        })
    }

    /// Whether an `end` was answered.
    pub fn has_ended(&self) -> bool
        ensures { result ≡ self.now.ended }
    {
        self.ended
    }

    /// How many asks were answered with an outcome.
    pub fn asks(&self) -> u64
        ensures { result ≡ self.now.asks }
    {
        self.asks
    }

    /// How many of them were evaluated.
    pub fn evaluations(&self) -> u64
        ensures { result ≡ self.now.evaluations }
    {
        self.evaluations
    }

    /// Answers a line with the line of its reply. Want of memory leaves all as before. `evals` rises by one where the
    /// request of an ask is evaluated, and where a candidate that may break a claim is run; and `bytes` by the bytes of
    /// the configuration and `.htaccess` texts that are read.
    #[tactic(auto, unfolding(crate::specs::Session::command_bytes))]
    pub fn step<E: Ledger, L: Ledger>(
        &mut self,
        line: &[u8],
        evals: &mut Counter<E>,
        bytes: &mut Counter<L>,
    ) -> Result<Stepped, NoMemory>
        ensures turned { StepTurn result self.old line.now self.new }
        ensures evals { CountsCommand result self.old (command_of line.now) self.new evals.old evals.new }
        ensures idle { reads_nothing self.old (command_of line.now) ≡ true → bytes.new ≡ bytes.old }
        ensures bytes { OnOk result (ReadsCommand self.old (command_of line.now) bytes.old bytes.new) }
    {
        let value = parse(self.alloc, line)?;
        match command_in(self.alloc, &value)? {
            Ok(Command::Put { path, text }) => self.edit(Change::Put { path, text }),
            Ok(Command::ListPath { path, kind }) => self.edit(Change::ListPath { path, kind }),
            Ok(Command::DropPath { path }) => self.edit(Change::DropPath { path }),
            Ok(
                Command::Edit {
                    path,
                    from,
                    to,
                    text,
                },
            ) => self.edit(Change::Edit {
                path,
                from,
                to,
                text,
            }),
            Ok(Command::Main { path }) => self.name_main(path),
            Ok(Command::Check) => self.check(bytes),
            Ok(Command::Ask(asked)) => self.ask(&asked, evals, bytes),
            Ok(Command::Follow { request, hosts }) => self.follow(request, hosts, evals, bytes),
            Ok(Command::Decide { claim, scope }) => self.decide(claim, scope, evals, bytes),
            Ok(Command::Ends { hosts, scope }) => self.decide_ends(hosts, scope, evals, bytes),
            Ok(
                Command::Verify {
                    claim,
                    scope,
                    cells,
                },
            ) => self.verify(claim, scope, cells, bytes),
            Ok(Command::Stats) => self.stats(),
            Ok(Command::End) => self.end(),
            Err(why) => no_command(self.alloc, why),
        }
    }

    // Edits the files. The reply is printed first, so that nothing has changed where it finds no memory. A world that
    // has counted its last edit is no longer edited: this is answered as no memory is.
    fn edit(&mut self, edit: Change<'_>) -> Result<Stepped, NoMemory>
        ensures turned { Gave result (EditTurn (done_of edit.entry) self.old
            (changed_by self.old.world.files edit.entry)) self.old self.new }
        ensures evaluations { self.new.evaluations ≡ self.old.evaluations }
    {
        if self.world.edits() == u64::MAX {
            return Err(NoMemory);
        }
        let done = replied(self.alloc, &Reply::Done(done_of(edit)))?;
        match make(&mut self.world, edit) {
            Ok(()) => Ok(done),
            Err(Fault::Refused(code)) => refused(self.alloc, code),
            Err(Fault::NoMemory) => Err(NoMemory),
        }
    }

    // Names the main file. Another one forgets the answers.
    fn name_main(&mut self, path: &str) -> Result<Stepped, NoMemory>
        ensures turned { Gave result (IsTurn (main_turn self.old path.now)) self.old self.new }
        ensures evaluations { self.new.evaluations ≡ self.old.evaluations }
    {
        if !is_path(path.as_bytes()) {
            return refused(self.alloc, PATH_FORM);
        }
        let done = replied(self.alloc, &Reply::Done(Done::Main))?;
        if path.as_bytes() != self.main.as_bytes() {
            self.main = Text::copy_of(self.alloc, path.as_bytes())?;
            self.answers.clear();
            forget(&mut self.site);
        }
        Ok(done)
    }

    fn stats(&self) -> Result<Stepped, NoMemory>
        ensures { Gave result (IsTurn (stats_turn self.now)) self.now self.now }
    {
        replied(
            self.alloc,
            &Reply::Stats {
                asks: self.asks,
                evaluations: self.evaluations,
            },
        )
    }

    fn end(&mut self) -> Result<Stepped, NoMemory>
        ensures { Gave result (IsTurn (end_turn self.old)) self.old self.new }
    {
        let done = replied(self.alloc, &Reply::Done(Done::End))?;
        self.ended = true;
        Ok(done)
    }

    fn check<L: Ledger>(&mut self, bytes: &mut Counter<L>) -> Result<Stepped, NoMemory>
        ensures turned { Gave result (IsTurn (check_turn self.old)) self.old self.new }
        ensures bytes { OnOk result (bytes.new ≤ bytes.old + site_bytes self.old) }
    {
        let site = self.take_site(bytes)?;
        let stepped = checked(self.alloc, &site.built);
        put_back(&mut self.site, site);
        stepped
    }

    fn ask<E: Ledger, L: Ledger>(
        &mut self,
        asked: &Asked<'_>,
        evals: &mut Counter<E>,
        bytes: &mut Counter<L>,
    ) -> Result<Stepped, NoMemory>
        requires { begins_with_slash (asked.now.request).target.now ≡ true }
        ensures turned { Gave result (IsTurn (ask_turn self.old (question_view asked.now) (present self.old)))
            self.old self.new }
        ensures evals { Counts result 1 self.old self.new evals.old evals.new }
        ensures idle { is_kept self.old (request_view asked.now.request) ≡ true → bytes.new ≡ bytes.old }
        ensures bytes { OnOk result
            (bytes.new ≤ bytes.old + ask_bytes self.old (request_view asked.now.request)) }
    {
        if self.asks == u64::MAX || self.evaluations == u64::MAX {
            return Err(NoMemory);
        }
        let request = asked.request.to_request(self.alloc)?;
        match self.kept(&request, asked.trail)? {
            Some(stepped) => {
                self.asks += 1;
                Ok(stepped)
            }
            None => self.ask_anew(request, asked.trail, evals, bytes),
        }
    }

    // The answer to a request that is kept, and rests on nothing that has changed.
    fn kept(&self, request: &Request, trail: bool) -> Result<Option<Stepped>, NoMemory>
        ensures { IfOk result (kept_turn self.now request.now trail) }
    {
        match self.answers.find_valid(request, &self.world) {
            Some(answer) => Ok(Some(answered(self.alloc, &self.world, trail, answer)?)),
            None => Ok(None),
        }
    }

    // An ask whose answer is not kept.
    fn ask_anew<E: Ledger, L: Ledger>(
        &mut self,
        request: Request,
        trail: bool,
        evals: &mut Counter<E>,
        bytes: &mut Counter<L>,
    ) -> Result<Stepped, NoMemory>
        requires slash { begins_with_slash request.target ≡ true }
        requires asks { self.old.asks < 2 ^ 64 - 1 }
        requires evaluations { self.old.evaluations < 2 ^ 64 - 1 }
        ensures turned { Gave result (IsTurn (new_turn self.old request trail (present self.old))) self.old self.new }
        ensures evals { Counts result 1 self.old self.new evals.old evals.new }
        ensures bytes { OnOk result (bytes.new ≤ bytes.old + new_bytes self.old request) }
    {
        let mut site = self.take_site(bytes)?;
        let found = find_answer(self.alloc, &self.world, &mut site, &request, evals, bytes);
        put_back(&mut self.site, site);
        match found? {
            Ok(answer) => self.reply_and_keep(request, trail, answer),
            Err(refusal) => refusing(self.alloc, &refusal),
        }
    }

    // Asks a request and those to which its redirects lead. Where memory is refused, what was kept and counted before
    // is put back.
    fn follow<E: Ledger, L: Ledger>(
        &mut self,
        form: RequestForm<'_>,
        hosts: &[Value],
        evals: &mut Counter<E>,
        bytes: &mut Counter<L>,
    ) -> Result<Stepped, NoMemory>
        requires { begins_with_slash form.target.now ≡ true }
        ensures turned { Gave result (FollowTurn self.old (request_view form.entry)
            (hosts_of (items_view hosts.now))) self.old self.new }
        ensures evals { Counts result (MOST_STEPS + 1) self.old self.new evals.old evals.new }
    {
        if self.asks > MOST_ASKS || self.evaluations > MOST_ASKS {
            return Err(NoMemory);
        }
        let request = form.to_request(self.alloc)?;
        let origins = origins_in(self.alloc, hosts)?;
        let answers = self.answers.copy()?;
        let (asks, evaluations) = (self.asks, self.evaluations);
        let stepped = self.follow_chain(origins.as_slice(), request, evals, bytes);
        if stepped.is_err() {
            self.answers = answers;
            self.asks = asks;
            self.evaluations = evaluations;
        }
        stepped
    }

    // The same, where what is kept and counted stays as it comes.
    fn follow_chain<E: Ledger, L: Ledger>(
        &mut self,
        hosts: &[Origin],
        request: Request,
        evals: &mut Counter<E>,
        bytes: &mut Counter<L>,
    ) -> Result<Stepped, NoMemory>
        requires slash { begins_with_slash request.target ≡ true }
        requires asks { self.old.asks ≤ MOST_ASKS }
        requires evaluations { self.old.evaluations ≤ MOST_ASKS }
        ensures turned { IfOk result (Replies (λ said.
            FollowUnder self.old hosts.now request (present self.old) said self.new)) }
        ensures evals { Counts result (MOST_STEPS + 1) self.old self.new evals.old evals.new }
        ensures stays { IsAskedIn self.old self.new }
    {
        let mut site = self.take_site(bytes)?;
        let stepped = self.follow_at(&mut site, hosts, request, evals, bytes);
        put_back(&mut self.site, site);
        stepped
    }

    // Under what the main file was read as.
    fn follow_at<E: Ledger, L: Ledger>(
        &mut self,
        site: &mut Site,
        hosts: &[Origin],
        request: Request,
        evals: &mut Counter<E>,
        bytes: &mut Counter<L>,
    ) -> Result<Stepped, NoMemory>
        requires slash { begins_with_slash request.target ≡ true }
        requires asks { self.old.asks ≤ MOST_ASKS }
        requires evaluations { self.old.evaluations ≤ MOST_ASKS }
        requires site { IsSite self.old.world self.old.main site.old }
        requires built { site.old.built ≡ present self.old }
        ensures turned { IfOk result (Replies (λ said.
            FollowUnder self.old hosts.now request (present self.old) said self.new)) }
        ensures evals { Counts result (MOST_STEPS + 1) self.old self.new evals.old evals.new }
        ensures stays { IsAskedIn self.old self.new }
        ensures site { IsSite self.old.world self.old.main site.new }
    {
        match &site.built {
            Ok(config) => {
                let chain = self.follow_under(
                    config,
                    &mut site.files,
                    hosts,
                    request,
                    evals,
                    bytes,
                )?;
                followed(self.alloc, &chain)
            }
            Err(refusal) => refusing(self.alloc, refusal),
        }
    }

    // Under a configuration: each request is asked behind those that lead to it.
    fn follow_under<E: Ledger, L: Ledger>(
        &mut self,
        config: &Config,
        files: &mut KeptFiles,
        hosts: &[Origin],
        request: Request,
        evals: &mut Counter<E>,
        bytes: &mut Counter<L>,
    ) -> Result<Chain, NoMemory>
        requires slash { begins_with_slash request.target ≡ true }
        requires asks { self.old.asks ≤ MOST_ASKS }
        requires evaluations { self.old.evaluations ≤ MOST_ASKS }
        requires config { present self.old ≡ Ok config.now }
        requires files { AreFilesOf self.old.world config.now files.old }
        ensures chain { IfOk result (λ chain. IsFollowed self.old config.now hosts.now request chain self.new) }
        ensures evals { Counts result (MOST_STEPS + 1) self.old self.new evals.old evals.new }
        ensures stays { IsAskedIn self.old self.new }
        ensures files { AreFilesOf self.old.world config.now files.new }
    {
        let mut asked = request;
        let mut steps = 0;
        loop {
            let last = self.serve(config, files, &asked, evals, bytes)?;
            match next_request(self.alloc, hosts, &asked, &last.outcome)? {
                Next::Halt(stop) => return Ok(Chain { steps, last, stop }),
                Next::Go(_) if steps == MOST_STEPS => {
                    return Ok(Chain {
                        steps,
                        last,
                        stop: Stop::TooMany,
                    });
                }
                Next::Go(next) => {
                    asked = next;
                    steps += 1;
                }
            }
        }
    }

    // The answer to a request, which is kept or evaluated and then kept.
    fn serve<E: Ledger, L: Ledger>(
        &mut self,
        config: &Config,
        files: &mut KeptFiles,
        request: &Request,
        evals: &mut Counter<E>,
        bytes: &mut Counter<L>,
    ) -> Result<Answer, NoMemory>
        requires slash { begins_with_slash request.now.target ≡ true }
        requires asks { self.old.asks < 2 ^ 64 - 1 }
        requires evaluations { self.old.evaluations < 2 ^ 64 - 1 }
        requires config { present self.old ≡ Ok config.now }
        requires files { AreFilesOf self.old.world config.now files.old }
        ensures answer { IfOk result (λ answer. answer ≡ answer_of self.old.world.files config.now request.now) }
        ensures asked { OnOk result (self.new ≡ asked self.old request.now
            (answer_of self.old.world.files config.now request.now)) }
        ensures err { OnErr result (self.new ≡ self.old) }
        ensures evals { Counts result 1 self.old self.new evals.old evals.new }
        ensures files { AreFilesOf self.old.world config.now files.new }
    {
        match self.kept_answer(request)? {
            Some(answer) => {
                self.asks += 1;
                Ok(answer)
            }
            None => {
                let answer = answer(
                    self.alloc,
                    config,
                    &self.world,
                    files,
                    request,
                    evals,
                    bytes,
                )?;
                let copy = answer.clone()?;
                self.keep(request.clone()?, copy)?;
                Ok(answer)
            }
        }
    }

    // A copy of the answer to a request that is kept, and rests on nothing that has changed.
    fn kept_answer(&self, request: &Request) -> Result<Option<Answer>, NoMemory>
        ensures { IfOk result (IsKeptAnswer self.now request.now) }
    {
        match self.answers.find_valid(request, &self.world) {
            Some(answer) => Ok(Some(answer.clone()?)),
            None => Ok(None),
        }
    }

    // Decides a claim.
    fn decide<E: Ledger, L: Ledger>(
        &mut self,
        claim: ClaimForm<'_>,
        scope: ScopeForm<'_>,
        evals: &mut Counter<E>,
        bytes: &mut Counter<L>,
    ) -> Result<Stepped, NoMemory>
        ensures turned { Gave result (DecideTurn self.old (claim_view claim.entry) (scope_view scope.entry))
            self.old self.new }
        ensures evals { CountsRuns (MayTry self.old (claim_view claim.entry) (scope_view scope.entry)) self.old self.new
            evals.old evals.new }
    {
        match sets_in(self.alloc, claim, scope)? {
            Ok(sets) => self.decide_with(
                Stating {
                    claim,
                    scope,
                    sets: &sets,
                },
                evals,
                bytes,
            ),
            Err(field) => no_set(self.alloc, field),
        }
    }

    // The same with its sets as they are written.
    fn decide_with<E: Ledger, L: Ledger>(
        &mut self,
        stating: Stating<'_>,
        evals: &mut Counter<E>,
        bytes: &mut Counter<L>,
    ) -> Result<Stepped, NoMemory>
        requires sets { IsRead stating }
        ensures turned { Gave result (DecideTurn self.old (claim_in stating.entry) (scope_in stating.entry))
            self.old self.new }
        ensures evals { CountsRuns (MayTry self.old (claim_in stating.entry) (scope_in stating.entry)) self.old self.new
            evals.old evals.new }
    {
        let mut site = self.take_site(bytes)?;
        let stepped = decide_at(
            self.alloc,
            &self.world,
            &mut site,
            stating,
            self.limit,
            evals,
            bytes,
        );
        put_back(&mut self.site, site);
        stepped
    }

    // Decides whether chains of redirects end.
    fn decide_ends<E: Ledger, L: Ledger>(
        &mut self,
        hosts: &[Value],
        scope: ScopeForm<'_>,
        evals: &mut Counter<E>,
        bytes: &mut Counter<L>,
    ) -> Result<Stepped, NoMemory>
        ensures turned { Gave result (EndsTurn self.old (hosts_of (items_view hosts.now)) (scope_view scope.entry))
            self.old self.new }
        ensures evals { CountsRuns (MayFollow self.old (hosts_of (items_view hosts.now)) (scope_view scope.entry))
            self.old self.new evals.old evals.new }
    {
        let sets = match sets_in(self.alloc, ClaimForm::Stops, scope)? {
            Ok(sets) => sets,
            Err(field) => return no_set(self.alloc, field),
        };
        let hosts = origins_in(self.alloc, hosts)?;
        let ending = Ending {
            hosts: hosts.as_slice(),
            scope,
            sets: &sets,
        };
        self.ends_with(ending, evals, bytes)
    }

    // The same with its sets as they are written.
    fn ends_with<E: Ledger, L: Ledger>(
        &mut self,
        ending: Ending<'_>,
        evals: &mut Counter<E>,
        bytes: &mut Counter<L>,
    ) -> Result<Stepped, NoMemory>
        requires sets { HasSets ending }
        requires named { HaveNames ending.hosts.now }
        ensures turned { Gave result (EndsWith self.old ending.entry) self.old self.new }
        ensures evals { CountsRuns (Follows (chained_in self.old.world.files self.old.limit ending.entry)
            (present self.old)) self.old self.new evals.old evals.new }
    {
        let mut site = self.take_site(bytes)?;
        let stepped = ends_at(
            self.alloc,
            &self.world,
            &mut site,
            ending,
            self.limit,
            evals,
            bytes,
        );
        put_back(&mut self.site, site);
        stepped
    }

    // Checks an invariant.
    fn verify<L: Ledger>(
        &mut self,
        claim: ClaimForm<'_>,
        scope: ScopeForm<'_>,
        cells: &[Value],
        bytes: &mut Counter<L>,
    ) -> Result<Stepped, NoMemory>
        ensures turned { Gave result (VerifyTurn self.old (claim_view claim.entry) (scope_view scope.entry)
            (cells_of (items_view cells.now))) self.old self.new }
        ensures evaluations { self.new.evaluations ≡ self.old.evaluations }
    {
        let sets = match sets_in(self.alloc, claim, scope)? {
            Ok(sets) => sets,
            Err(field) => return no_set(self.alloc, field),
        };
        let forms = cells_of(self.alloc, cells)?;
        match cells_in(self.alloc, forms.as_slice())? {
            Ok(cells) => {
                let stating = Stating {
                    claim,
                    scope,
                    sets: &sets,
                };
                let cells = cells.as_slice();
                self.verify_with(Verifying { stating, cells }, bytes)
            },
            Err(field) => no_set(self.alloc, field),
        }
    }

    // The same with its sets as they are written.
    fn verify_with<L: Ledger>(
        &mut self,
        verifying: Verifying<'_>,
        bytes: &mut Counter<L>,
    ) -> Result<Stepped, NoMemory>
        ensures turned { Gave result (VerifiesWith self.old verifying.entry) self.old self.new }
        ensures evaluations { self.new.evaluations ≡ self.old.evaluations }
    {
        let mut site = self.take_site(bytes)?;
        let stepped = verify_at(
            self.alloc,
            &self.world,
            &mut site,
            verifying,
            self.limit,
            bytes,
        );
        put_back(&mut self.site, site);
        stepped
    }

    // What the main file is read as: what was read of it while that stands, or else read anew.
    fn take_site<L: Ledger>(&mut self, bytes: &mut Counter<L>) -> Result<Site, NoMemory>
        ensures same { self.new ≡ self.old }
        ensures site { IfOk result (IsSite self.old.world self.old.main) }
        ensures built { IfOk result (λ site. site.built ≡ present self.old) }
        ensures lines { IfOk result (λ site. site.lines ≡ present_lines self.old) }
        ensures bytes { OnOk result (bytes.new ≤ bytes.old + site_bytes self.old) }
    {
        match take_current(&mut self.site, &self.world) {
            Some(site) => Ok(site),
            None => Site::read(self.alloc, &self.world, self.main.as_bytes(), bytes),
        }
    }

    // Replies with the answer to a request, and keeps it.
    fn reply_and_keep(
        &mut self,
        request: Request,
        trail: bool,
        answer: Answer,
    ) -> Result<Stepped, NoMemory>
        requires asks { self.old.asks < 2 ^ 64 - 1 }
        requires evaluations { self.old.evaluations < 2 ^ 64 - 1 }
        requires present { IsAnswerOf self.old.world self.old.main request answer }
        ensures { Gave result (IsTurn (evaluated_turn self.old request trail answer)) self.old self.new }
    {
        let stepped = answered(self.alloc, &self.world, trail, &answer)?;
        self.keep(request, answer)?;
        Ok(stepped)
    }

    // Keeps the answer to a request, and counts the ask and the evaluation.
    fn keep(&mut self, request: Request, answer: Answer) -> Result<(), NoMemory>
        requires asks { self.old.asks < 2 ^ 64 - 1 }
        requires evaluations { self.old.evaluations < 2 ^ 64 - 1 }
        requires present { IsAnswerOf self.old.world self.old.main request answer }
        ensures ok { OnOk result (self.new ≡ evaluated self.old request answer) }
        ensures err { OnErr result (self.new ≡ self.old) }
    {
        let reads = answer.reads.copy()?;
        self.answers
            .store(request, reads, self.world.edits(), answer)?;
        self.asks += 1;
        self.evaluations += 1;
        Ok(())
    }
}

fn forget(slot: &mut Option<Site>)
    ensures { slot.new ≡ None }
{
    *slot = None;
}

// What was read, if that stands; else it is forgotten.
fn take_current(slot: &mut Option<Site>, world: &World) -> Option<Site>
    ensures left { slot.new ≡ None }
    ensures current { IfSome result (λ site. (slot.old ≡ Some site) × (is_current_site world.now site ≡ true)) }
{
    match slot.take() {
        Some(site) if site.is_current(world) => Some(site),
        _ => None,
    }
}

fn put_back(slot: &mut Option<Site>, site: Site)
    ensures { slot.new ≡ Some site }
{
    *slot = Some(site);
}
