//! What `evaluate` and `whole_run` answer beside the outcome: how many steps there were, which of them are kept, and
//! the Require lines of the last pass.

ghost use Rattle.std.specs.Prelude.{◌≡◌, ◌<◌, true};
ghost use Rattle.hc_base.specs.Paths.{begins_with_slash};

use crate::configs::{config_of, world_of};
use hc_addr::Addr;
use hc_base::paths::begins_with_slash;
use hc_base::{Counter, List, NoMemory, Place, Text};
use hc_htaccess::PlainOverrides;
use hc_model::{Config, Header, Request, Scheme};
use hc_serve::{Answer, WholeRun, evaluate, whole_run};
use hc_world::World;
use std::alloc::Global;
use std::marker::Brand;
use std::process::Abort;
use std::sync::ledger::{Blank, Ledger};
use std::test::Fail;

// 192.0.2.1
const SERVER: u32 = 0xC000_0201;

// How many steps a trail has at most.
const LONGEST_TRAIL: usize = 200;

fn headers(alloc: Global) -> Result<List<Header>, NoMemory> {
    let mut headers = List::new(alloc);
    let value = Text::copy_of(alloc, b"*/*")?;
    let name = Text::copy_of(alloc, b"Accept")?;
    headers.push(Header { name, value })?;
    Ok(headers)
}

/// A request for this target, of the host of this name.
pub fn request(alloc: Global, host: &str, target: &str) -> Result<Request, NoMemory> {
    Ok(Request {
        method: Text::copy_of(alloc, b"GET")?,
        scheme: Scheme::Http,
        server: Addr::V4(SERVER),
        port: 80,
        host: Text::copy_of(alloc, host.as_bytes())?,
        client: Addr::V4(SERVER),
        target: Text::copy_of(alloc, target.as_bytes())?,
        headers: headers(alloc)?,
    })
}

/// What both calls answer.
#[derive(Drop)]
struct Answers {
    answer: Answer,
    whole: WholeRun,
}

// Copies of what the calls answer.
fn answered<E: Ledger, B: Ledger>(
    for_evals: Blank,
    for_bytes: Blank,
    alloc: Global,
    config: &Config,
    world: &World,
    request: &Request,
) -> Result<Answers, NoMemory>
    requires target { begins_with_slash request.now.target ≡ true }
    requires evals_name { for_evals.name ≡ E.name }
    requires evals_parts { for_evals.parts ≡ E.parts }
    requires evals_whole { 0 < for_evals.parts }
    requires bytes_name { for_bytes.name ≡ B.name }
    requires bytes_parts { for_bytes.parts ≡ B.parts }
    requires bytes_whole { 0 < for_bytes.parts }
{
    let mut evals = Counter::<E>::new(for_evals);
    let mut bytes = Counter::<B>::new(for_bytes);
    let mut over = PlainOverrides::new(alloc, config, world, &mut bytes);
    let answer = evaluate(alloc, config, world, &mut over, request, &mut evals)?.clone()?;
    let whole = whole_run(alloc, config, world, &mut over, request, &mut evals)?.clone()?;
    Ok(Answers { answer, whole })
}

// The lines of places, each with a blank behind it.
fn lines_text(alloc: Global, places: &[Place]) -> Result<String, NoMemory> {
    let mut text = String::new(alloc);
    for place in places {
        let line = format!(in alloc; "{} ", place.line)?;
        text.push_str(&line)?;
    }
    Ok(text)
}

// There are so many steps, of which a trail keeps the first, and these lines were asked.
fn check_answers(
    rt: &impl Abort,
    alloc: Global,
    answers: &Answers,
    events: usize,
    needs: &str,
    label: &str,
) -> Result<(), Fail> {
    let Answers { answer, whole } = answers;
    assert!(rt; answer.events == events as u64, "{label}");
    assert!(rt;
        answer.trail.as_slice().len() == events.min(LONGEST_TRAIL),
        "{label}"
    );
    assert!(rt; whole.events.as_slice().len() == events, "{label}");
    let lines = lines_text(alloc, whole.needs.as_slice())?;
    assert!(rt; lines.as_bytes() == needs.as_bytes(), "{label}");
    Ok(())
}

fn answers_in(
    rt: &impl Abort,
    alloc: Global,
    world: &World,
    target: &str,
) -> Result<Answers, Fail> {
    let request = request(alloc, "localhost", target)?;
    if !begins_with_slash(request.target.as_bytes()) {
        panic!(rt; "a target without a slash");
    }
    let Ok(config) = config_of(alloc, world) else {
        panic!(rt; "no configuration");
    };
    Ok(answered::<Brand, Brand>(
        Blank::new(1),
        Blank::new(1),
        alloc,
        &config,
        world,
        &request,
    )?)
}

// A main file, a target, how many steps there are, and the lines that were asked in the last pass.
static ROWS: &[(&str, &str, usize, &str)] = &[
    ("DocumentRoot /srv\n", "/f", 5, ""),
    // 100 rounds of one rule, and 99 further ones told
    (
        "DocumentRoot /srv\nRewriteEngine On\nRewriteRule ^ - [N=100]\n",
        "/f",
        201,
        "",
    ),
    // the lines of the tree that is merged, in their order
    (
        "DocumentRoot /srv\n<Directory />\nRequire ip 10\n</Directory>\n<Directory /srv>\nAuthMerging Or\n\
<RequireAll>\nRequire all granted\n<RequireNone>\nRequire method POST\n</RequireNone>\n</RequireAll>\n</Directory>\n",
        "/f",
        7,
        "3 8 10 ",
    ),
    // those of a request that is refused
    (
        "DocumentRoot /srv\n<Directory />\nRequire all denied\n</Directory>\n",
        "/f",
        6,
        "3 ",
    ),
    // those of the last pass, and not of the first one; none where the last pass ends before they are asked
    (
        "DocumentRoot /srv\n<Directory /srv>\nRequire all granted\nRewriteEngine On\nRewriteRule ^a$ d/a\n\
</Directory>\n<Location /d>\nRequire local\nRequire method GET\n</Location>\n",
        "/a",
        16,
        "8 9 ",
    ),
    (
        "DocumentRoot /srv\nRedirect /d /e\n<Directory /srv>\nRequire all granted\nRewriteEngine On\n\
RewriteRule ^a$ d/a\n</Directory>\n",
        "/a",
        11,
        "",
    ),
    // a pass that is too many
    (
        "DocumentRoot /srv\nLimitInternalRecursion 1\n<Directory /srv>\nRequire all granted\nRewriteEngine On\n\
RewriteRule ^ /x\n</Directory>\n",
        "/a",
        16,
        "4 ",
    ),
];

#[test]
fn answers_are_counted(rt: HostRuntime) -> Result<(), Fail> {
    let alloc = rt.alloc();
    for &(main, target, events, needs) in ROWS {
        let world = world_of(alloc, main)?;
        let answers = answers_in(&rt, alloc, &world, target)?;
        check_answers(&rt, alloc, &answers, events, needs, main)?;
    }
    Ok(())
}
