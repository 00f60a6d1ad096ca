//! The summaries of generated scripts. What is wanted was computed by `bench/generate.sh`, a plain program that knows
//! no more of httpd than what the three texts of the script do.

ghost use Rattle.std.specs.Prelude.{◌≡◌, ◌<◌};

use hc_base::{Counter, NoMemory, Text};
use hc_generate::summary;
use hc_words::DEFAULT_CELLS;
use std::alloc::Global;
use std::marker::Brand;
use std::sync::ledger::{Blank, Ledger};

// A seed, and its summary.
static SUMMARIES: &[(u64, &str)] = &[
    (
        0,
        "{\"summary\":{\"asks\":1800,\"denied\":556,\"evaluations\":1748,\
         \"files\":9,\"missing\":1235,\"no_memory\":0}}\n",
    ),
    (
        7,
        "{\"summary\":{\"asks\":1823,\"denied\":642,\"evaluations\":1767,\
         \"files\":16,\"missing\":1165,\"no_memory\":0}}\n",
    ),
    (
        18_446_744_073_709_551_615,
        "{\"summary\":{\"asks\":1796,\"denied\":603,\"evaluations\":1764,\
         \"files\":25,\"missing\":1168,\"no_memory\":0}}\n",
    ),
];

fn summed<E: Ledger, B: Ledger>(
    alloc: Global,
    seed: u64,
    for_evals: Blank,
    for_bytes: Blank,
) -> Result<Text, NoMemory>
    requires evals_name { for_evals.name ≡ E.name }
    requires evals_parts { for_evals.parts ≡ E.parts }
    requires evals_whole { 0 < for_evals.parts }
    requires bytes_name { for_bytes.name ≡ B.name }
    requires bytes_parts { for_bytes.parts ≡ B.parts }
    requires bytes_whole { 0 < for_bytes.parts }
{
    let mut evals = Counter::<E>::new(for_evals);
    let mut bytes = Counter::<B>::new(for_bytes);
    summary(alloc, DEFAULT_CELLS, seed, &mut evals, &mut bytes)
}

fn summary_of(alloc: Global, seed: u64) -> Result<Text, NoMemory> {
    summed::<Brand, Brand>(alloc, seed, Blank::new(1), Blank::new(1))
}

#[test]
fn generated_scripts_are_summed_up(rt: HostRuntime) -> Result<(), NoMemory> {
    for &(seed, wanted) in SUMMARIES {
        assert!(rt;
            summary_of(rt.alloc(), seed)?.as_bytes() == wanted.as_bytes(),
            "{wanted}"
        );
    }
    Ok(())
}
