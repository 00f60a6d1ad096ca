//! The words of the command line, each limit from both sides. Our own choice.

use hc_base::NoMemory;
use hc_words::{WordsFault, read_words};
use std::alloc::Global;

// Words, how many branches an analysis may follow by them, and the seed that they give.
static ASKED: &[(&str, u32, Option<u64>)] = &[
    ("", 20_000, None),
    ("--cells 1", 1, None),
    ("--cells 100000", 100_000, None),
    ("--cells=00000000000000000007", 7, None),
    ("--generate 0", 20_000, Some(0)),
    (
        "--generate 18446744073709551615",
        20_000,
        Some(18_446_744_073_709_551_615),
    ),
    ("--generate=12 --cells 34", 34, Some(12)),
];

static REFUSED: &[&str] = &[
    "--cells 0",
    "--cells 100001",
    "--cells 000000000000000000007",
    "--generate 18446744073709551616",
    "--generate 000000000000000000007",
    "--cells 1 --cells 1",
    "--generate 1 --cells 1 --generate 1",
    "--cells",
    "--cells=",
    "--cells +1",
    "--generate -1",
    "--generate 0x1",
    "--cell 1",
    "-c 1",
    "1",
    "--cells 1 1",
    "--help",
    "--version",
];

fn split_words(alloc: Global, text: &str) -> Result<Vec<String>, NoMemory> {
    let mut words = Vec::new(alloc);
    for word in text.split_whitespace() {
        words.push(String::from_str(alloc, word)?)?;
    }
    Ok(words)
}

#[test]
fn words_ask_for_branches_and_a_seed(rt: HostRuntime) -> Result<(), NoMemory> {
    for &(text, cells, seed) in ASKED {
        let words = split_words(rt.alloc(), text)?;
        assert!(rt;
            matches!(read_words(rt.alloc(), &words), Ok(asked) if asked.cells == cells && asked.generate == seed),
            "{text}"
        );
    }
    Ok(())
}

#[test]
fn other_words_are_refused(rt: HostRuntime) -> Result<(), NoMemory> {
    for text in REFUSED {
        let words = split_words(rt.alloc(), text)?;
        assert!(rt;
            matches!(read_words(rt.alloc(), &words), Err(WordsFault::Refused)),
            "{text}"
        );
    }
    Ok(())
}
