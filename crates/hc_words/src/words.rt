ghost use Rattle.std.specs.Prelude.{◌≡◌, IfOk, codes, map, string_bytes};
ghost use Rattle.std.specs.Option.{option_map};
ghost use Rattle.clap.specs.Words.{app_of, first_value, found_of, kind_of, with_rule};
ghost use Rattle.hc_words.specs.Words.{Reads, bare, cells_of, command, fault_by, option_rule};
ghost use Rattle.hc_words.specs.Words.{seed_of, words_from, words_of};

use crate::decimal::decimal_within;
use clap::error::ErrorKind;
use clap::{Arg, ArgAction, ArgMatches, Command, Error};
use std::alloc::{AllocError, Global};

/// The most branches that the words may allow an analysis.
pub const MOST_CELLS: u32 = 100_000;

/// How many branches an analysis may follow where the words don't say it.
pub const DEFAULT_CELLS: u32 = 20_000;

/// What the words of the command line ask for.
#[derive(Clone, Copy)]
pub struct Words {
    /// How many branches an analysis may follow (`--cells`).
    pub cells: u32,
    /// The seed of a script that is made and run in place of one that is read (`--generate`).
    pub generate: Option<u64>,
}

/// Why words are not read.
#[derive(Clone, Copy)]
pub enum WordsFault {
    /// Memory was refused.
    NoMemory,
    /// The words are not those of the command, or a value isn't a number in its range.
    Refused,
}

/// What the words, without the program's name, ask for: `--cells` and `--generate`, each at most
/// once, with its value in the next word or after `=`.
pub fn read_words(alloc: Global, words: &[String]) -> Result<Words, WordsFault>
    ensures { Reads result (words_of (map string_bytes words.now)) }
{
    let Ok(command) = command(alloc) else {
        return Err(WordsFault::NoMemory);
    };
    match command.try_get_matches_from(words) {
        Ok(matches) => words_in(&matches).ok_or(WordsFault::Refused),
        Err(error) => Err(fault_in(&error)),
    }
}

// The program's command, as clap reads it.
fn command<'a>(alloc: Global) -> Result<Command<'a>, AllocError>
    ensures { IfOk result (λ made. app_of made ≡ command) }
{
    let bare = bare(alloc);
    let one = with_option(alloc, bare, "cells")?;
    with_option(alloc, one, "generate")
}

// A command without flags, whose words begin behind the program's name.
fn bare<'a>(alloc: Global) -> Command<'a>
    ensures { app_of result ≡ bare }
{
    Command::new(alloc, "hc")
        .no_binary_name(true)
        .disable_help_flag(true)
        .disable_version_flag(true)
}

// The command with one option more, which takes a text, at most once.
fn with_option<'a>(
    alloc: Global,
    command: Command<'a>,
    name: &'a str,
) -> Result<Command<'a>, AllocError>
    ensures { IfOk result (λ made. app_of made ≡ with_rule (app_of command.entry) (option_rule name.entry.now)) }
{
    let option = Arg::new(alloc, name).long(name).action(ArgAction::Set);
    command.arg(option)
}

fn fault_in(error: &Error) -> WordsFault
    ensures { result ≡ fault_by (kind_of error.now) }
{
    match error.kind() {
        ErrorKind::OutOfMemory => WordsFault::NoMemory,
        _ => WordsFault::Refused,
    }
}

// What the values of the options ask for.
fn words_in(matches: &ArgMatches<'_>) -> Option<Words>
    ensures { result ≡ words_from (first_value (found_of matches.now) (codes "cells"))
        (first_value (found_of matches.now) (codes "generate")) }
{
    Some(Words {
        cells: cells_in(matches.get_str("cells"))?,
        generate: seed_in(matches.get_str("generate"))?,
    })
}

fn cells_in(text: Option<&str>) -> Option<u32>
    ensures { result ≡ cells_of (option_map (λ t. t.now) text.entry) }
{
    match text {
        Some(text) => decimal_within(text, 1, MOST_CELLS.into()).map(|n| n as u32),
        None => Some(DEFAULT_CELLS),
    }
}

fn seed_in(text: Option<&str>) -> Option<Option<u64>>
    ensures { result ≡ seed_of (option_map (λ t. t.now) text.entry) }
{
    match text {
        Some(text) => decimal_within(text, 0, u64::MAX).map(Some),
        None => Some(None),
    }
}
