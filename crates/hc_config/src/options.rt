ghost use Rattle.std.specs.Prelude.{◌≡◌, ◌++◌, option_map, IfOk};
ghost use Rattle.std.specs.List.{list_all, list_any};
ghost use Rattle.hc_base.specs.Gives.{Gives};
ghost use Rattle.hc_table.specs.Options.{is_option, option_rows};
ghost use Rattle.hc_table.specs.Table.{find_in};
ghost use Rattle.hc_config.specs.Options.{all_signed, is_apart, is_mixed, is_unsigned, options_of, options_step};
ghost use Rattle.hc_config.specs.Options.{signed_of, step_of, with_sign, with_word, without};

use crate::effect::{EffectFault, REFUSED};
use hc_base::codes::MIXED_OPTIONS;
use hc_base::{AtByte, CowStr, Fault, List, NoMemory};
use hc_model::OptStep;
use hc_table::{OptionName, OptionWord, option_named};
use std::alloc::Global;

/// How a word of Options takes effect.
#[derive(Clone, Copy)]
pub(crate) enum Sign {
    Add,
    Take,
    /// The options that were in force go.
    Unsigned,
}

/// A word of Options, with its sign.
#[derive(Clone, Copy)]
pub(crate) struct Signed {
    sign: Sign,
    option: OptionWord,
}

/// What a line of Options does (Apache manual, core).
pub(crate) fn options_step(alloc: Global, words: &[CowStr]) -> Result<OptStep, EffectFault>
    ensures { Gives result (options_step words.now) }
{
    if words.is_empty() {
        return Err(REFUSED);
    }
    let Some(signed) = all_signed(alloc, words)? else {
        return Err(REFUSED);
    };
    if is_mixed(&signed) {
        return Err(Fault::Refused(AtByte::rule(MIXED_OPTIONS)));
    }
    Ok(step_of(alloc, &signed)?)
}

// None where a word is no option.
fn all_signed(alloc: Global, words: &[CowStr]) -> Result<Option<Vec<Signed>>, NoMemory>
    ensures { IfOk result (λ signed. option_map (λ signed. signed.items) signed ≡ all_signed words.now) }
{
    let mut signed = Vec::new(alloc);
    for word in words {
        match signed_of(word.as_str().as_bytes()) {
            Some(word) => signed.push(word)?,
            None => return Ok(None),
        }
    }
    Ok(Some(signed))
}

fn signed_of(word: &[u8]) -> Option<Signed>
    ensures { result ≡ signed_of word.now }
{
    let (byte, name) = word.split_first()?;
    let sign = match *byte {
        b'+' => Sign::Add,
        b'-' => Sign::Take,
        _ => return with_sign(Sign::Unsigned, word),
    };
    with_sign(sign, name)
}

fn with_sign(sign: Sign, name: &[u8]) -> Option<Signed>
    ensures { result ≡ with_sign sign (find_in option_rows name.now) }
{
    let option = option_named(name)?;
    Some(Signed { sign, option })
}

fn is_mixed(words: &[Signed]) -> bool
    ensures { result ≡ is_mixed words.now }
{
    any_unsigned(words) && !all_unsigned(words)
}

fn any_unsigned(words: &[Signed]) -> bool
    ensures { result ≡ list_any is_unsigned words.now }
{
    words.iter().any(|word| is_unsigned(*word))
}

fn all_unsigned(words: &[Signed]) -> bool
    ensures { result ≡ list_all is_unsigned words.now }
{
    words.iter().all(|word| is_unsigned(*word))
}

fn is_unsigned(word: Signed) -> bool
    ensures { result ≡ is_unsigned word }
{
    matches!(word.sign, Sign::Unsigned)
}

// Words take effect in their order.
fn step_of(alloc: Global, words: &[Signed]) -> Result<OptStep, NoMemory>
    ensures { IfOk result (λ step. step ≡ step_of words.now) }
{
    let mut step = OptStep {
        replace: any_unsigned(words),
        add: List::new(alloc),
        take: List::new(alloc),
    };
    for word in words {
        step = with_word(alloc, step, *word)?;
    }
    Ok(step)
}

fn with_word(alloc: Global, step: OptStep, word: Signed) -> Result<OptStep, NoMemory>
    ensures { IfOk result (λ later. later ≡ with_word step word) }
{
    let options = options_of(alloc, word.option)?;
    let (add, take) = (step.add.as_slice(), step.take.as_slice());
    match word.sign {
        Sign::Take => Ok(OptStep {
            replace: step.replace,
            add: without(alloc, &options, add)?,
            take: joined(alloc, take, &options)?,
        }),
        Sign::Add | Sign::Unsigned => Ok(OptStep {
            replace: step.replace,
            add: joined(alloc, add, &options)?,
            take: without(alloc, &options, take)?,
        }),
    }
}

// `None` is no option, and `All` stands for all but MultiViews.
fn options_of(alloc: Global, word: OptionWord) -> Result<Vec<OptionName>, NoMemory>
    ensures { IfOk result (λ options. options.items ≡ options_of word) }
{
    match word {
        OptionWord::Nothing => Ok(Vec::new(alloc)),
        OptionWord::All => [
            OptionName::Indexes,
            OptionName::Includes,
            OptionName::IncludesNoExec,
            OptionName::FollowSymLinks,
            OptionName::SymLinksIfOwnerMatch,
            OptionName::ExecCgi,
        ]
        .to_vec(alloc),
        OptionWord::One(option) => [option].to_vec(alloc),
    }
}

// Options without these.
fn without(
    alloc: Global,
    options: &[OptionName],
    held: &[OptionName],
) -> Result<List<OptionName>, NoMemory>
    ensures { IfOk result (λ left. left ≡ without options.now held.now) }
{
    let mut left = List::new(alloc);
    for option in held {
        if !is_apart(options, *option) {
            continue;
        }
        left.push(*option)?;
    }
    Ok(left)
}

fn is_apart(options: &[OptionName], option: OptionName) -> bool
    ensures { result ≡ is_apart options.now option }
{
    !is_among(options, option)
}

fn is_among(options: &[OptionName], option: OptionName) -> bool
    ensures { result ≡ list_any (is_option option) options.now }
{
    options.iter().any(|other| option == *other)
}

fn joined(
    alloc: Global,
    held: &[OptionName],
    options: &[OptionName],
) -> Result<List<OptionName>, NoMemory>
    ensures { IfOk result (λ joined. joined ≡ held.now ++ options.now) }
{
    let mut joined = held.to_vec(alloc)?;
    joined.extend_from_slice(options)?;
    Ok(List::from(joined))
}
