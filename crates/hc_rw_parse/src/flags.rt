//! The flags of a RewriteRule (Apache manual, "RewriteRule Flags").
ghost use Rattle.std.specs.Prelude.{◌≡◌, IfOk, OnOk, Some};
ghost use Rattle.std.specs.List.{slice_split};
ghost use Rattle.hc_rw_parse.specs.RuleFlags.{flagged_by, flags_in, is_comma, is_nocase, no_flags, not_bracketed};
ghost use Rattle.hc_rw_parse.specs.RuleFlags.{nothing_flagged, with_flag, with_refusal, with_text};

use crate::brackets::{inside, is_bracketed};
use crate::flag::{Flag, flag_of};
use hc_base::codes::BAD_FLAG;
use hc_base::{AtByte, Fault, List, NoMemory};
use hc_expr::lesser;
use hc_model::Flags;
use std::alloc::Global;

/// What was read of the flags of a rule.
#[derive(Drop)]
pub(crate) struct Flagged {
    pub flags: Flags,
    /// NC: the pattern is read without case.
    pub nocase: bool,
    /// Of what is refused the rule with the smallest number.
    pub broken: Option<AtByte>,
}

impl Flagged {
    /// No flag was read.
    pub(crate) fn nothing(alloc: Global) -> Flagged
        ensures { result ≡ nothing_flagged }
    {
        Flagged {
            flags: no_flags(alloc),
            nocase: false,
            broken: None,
        }
    }

    // A word that is not in brackets.
    fn refused(alloc: Global) -> Flagged
        ensures { result ≡ not_bracketed }
    {
        Flagged {
            flags: no_flags(alloc),
            nocase: false,
            broken: Some(AtByte::rule(BAD_FLAG)),
        }
    }

    // The flag of a text, or the rule that it breaks.
    fn read(&mut self, alloc: Global, text: &[u8]) -> Result<(), NoMemory>
        ensures { OnOk result (self.new ≡ with_text self.old text.now) }
    {
        match flag_of(alloc, text) {
            Ok(flag) => self.take(flag),
            Err(Fault::Refused(broken)) => {
                self.broken = Some(with_refusal(self.broken, broken));
                Ok(())
            }
            Err(Fault::NoMemory) => Err(NoMemory),
        }
    }

    fn take(&mut self, flag: Flag) -> Result<(), NoMemory>
        ensures { OnOk result (self.new ≡ record self.old {
          flags = with_flag self.old.flags flag;
          nocase = is_nocase flag self.old.nocase;
        }) }
    {
        self.nocase = is_nocase(&flag, self.nocase);
        add(&mut self.flags, flag)
    }
}

fn is_nocase(flag: &Flag, nocase: bool) -> bool
    ensures { result ≡ is_nocase flag.now nocase }
{
    matches!(flag, Flag::NoCase) || nocase
}

fn with_refusal(earlier: Option<AtByte>, broken: AtByte) -> AtByte
    ensures { result ≡ with_refusal earlier broken }
{
    match earlier {
        Some(earlier) => lesser(earlier, broken),
        None => broken,
    }
}

fn no_flags(alloc: Global) -> Flags
    ensures { result ≡ no_flags }
{
    Flags {
        last: false,
        end: false,
        next: false,
        chain: false,
        skip: 0,
        forbid: false,
        gone: false,
        redirect: 0,
        qsa: false,
        qsd: false,
        noescape: false,
        pass: false,
        discard: false,
        sets: List::new(alloc),
        rounds: 0,
    }
}

// Of equal flags the last one counts; of E each.
fn add(flags: &mut Flags, flag: Flag) -> Result<(), NoMemory>
    ensures { OnOk result (flags.new ≡ with_flag flags.old flag) }
{
    match flag {
        Flag::Last => flags.last = true,
        Flag::End => flags.end = true,
        Flag::Next(rounds) => {
            flags.next = true;
            flags.rounds = rounds;
        }
        Flag::Chain => flags.chain = true,
        Flag::Skip(count) => flags.skip = count,
        Flag::Forbid => flags.forbid = true,
        Flag::Gone => flags.gone = true,
        Flag::Redirect(status) => flags.redirect = status,
        Flag::AppendQuery => flags.qsa = true,
        Flag::DiscardQuery => flags.qsd = true,
        Flag::NoEscape => flags.noescape = true,
        Flag::Pass => flags.pass = true,
        Flag::DiscardPath => flags.discard = true,
        Flag::Set(set) => return flags.sets.push(set),
        Flag::NoCase | Flag::NoEffect => {}
    }
    Ok(())
}

/// `[flag,..]`, without blanks.
pub(crate) fn flags_in(alloc: Global, word: &[u8]) -> Result<Flagged, NoMemory>
    ensures { IfOk result (λ flagged. flagged ≡ flags_in word.now) }
{
    if is_bracketed(word) {
        flagged_by(alloc, inside(word))
    } else {
        Ok(Flagged::refused(alloc))
    }
}

// The flags of texts between commas.
fn flagged_by(alloc: Global, texts: &[u8]) -> Result<Flagged, NoMemory>
    ensures { IfOk result (λ flagged. flagged ≡ flagged_by (slice_split is_comma texts.now)) }
{
    let mut flagged = Flagged::nothing(alloc);
    for text in texts.split(|byte| *byte == b',') {
        flagged.read(alloc, text)?;
    }
    Ok(flagged)
}
