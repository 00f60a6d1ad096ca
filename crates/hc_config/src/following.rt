//! A rule that redirects and goes on, and what stands behind it.
ghost use Rattle.std.specs.Prelude.{◌≡◌, ◌+◌, ◌&&◌, ◌||◌, drop, not};
ghost use Rattle.hc_config.specs.Among.{among_of};
ghost use Rattle.hc_config.specs.Kinds.{is_transparent};
ghost use Rattle.hc_config.specs.Rewrites.{goes_on_behind, is_directive, is_rewrite_rule, may_redirect, rule_follows};

use crate::among::Among;
use crate::kinds::is_transparent;
use hc_flat::Entries;
use hc_model::{EntryForm, Flags, Rule};
use hc_table::{Directive, Meaning, meaning_of};
use hc_target::is_url;

/// The rule redirects without L and END (Apache manual, "RewriteRule Flags").
pub(crate) fn goes_on_behind(rule: &Rule, substitution: &[u8]) -> bool
    ensures { result ≡ goes_on_behind rule.now substitution.now }
{
    may_redirect(&rule.flags, substitution) && !ends_set(&rule.flags)
}

// R, or a substitution that is a URL.
fn may_redirect(flags: &Flags, substitution: &[u8]) -> bool
    ensures { result ≡ may_redirect flags.now substitution.now }
{
    flags.redirect != 0 || is_url(substitution)
}

fn ends_set(flags: &Flags) -> bool
    ensures { result ≡ (flags.now.last || flags.now.end) }
{
    flags.last || flags.end
}

/// Another RewriteRule follows an entry, before any section but `<IfDefine>`, `<IfModule>` and the containers of
/// Require begins or ends.
pub(crate) fn rule_follows(among: &Among) -> bool
    ensures { result ≡ rule_follows (among_of among.now).behind }
{
    follows(among.entries, among.place)
}

#[tactic(auto, using(crate::proofs::Behind::following))]
fn follows(entries: &Entries, place: usize) -> bool
    ensures { result ≡ rule_follows (drop (place + 1) entries.now) }
{
    let count = entries.len();
    if place >= count {
        return false;
    }
    for at in place + 1..count {
        let entry = entries.entry(at);
        let meaning = meaning_of(entry.name.as_bytes());
        if is_rule(entry.form, meaning) {
            return true;
        }
        if ends_look(entry.form, meaning) {
            return false;
        }
    }
    false
}

fn is_rule(form: EntryForm, meaning: Option<Meaning>) -> bool
    ensures { result ≡ (is_directive form && is_rewrite_rule meaning) }
{
    is_directive(form) && is_rewrite_rule(meaning)
}

fn ends_look(form: EntryForm, meaning: Option<Meaning>) -> bool
    ensures { result ≡ (not (is_directive form) && not (is_transparent meaning)) }
{
    !is_directive(form) && !is_transparent(meaning)
}

fn is_directive(form: EntryForm) -> bool
    ensures { result ≡ is_directive form }
{
    matches!(form, EntryForm::Directive)
}

fn is_rewrite_rule(meaning: Option<Meaning>) -> bool
    ensures { result ≡ is_rewrite_rule meaning }
{
    matches!(meaning, Some(Meaning::Directive(Directive::RewriteRule)))
}
