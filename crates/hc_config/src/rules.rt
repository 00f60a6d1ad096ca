ghost use Rattle.std.specs.Prelude.{◌≡◌, ◌&&◌, true, IfOk, Result};
ghost use Rattle.hc_base.specs.Gives.{Gives, GivesList};
ghost use Rattle.hc_base.specs.Rules.{rule};
ghost use Rattle.hc_flat.specs.EntriesView.{entry_of};
ghost use Rattle.hc_lines.specs.Words.{read_words};
ghost use Rattle.hc_table.specs.Directives.{directive_rows};
ghost use Rattle.hc_table.specs.Table.{find_in};
ghost use Rattle.hc_config.specs.Among.{among_of};
ghost use Rattle.hc_config.specs.Rules.{closing, follows_its_chain, if_known, if_placed, in_wild_directory, is_apart};
ghost use Rattle.hc_config.specs.Rules.{is_closing, is_later_branch, is_of_directories, is_of_form, is_of_rewriting};
ghost use Rattle.hc_config.specs.Rules.{is_require, judged, judged_apart, read_given, refused_behind, spelling_of};
ghost use Rattle.hc_config.specs.Rules.{stands_apart, supported, unknown_kind};
ghost use Rattle.hc_config.specs.Sources.{may_stand, unless_forbidden};

use crate::among::Among;
use crate::effect::{Effect, EffectFault};
use crate::giving::give;
use crate::requiring::has_unknown_kind;
use hc_base::codes::{OVERRIDE_NOT_ALLOWED, REWRITE_CONTEXT, UNSUPPORTED_DIRECTIVE, WRONG_CONTEXT};
use hc_base::{AtByte, CowStr, Fault, NoMemory};
use hc_flat::EntryView;
use hc_lines::{conf_words, rewrite_words};
use hc_model::EntryForm;
use hc_table::{
    Context, Directive, DirectiveKind, Meaning, SectionName, Wording, directive_named, meaning_of,
};
use std::alloc::Global;

/// What an entry gives, or the smallest of the rules that it breaks (specs/Broken.antt).
#[tactic(auto, unfolding(crate::specs::Rules::judged))]
pub(crate) fn judge(among: &Among) -> Result<Effect, EffectFault>
    ensures { Gives result (judged among.now.source among.now.context (among_of among.now)) }
{
    if is_closing(among.entry.form) {
        return Ok(closing(meaning_of(among.entry.name.as_bytes())));
    }
    match kind_of(among.entry) {
        Some(kind) => judge_as(kind, among),
        None => Err(broken(UNSUPPORTED_DIRECTIVE)),
    }
}

fn is_closing(form: EntryForm) -> bool
    ensures { result ≡ is_closing form }
{
    matches!(form, EntryForm::Close)
}

// The end of a section that has settings of its own, or of a container of Require lines.
fn closing(meaning: Option<Meaning>) -> Effect
    ensures { result ≡ closing meaning }
{
    let Some(Meaning::Section(section)) = meaning else {
        return Effect::Nothing;
    };
    match section {
        SectionName::IfDefine | SectionName::IfModule => Effect::Nothing,
        SectionName::RequireAll | SectionName::RequireAny | SectionName::RequireNone => {
            Effect::Releases
        }
        _ => Effect::Closes,
    }
}

fn broken(code: u8) -> EffectFault
    ensures { result ≡ Fault.Refused (record { code = code; at = 0 }) }
{
    Fault::Refused(AtByte::rule(code))
}

// The row of an entry's name, where it is one of its form.
fn kind_of(entry: EntryView) -> Option<DirectiveKind>
    ensures { result ≡ supported (entry_of entry.entry).form (find_in directive_rows (entry_of entry.entry).name) }
{
    match directive_named(entry.name.as_bytes()) {
        Some(kind) if is_of_form(entry.form, kind.meaning) => Some(kind),
        _ => None,
    }
}

// Only a container opens a section, and only another name is a directive.
fn is_of_form(form: EntryForm, meaning: Meaning) -> bool
    ensures { result ≡ is_of_form form meaning }
{
    matches!(
        (form, meaning),
        (EntryForm::Directive, Meaning::Directive(_)) | (EntryForm::Opening, Meaning::Section(_))
    )
}

// An entry of this row.
fn judge_as(kind: DirectiveKind, among: &Among) -> Result<Effect, EffectFault>
    ensures { Gives result (if_known among.now.source among.now.context kind (among_of among.now)) }
{
    if stands_apart(kind, among) {
        judge_apart(kind, among)
    } else {
        judge_placed(kind, among)
    }
}

// Where it may stand.
fn judge_placed(kind: DirectiveKind, among: &Among) -> Result<Effect, EffectFault>
    ensures { Gives result (if_placed among.now.source
        (may_stand among.now.source among.now.context kind && follows_its_chain kind (among_of among.now))
        kind (among_of among.now)) }
{
    if among.source.may_stand(among.context, kind) && follows_its_chain(kind, among) {
        return read_where_allowed(kind, among);
    }
    if is_require(kind.meaning) && unknown_kind(kind, among)? {
        return Err(broken(UNSUPPORTED_DIRECTIVE));
    }
    Err(broken(WRONG_CONTEXT))
}

fn is_require(meaning: Meaning) -> bool
    ensures { result ≡ is_require meaning }
{
    matches!(meaning, Meaning::Directive(Directive::Require))
}

// A directive of rewriting where no directory of its own stands.
fn stands_apart(kind: DirectiveKind, among: &Among) -> bool
    ensures { result ≡ stands_apart among.now.context kind (among_of among.now) }
{
    (is_of_rewriting(kind.meaning) && is_apart(among.context))
        || (is_of_directories(kind.meaning) && in_wild_directory(among))
}

fn in_wild_directory(among: &Among) -> bool
    ensures { result ≡ in_wild_directory among.now.context (among_of among.now) }
{
    matches!(among.context, Context::Directory) && among.wild
}

fn is_of_rewriting(meaning: Meaning) -> bool
    ensures { result ≡ is_of_rewriting meaning }
{
    matches!(meaning, Meaning::Directive(Directive::RewriteMap)) || is_of_directories(meaning)
}

// The directives of rewriting that directories may have.
fn is_of_directories(meaning: Meaning) -> bool
    ensures { result ≡ is_of_directories meaning }
{
    matches!(
        meaning,
        Meaning::Directive(
            Directive::RewriteEngine
                | Directive::RewriteBase
                | Directive::RewriteCond
                | Directive::RewriteRule
                | Directive::RewriteOptions
        )
    )
}

// Sections that no directory stands for.
fn is_apart(context: Context) -> bool
    ensures { result ≡ is_apart context }
{
    matches!(
        context,
        Context::DirectoryMatch | Context::Files | Context::Location | Context::IfSection
    )
}

// A Require line of a kind that is not known.
fn unknown_kind(kind: DirectiveKind, among: &Among) -> Result<bool, NoMemory>
    ensures { IfOk result (λ is. is
        ≡ unknown_kind (read_words (spelling_of kind.wording) (among_of among.now).entry.rest)) }
{
    match read_as(among.alloc, kind.wording, among.entry.rest) {
        Ok(words) => Ok(has_unknown_kind(&words)),
        Err(Fault::Refused(_)) => Ok(false),
        Err(Fault::NoMemory) => Err(NoMemory),
    }
}

// `<ElseIf>` and `<Else>` stand right behind a section of their chain.
fn follows_its_chain(kind: DirectiveKind, among: &Among) -> bool
    ensures { result ≡ follows_its_chain kind (among_of among.now) }
{
    among.chained || !is_later_branch(kind.meaning)
}

fn is_later_branch(meaning: Meaning) -> bool
    ensures { result ≡ is_later_branch meaning }
{
    matches!(
        meaning,
        Meaning::Section(SectionName::ElseIf | SectionName::Else)
    )
}

// Of a rule that it breaks and that its class is not allowed the smaller number counts.
fn read_where_allowed(kind: DirectiveKind, among: &Among) -> Result<Effect, EffectFault>
    ensures { Gives result (if_placed among.now.source true kind (among_of among.now)) }
{
    let given = read_and_give(kind, among);
    unless_forbidden(among.source.is_forbidden(kind), given)
}

// The same of a rule that it breaks, of where it stands and of its class.
fn judge_apart(kind: DirectiveKind, among: &Among) -> Result<Effect, EffectFault>
    ensures { Gives result (judged_apart among.now.source kind (among_of among.now)) }
{
    let refused = refused_behind(&read_and_give(kind, among));
    unless_forbidden(among.source.is_forbidden(kind), refused)
}

fn unless_forbidden(
    forbidden: bool,
    given: Result<Effect, EffectFault>,
) -> Result<Effect, EffectFault>
    ensures { (wanted : Result Effect AtByte) → Gives given wanted
        → Gives result (unless_forbidden forbidden wanted) }
{
    if !forbidden {
        return given;
    }
    forbidden_behind(&given)
}

// Its class is not allowed, whatever it gives.
fn forbidden_behind(given: &Result<Effect, EffectFault>) -> Result<Effect, EffectFault>
    ensures { (wanted : Result Effect AtByte) → Gives given.now wanted
        → Gives result (unless_forbidden true wanted) }
{
    match given {
        Err(Fault::NoMemory) => Err(Fault::NoMemory),
        Err(Fault::Refused(rule)) if rule.code <= OVERRIDE_NOT_ALLOWED => {
            Err(Fault::Refused(*rule))
        }
        _ => Err(broken(OVERRIDE_NOT_ALLOWED)),
    }
}

// It may not stand there, whatever its words.
fn refused_behind(given: &Result<Effect, EffectFault>) -> Result<Effect, EffectFault>
    ensures { (wanted : Result Effect AtByte) → Gives given.now wanted
        → Gives result (refused_behind (rule REWRITE_CONTEXT) wanted) }
{
    match given {
        Err(Fault::NoMemory) => Err(Fault::NoMemory),
        Err(Fault::Refused(rule)) if rule.code <= REWRITE_CONTEXT => Err(Fault::Refused(*rule)),
        _ => Err(broken(REWRITE_CONTEXT)),
    }
}

#[tactic(auto, unfolding(crate::specs::Rules::read_given))]
fn read_and_give(kind: DirectiveKind, among: &Among) -> Result<Effect, EffectFault>
    ensures { Gives result (read_given kind (among_of among.now)) }
{
    match read_as(among.alloc, kind.wording, among.entry.rest) {
        Ok(words) => give(kind.meaning, among, &words),
        Err(fault) => Err(fault),
    }
}

fn read_as<'t>(
    alloc: Global,
    wording: Wording,
    rest: &'t str,
) -> Result<Vec<CowStr<'t>>, EffectFault>
    ensures { GivesList result (read_words (spelling_of wording) rest.now) }
{
    match wording {
        Wording::Configuration => conf_words(alloc, rest),
        Wording::Rewriting => rewrite_words(alloc, rest),
    }
}
