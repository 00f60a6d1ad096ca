//! What each directive and section gives, by its meaning.
ghost use Rattle.hc_base.specs.Gives.{Gives};
ghost use Rattle.hc_config.specs.Among.{among_of};
ghost use Rattle.hc_config.specs.Directives.{directive_giving, giving, section_giving};

use crate::among::Among;
use crate::conditions::{else_if, else_section, if_section};
use crate::containers::Container;
use crate::effect::{
    Effect, EffectFault, alias, allow_override, counted, document_root, options, server_alias,
    server_name, server_root, this_argument,
};
use crate::redirect::{redirect, redirect_as};
use crate::requiring::{auth_merging, require, require_container};
use crate::rewrites::{
    recursion, rewrite_base, rewrite_cond, rewrite_engine, rewrite_map, rewrite_options,
    rewrite_rule,
};
use crate::sections::{Seen, directory_section, match_section, section, virtual_host};
use crate::status::{PERMANENT, TEMPORARY};
use crate::targets::PathForm;
use hc_base::CowStr;
use hc_table::{Directive, Meaning, SectionName};

/// What a directive or section gives with these words.
pub(crate) fn give(meaning: Meaning, among: &Among, words: &[CowStr]) -> Result<Effect, EffectFault>
    ensures { Gives result (giving meaning (among_of among.now) words.now) }
{
    match meaning {
        Meaning::Directive(directive) => give_directive(directive, among, words),
        Meaning::Section(section) => give_section(section, among, words),
    }
}

fn give_directive(
    directive: Directive,
    among: &Among,
    words: &[CowStr],
) -> Result<Effect, EffectFault>
    ensures { Gives result (directive_giving directive (among_of among.now) words.now) }
{
    match directive {
        Directive::ServerRoot => server_root(words),
        Directive::DocumentRoot => document_root(among, words),
        Directive::Define => counted(1, 2, words),
        Directive::Include | Directive::IncludeOptional => counted(1, 1, words),
        Directive::Alias | Directive::ScriptAlias => alias(PathForm::Plain, among, words),
        Directive::AliasMatch => alias(PathForm::Match, among, words),
        Directive::Redirect => redirect(PathForm::Plain, among, words),
        Directive::RedirectMatch => redirect(PathForm::Match, among, words),
        Directive::RedirectPermanent => redirect_as(PathForm::Plain, PERMANENT, among, words),
        Directive::RedirectTemp => redirect_as(PathForm::Plain, TEMPORARY, among, words),
        Directive::UseCanonicalName => this_argument("Off", words),
        Directive::UserDir => this_argument("disabled", words),
        Directive::AccessFileName => this_argument(".htaccess", words),
        Directive::LoadModule | Directive::Inert => Ok(Effect::Nothing),
        Directive::ServerName => server_name(among, words),
        Directive::ServerAlias => server_alias(among, words),
        Directive::Options => options(among, words),
        Directive::AllowOverride => allow_override(words),
        Directive::Require => require(among, words),
        Directive::AuthMerging => auth_merging(words),
        Directive::RewriteEngine => rewrite_engine(words),
        Directive::RewriteBase => rewrite_base(among, words),
        Directive::RewriteCond => rewrite_cond(among, words),
        Directive::RewriteRule => rewrite_rule(among, words),
        Directive::RewriteOptions => rewrite_options(words),
        Directive::RewriteMap => rewrite_map(among, words),
        Directive::LimitInternalRecursion => recursion(words),
    }
}

fn give_section(name: SectionName, among: &Among, words: &[CowStr]) -> Result<Effect, EffectFault>
    ensures { Gives result (section_giving name (among_of among.now) words.now) }
{
    match name {
        SectionName::IfDefine | SectionName::IfModule => counted(1, 1, words),
        SectionName::VirtualHost => virtual_host(among, words),
        SectionName::Directory => directory_section(among, words),
        SectionName::DirectoryMatch => match_section(Seen::Directory, among, words),
        SectionName::Files => section(Seen::Files, among, words),
        SectionName::FilesMatch => match_section(Seen::Files, among, words),
        SectionName::Location => section(Seen::Location, among, words),
        SectionName::LocationMatch => match_section(Seen::Location, among, words),
        SectionName::RequireAll => require_container(Container::All, among, words),
        SectionName::RequireAny => require_container(Container::Any, among, words),
        SectionName::RequireNone => require_container(Container::NoneOf, among, words),
        SectionName::If => if_section(among, words),
        SectionName::ElseIf => else_if(among, words),
        SectionName::Else => else_section(among, words),
    }
}
