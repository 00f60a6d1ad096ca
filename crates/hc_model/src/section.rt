ghost use Rattle.std.specs.Prelude.{◌≡◌, IfOk};

use crate::{Event, Expression, Merging, Redirect, Regex, ReqTree, Requirement, Rules};
use hc_base::{List, NoMemory, Place, Span, Text, copy_option};
use hc_table::OptionName;

/// Where a section applies (Apache manual, "Configuration Sections").
#[derive(Clone, Drop)]
pub enum Reach {
    /// `<Directory>`: the pattern of its path.
    Dir(Regex),
    /// `<DirectoryMatch>` and `<Directory ~>`.
    DirSearch(Regex),
    /// `<Files>` and `<FilesMatch>`.
    Files(Regex),
    /// `<Location>`.
    Location(Text),
    /// `<Location>` with wildcards.
    LocationGlob(Regex),
    /// `<LocationMatch>` and `<Location ~>`.
    LocationSearch(Regex),
    /// `<If>`.
    When(Expression),
    /// `<ElseIf>`, and `<Else>` with the expression `true`: where it holds, and none of the chain right before it
    /// does.
    Otherwise(Expression),
}

/// A section.
#[cycle(sections)]
#[derive(Drop)]
pub struct Section {
    pub place: Place,
    pub span: Span,
    pub reach: Reach,
    pub body: Body,
}

/// What stands in a section, in a server outside its sections, or in a `.htaccess`.
#[cycle(sections)]
#[derive(Drop)]
pub struct Body {
    /// The Options lines (core).
    pub options: List<OptStep>,
    /// AllowOverride (core).
    pub allow: Option<Allowed>,
    /// AuthMerging (mod_authz_core).
    pub merging: Merging,
    /// The Require lines and their containers (mod_authz_core).
    pub require: Option<ReqTree>,
    /// RewriteEngine (mod_rewrite).
    pub engine: Option<bool>,
    /// RewriteBase.
    pub base: Option<Text>,
    pub rules: Rules,
    /// Some directive of mod_rewrite stands here.
    pub rewrites: bool,
    /// The Redirect directives (mod_alias).
    pub redirects: List<Redirect>,
    /// The sections inside.
    pub inner: List<Section>,
    /// RewriteOptions.
    pub inherit: Inherit,
}

/// One Options line (Apache manual, core, Options).
#[derive(Drop)]
pub struct OptStep {
    /// The words have no sign: the options that were in force go.
    pub replace: bool,
    pub add: List<OptionName>,
    pub take: List<OptionName>,
}

/// What a `.htaccess` may hold: the classes of AllowOverride (Apache manual, core).
#[derive(Clone, Copy, PartialEq, Eq)]
pub struct Allowed {
    pub auth: bool,
    pub file_info: bool,
    pub indexes: bool,
    pub limit: bool,
    pub options: bool,
}

/// Whether rules that were in force run too (Apache manual, mod_rewrite, RewriteOptions).
#[derive(Clone, Copy, PartialEq, Eq)]
pub enum Inherit {
    No,
    /// `Inherit`: behind the section's own rules.
    After,
    /// `InheritBefore`.
    Before,
}

/// A `.htaccess` that was read.
#[derive(Drop)]
pub struct HtFile {
    /// The directory that it stands in.
    pub dir: Text,
    pub body: Body,
}

/// What is in force for a file name once its sections are merged (Apache manual, "Configuration
/// Sections", "How the sections are merged").
#[derive(Drop)]
pub struct Effective {
    /// FollowSymLinks or SymLinksIfOwnerMatch is in force.
    pub follow: bool,
    pub require: Requirement,
    pub engine: bool,
    /// The directory whose rules run.
    pub dir: Option<Text>,
    /// RewriteBase.
    pub base: Option<Text>,
    pub rules: Rules,
    pub redirects: List<Redirect>,
    /// The events of the sections, in the order in which they are merged.
    pub sections: List<Event>,
}

impl Clone for Section {
    ghost is_clone = { λ section copy. copy ≡ section };

    fn clone(&self) -> Result<Section, NoMemory> {
        copy_section(self)
    }
}

impl Clone for Body {
    ghost is_clone = { λ body copy. copy ≡ body };

    fn clone(&self) -> Result<Body, NoMemory> {
        copy_body(self)
    }
}

#[cycle(copy)]
fn copy_section(section: &Section) -> Result<Section, NoMemory>
    ensures { IfOk result (λ copy. copy ≡ section.now) }
{
    Ok(Section {
        place: section.place.clone()?,
        span: section.span,
        reach: section.reach.clone()?,
        body: copy_body(&section.body)?,
    })
}

#[cycle(copy)]
fn copy_body(body: &Body) -> Result<Body, NoMemory>
    ensures { IfOk result (λ copy. copy ≡ body.now) }
{
    Ok(Body {
        options: body.options.copy()?,
        allow: body.allow,
        merging: body.merging,
        require: copy_option(&body.require)?,
        engine: body.engine,
        base: copy_option(&body.base)?,
        rules: body.rules.clone()?,
        rewrites: body.rewrites,
        redirects: body.redirects.copy()?,
        inner: copy_sections(&body.inner)?,
        inherit: body.inherit,
    })
}

#[cycle(copy)]
fn copy_sections(sections: &List<Section>) -> Result<List<Section>, NoMemory>
    ensures { IfOk result (λ copy. copy ≡ sections.now) }
{
    let mut copy = List::new(sections.allocator());
    for section in sections.as_slice() {
        copy.push(copy_section(section)?)?;
    }
    Ok(copy)
}

impl Clone for OptStep {
    ghost is_clone = { λ step copy. copy ≡ step };

    fn clone(&self) -> Result<OptStep, NoMemory> {
        Ok(OptStep {
            replace: self.replace,
            add: self.add.copy()?,
            take: self.take.copy()?,
        })
    }
}

impl Clone for HtFile {
    ghost is_clone = { λ file copy. copy ≡ file };

    fn clone(&self) -> Result<HtFile, NoMemory> {
        Ok(HtFile {
            dir: self.dir.clone()?,
            body: self.body.clone()?,
        })
    }
}

impl Clone for Effective {
    ghost is_clone = { λ effective copy. copy ≡ effective };

    fn clone(&self) -> Result<Effective, NoMemory> {
        Ok(Effective {
            follow: self.follow,
            engine: self.engine,
            dir: copy_option(&self.dir)?,
            base: copy_option(&self.base)?,
            rules: self.rules.clone()?,
            redirects: self.redirects.copy()?,
            sections: self.sections.copy()?,
            require: self.require.clone()?,
        })
    }
}
