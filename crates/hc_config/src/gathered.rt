ghost use Rattle.std.specs.Prelude.{◌≡◌, ◌++◌, [], IfOk, OnOk};
ghost use Rattle.hc_config.specs.Levels.{nothing_gathered, section_body, section_of, server_body, server_of};
ghost use Rattle.hc_config.specs.Levels.{with_closed, with_given};

use crate::containers::{Container, section_tree};
use crate::rewriting::Rewriting;
use hc_base::{List, NoMemory, Place, Text};
use hc_model::{
    Alias, Allowed, Body, Cond, HostAddr, Inherit, Map, Merging, OptStep, Reach, Redirect, ReqTree,
    Rule, Section, Server, Spot,
};
use std::alloc::Global;
use std::mem::replace;

/// What a directive gives to the server or section in which it stands (Apache manual, core, mod_alias and
/// mod_rewrite).
#[derive(Drop)]
pub(crate) enum Given {
    /// `DocumentRoot`.
    Root(Text),
    /// `ServerName`, without a port.
    Name(Text),
    /// `ServerAlias`.
    Names(List<Text>),
    /// An alias.
    Map(Alias),
    /// A redirect.
    Send(Redirect),
    /// An `Options` line.
    Options(OptStep),
    /// `AllowOverride`.
    Allow(Allowed),
    /// `AuthMerging`.
    Merges(Merging),
    /// A Require line, or a container that is closed.
    Member(ReqTree),
    /// `RewriteEngine`.
    Engine(bool),
    /// `RewriteBase`.
    Base(Text),
    /// `RewriteOptions`.
    Inherits(Inherit),
    /// `RewriteCond`.
    Condition(Cond),
    /// `RewriteRule`.
    Rewrite(Rule),
    /// `LimitInternalRecursion`.
    Recursion(u32),
    /// `RewriteMap`.
    Values(Map),
}

/// What an opening opens.
#[derive(Drop)]
pub(crate) enum Opened {
    /// `<VirtualHost>`.
    Host(List<HostAddr>),
    /// A section that applies here.
    Reached(Reach),
}

#[derive(Drop)]
pub(crate) struct Opening {
    pub spot: Spot,
    pub opened: Opened,
    /// An `<If>` or `<ElseIf>`, behind which the chain may go on.
    pub chained: bool,
    /// A `<Directory>` with wildcards.
    pub wild: bool,
}

/// A container of Require lines, and the place of its opening.
#[derive(Drop)]
pub(crate) struct Holding {
    pub place: Place,
    pub container: Container,
}

/// A container that is open, and the members, before it, of what it stands in.
#[derive(Drop)]
pub(crate) struct Held {
    pub holding: Holding,
    pub members: List<ReqTree>,
}

/// What a server or a section has so far.
#[derive(Drop)]
pub(crate) struct Gathered {
    pub root: Option<Text>,
    pub name: Option<Text>,
    pub names: List<Text>,
    pub redirects: List<Redirect>,
    pub aliases: List<Alias>,
    pub options: List<OptStep>,
    pub allow: Option<Allowed>,
    pub sections: List<Section>,
    pub hosts: List<Server>,
    pub merging: Merging,
    /// The Require lines and containers of the innermost container, else of the section.
    pub members: List<ReqTree>,
    pub rewriting: Rewriting,
    pub recursion: Option<u32>,
    pub rewrite_maps: List<Map>,
}

impl Gathered {
    /// Nothing, with room for so many aliases where there is memory for it: a list that grows by doubling
    /// leaves holes as large as itself.
    pub(crate) fn nothing(alloc: Global, aliases: usize) -> Gathered
        ensures { result ≡ nothing_gathered }
    {
        Gathered {
            root: None,
            name: None,
            names: List::new(alloc),
            redirects: List::new(alloc),
            aliases: room_for(alloc, aliases),
            options: List::new(alloc),
            allow: None,
            sections: List::new(alloc),
            hosts: List::new(alloc),
            merging: Merging::Off,
            members: List::new(alloc),
            rewriting: Rewriting::nothing(alloc),
            recursion: None,
            rewrite_maps: List::new(alloc),
        }
    }

    /// The last line counts of DocumentRoot, ServerName, AllowOverride, AuthMerging, RewriteEngine,
    /// RewriteBase, RewriteOptions and LimitInternalRecursion; of all else every line.
    pub(crate) fn take(&mut self, given: Given) -> Result<(), NoMemory>
        ensures { OnOk result (self.new ≡ with_given self.old given) }
    {
        match given {
            Given::Root(path) => self.root = Some(path),
            Given::Name(name) => self.name = Some(name),
            Given::Names(names) => {
                let alloc = self.names.allocator();
                let own = replace(&mut self.names, List::new(alloc));
                self.names = joined(own, names.as_slice())?;
            }
            Given::Map(alias) => self.aliases.push(alias)?,
            Given::Send(redirect) => self.redirects.push(redirect)?,
            Given::Options(step) => self.options.push(step)?,
            Given::Allow(allowed) => self.allow = Some(allowed),
            Given::Merges(merging) => self.merging = merging,
            Given::Member(member) => self.members.push(member)?,
            Given::Engine(on) => self.rewriting.set_engine(on),
            Given::Base(path) => self.rewriting.set_base(path),
            Given::Inherits(inherit) => self.rewriting.set_inherit(inherit),
            Given::Condition(cond) => self.rewriting.push_cond(cond)?,
            Given::Rewrite(rule) => self.rewriting.push_rule(rule)?,
            Given::Recursion(limit) => self.recursion = Some(limit),
            Given::Values(map) => self.rewrite_maps.push(map)?,
        }
        Ok(())
    }

    /// The server that this is, with nothing else said.
    pub(crate) fn into_server(
        self,
        alloc: Global,
        place: Place,
        addresses: List<HostAddr>,
    ) -> Server
        ensures { result ≡ server_of place addresses self }
    {
        Server {
            place,
            addresses,
            name: self.name,
            names: self.names,
            root: self.root,
            redirects: self.redirects,
            aliases: self.aliases,
            body: server_body(alloc, self.options, self.rewriting),
            sections: self.sections,
            recursion: self.recursion,
            rewrite_maps: self.rewrite_maps,
        }
    }

    fn into_section(self, spot: Spot, reach: Reach) -> Section
        ensures { result ≡ section_of spot reach self }
    {
        Section {
            place: spot.place,
            span: spot.span,
            reach,
            body: self.into_body(),
        }
    }

    pub(crate) fn into_body(self) -> Body
        ensures { result ≡ section_body self }
    {
        let rewriting = self.rewriting;
        Body {
            options: self.options,
            allow: self.allow,
            merging: self.merging,
            require: section_tree(self.members),
            engine: rewriting.engine,
            base: rewriting.base,
            rules: rewriting.rules,
            rewrites: rewriting.stands,
            redirects: self.redirects,
            inner: self.sections,
            inherit: rewriting.inherit,
        }
    }

    /// What was opened is put into what is around it.
    pub(crate) fn close(
        &mut self,
        alloc: Global,
        spot: Spot,
        opened: Opened,
        inner: Gathered,
    ) -> Result<(), NoMemory>
        ensures { OnOk result (self.new ≡ with_closed spot opened inner self.old) }
    {
        match opened {
            Opened::Host(addresses) => {
                self.hosts
                    .push(inner.into_server(alloc, spot.place, addresses))
            }
            Opened::Reached(reach) => self.sections.push(inner.into_section(spot, reach)),
        }
    }
}

// No aliases, with room for so many where there is memory for it.
fn room_for(alloc: Global, aliases: usize) -> List<Alias>
    ensures { result ≡ [] }
{
    match Vec::with_capacity(alloc, aliases) {
        Ok(room) => List::from(room),
        Err(_) => List::new(alloc),
    }
}

fn joined(mut names: List<Text>, more: &[Text]) -> Result<List<Text>, NoMemory>
    ensures { IfOk result (λ joined. joined ≡ names ++ more.now) }
{
    for name in more {
        names.push(name.clone()?)?;
    }
    Ok(names)
}

// A server keeps its redirects and sections beside its body, and no RewriteBase stands in it.
fn server_body(alloc: Global, options: List<OptStep>, rewriting: Rewriting) -> Body
    ensures { result ≡ server_body options rewriting }
{
    Body {
        options,
        allow: None,
        merging: Merging::Off,
        require: None,
        engine: rewriting.engine,
        base: None,
        rules: rewriting.rules,
        rewrites: rewriting.stands,
        redirects: List::new(alloc),
        inner: List::new(alloc),
        inherit: rewriting.inherit,
    }
}
