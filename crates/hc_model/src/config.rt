ghost use Rattle.std.specs.Prelude.{◌≡◌};

use crate::{Alias, Body, Map, Read, Redirect, Section};
use hc_base::{List, NoMemory, Place, Text, copy_option};

/// What a configuration says.
#[derive(Drop)]
pub struct Config {
    pub main: Server,
    /// The virtual hosts, in the order of their lines (Apache manual, "Virtual Hosts").
    pub hosts: List<Server>,
    /// The Define lines, in their order (core).
    pub defines: List<Define>,
    /// The modules that are present.
    pub modules: List<Text>,
    /// What the configuration rests on.
    pub reads: List<Read>,
}

/// One of the servers of a configuration.
#[derive(Clone, Copy, PartialEq, Eq)]
pub enum HostId {
    Main,
    /// A virtual host, by its place among them, counted from 0.
    Nth(u32),
}

/// What one server is configured to: the main server or a virtual host.
#[derive(Drop)]
pub struct Server {
    /// The line of its `<VirtualHost>`; the main server has an empty file and line 0.
    pub place: Place,
    /// The addresses of its `<VirtualHost>`.
    pub addresses: List<HostAddr>,
    /// ServerName (core).
    pub name: Option<Text>,
    /// ServerAlias (core).
    pub names: List<Text>,
    /// The path of the last `DocumentRoot` line (core).
    pub root: Option<Text>,
    /// The Redirect directives, in the order of their lines (mod_alias).
    pub redirects: List<Redirect>,
    /// The aliases, in the order of their lines (mod_alias).
    pub aliases: List<Alias>,
    /// What stands outside its sections.
    pub body: Body,
    pub sections: List<Section>,
    /// The most internal redirects (core, LimitInternalRecursion).
    pub recursion: Option<u32>,
    /// The maps of RewriteMap (mod_rewrite).
    pub rewrite_maps: List<Map>,
}

/// An address of a virtual host, IPv4 with a port. None is `*`.
#[derive(Clone, Copy, PartialEq, Eq)]
pub struct HostAddr {
    pub addr: Option<u32>,
    pub port: u16,
}

/// A Define line (Apache manual, core).
#[derive(Clone, Drop)]
pub struct Define {
    pub name: Text,
    pub value: Option<Text>,
}

impl Clone for Server {
    ghost is_clone = { λ server copy. copy ≡ server };

    fn clone(&self) -> Result<Server, NoMemory> {
        Ok(Server {
            place: self.place.clone()?,
            addresses: self.addresses.copy()?,
            name: copy_option(&self.name)?,
            names: self.names.copy()?,
            root: copy_option(&self.root)?,
            redirects: self.redirects.copy()?,
            aliases: self.aliases.copy()?,
            body: self.body.clone()?,
            sections: self.sections.copy()?,
            recursion: self.recursion,
            rewrite_maps: self.rewrite_maps.copy()?,
        })
    }
}

impl Clone for Config {
    ghost is_clone = { λ config copy. copy ≡ config };

    fn clone(&self) -> Result<Config, NoMemory> {
        Ok(Config {
            main: self.main.clone()?,
            hosts: self.hosts.copy()?,
            defines: self.defines.copy()?,
            modules: self.modules.copy()?,
            reads: self.reads.copy()?,
        })
    }
}
