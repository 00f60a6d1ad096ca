ghost use Rattle.std.specs.Prelude.{◌≡◌};

use crate::{Regex, Template};
use hc_base::{List, NoMemory, Place, Span, Text};

/// What an alias or a redirect looks for in a URL path (Apache manual, mod_alias).
#[derive(Clone, Drop)]
pub enum PathTest {
    /// The path is this one or below it.
    Prefix(Text),
    /// The pattern is found in the path.
    Search(Regex),
}

/// `Alias` and `AliasMatch`: where the files of a URL path are.
#[derive(Drop)]
pub struct Alias {
    pub place: Place,
    pub span: Span,
    pub from: PathTest,
    pub to: Template,
}

/// `Redirect` and its kin: where a request for a URL path is sent.
#[derive(Drop)]
pub struct Redirect {
    pub place: Place,
    pub span: Span,
    pub from: PathTest,
    pub to: Template,
    pub status: u16,
}

/// A `RewriteMap` (Apache manual, mod_rewrite).
#[derive(Clone, Drop)]
pub struct Map {
    pub name: Text,
    pub kind: MapKind,
}

/// What a map gives for a key.
#[derive(Clone, Drop)]
pub enum MapKind {
    /// `txt:`: what the text of this file says.
    File(Text),
    /// `int:toupper`.
    Upper,
    /// `int:tolower`.
    Lower,
}

impl Clone for Alias {
    ghost is_clone = { λ alias copy. copy ≡ alias };

    fn clone(&self) -> Result<Alias, NoMemory> {
        Ok(Alias {
            place: self.place.clone()?,
            span: self.span,
            from: self.from.clone()?,
            to: self.to.copy()?,
        })
    }
}

impl Clone for Redirect {
    ghost is_clone = { λ redirect copy. copy ≡ redirect };

    fn clone(&self) -> Result<Redirect, NoMemory> {
        Ok(Redirect {
            place: self.place.clone()?,
            span: self.span,
            from: self.from.clone()?,
            to: self.to.copy()?,
            status: self.status,
        })
    }
}
