use crate::{Kind, Spot};
use hc_base::{Place, Text};

/// A step on the way from a request to its outcome. Our own choice.
#[derive(Clone, Drop)]
pub enum Event {
    /// The server was chosen. The main server has an empty file and line 0.
    Host {
        place: Place,
    },
    /// A pass begins, numbered from 0.
    Pass {
        number: u32,
        path: Text,
        query: Text,
    },
    /// A RewriteCond was tried; `held` counts its negation.
    Cond {
        spot: Spot,
        held: bool,
    },
    /// A RewriteRule was tried; `matched` counts its negation and its conditions.
    Rule {
        spot: Spot,
        matched: bool,
    },
    /// A substitution left this text and this query.
    Text {
        text: Text,
        query: Text,
    },
    /// A further round of a list of rules begins, numbered from 2.
    Round {
        number: u32,
    },
    /// A Redirect directive answers.
    Redirect {
        spot: Spot,
    },
    /// The URL path became a file name, by an alias or, with none, by the document root.
    Map {
        alias: Option<Spot>,
        name: Text,
    },
    /// The file name was followed.
    Walk {
        name: Text,
        info: Text,
        kind: Kind,
    },
    /// A section is in force, or a `.htaccess`, which has line 0.
    Section {
        spot: Spot,
    },
    /// Authorization was decided.
    Auth {
        value: Authorized,
    },
    /// An internal redirect to this URL path.
    Restart {
        path: Text,
    },
}

/// What authorization gave (Apache manual, mod_authz_core).
#[derive(Clone, Copy, PartialEq, Eq)]
pub enum Authorized {
    Granted,
    Denied,
    Neutral,
    /// No Require is in force.
    Unasked,
}

/// What a branch decided at a line.
#[derive(Clone, Drop)]
pub enum Decision {
    /// A RewriteCond.
    Cond { place: Place, held: bool },
    /// A RewriteRule.
    Rule { place: Place, matched: bool },
}
