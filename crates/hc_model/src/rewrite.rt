ghost use Rattle.std.specs.Prelude.{◌≡◌};

use crate::template::copy_template;
use crate::{Regex, Template};
use hc_base::{List, NoMemory, Place, Span, Text};

/// A RewriteRule, with the conditions that stand before it (Apache manual, mod_rewrite).
#[derive(Drop)]
pub struct Rule {
    pub place: Place,
    pub span: Span,
    pub pat: Regex,
    pub negated: bool,
    pub conds: List<Cond>,
    /// None is the substitution `-`.
    pub subst: Option<Template>,
    pub flags: Flags,
}

/// A RewriteCond.
#[derive(Drop)]
pub struct Cond {
    pub place: Place,
    pub span: Span,
    /// What is tested.
    pub test: Template,
    pub kind: CondKind,
    pub negated: bool,
    pub nocase: bool,
    /// OR: this condition or the next one.
    pub or_next: bool,
}

/// How a condition tests its text.
#[derive(Clone, Drop)]
pub enum CondKind {
    /// The pattern is found in it.
    Search(Regex),
    /// `=text`: it is this text.
    Equals(Text),
    /// `-f`: it names a file.
    IsFile,
    /// `-d`: it names a directory.
    IsDir,
}

/// The flags of a rule (Apache manual, "RewriteRule Flags").
#[derive(Drop)]
pub struct Flags {
    /// L.
    pub last: bool,
    pub end: bool,
    /// N.
    pub next: bool,
    /// C.
    pub chain: bool,
    /// S: how many rules are passed over, 0 where there is no S.
    pub skip: u32,
    /// F.
    pub forbid: bool,
    /// G.
    pub gone: bool,
    /// R: its status, 0 where there is no R.
    pub redirect: u16,
    pub qsa: bool,
    pub qsd: bool,
    /// NE.
    pub noescape: bool,
    /// PT.
    pub pass: bool,
    /// DPI.
    pub discard: bool,
    /// E, in its order.
    pub sets: List<EnvSet>,
    /// The most rounds of N.
    pub rounds: u32,
}

/// `E=name:value`, or `E=!name`, which has no value and unsets.
#[derive(Drop)]
pub struct EnvSet {
    pub name: Text,
    pub value: Option<Template>,
}

impl Clone for Rule {
    ghost is_clone = { λ rule copy. copy ≡ rule };

    fn clone(&self) -> Result<Rule, NoMemory> {
        Ok(Rule {
            place: self.place.clone()?,
            span: self.span,
            pat: self.pat.clone()?,
            negated: self.negated,
            conds: self.conds.copy()?,
            subst: copy_template(&self.subst)?,
            flags: self.flags.clone()?,
        })
    }
}

impl Clone for Cond {
    ghost is_clone = { λ cond copy. copy ≡ cond };

    fn clone(&self) -> Result<Cond, NoMemory> {
        Ok(Cond {
            place: self.place.clone()?,
            span: self.span,
            test: self.test.copy()?,
            kind: self.kind.clone()?,
            negated: self.negated,
            nocase: self.nocase,
            or_next: self.or_next,
        })
    }
}

impl Clone for Flags {
    ghost is_clone = { λ flags copy. copy ≡ flags };

    fn clone(&self) -> Result<Flags, NoMemory> {
        Ok(Flags {
            last: self.last,
            end: self.end,
            next: self.next,
            chain: self.chain,
            skip: self.skip,
            forbid: self.forbid,
            gone: self.gone,
            redirect: self.redirect,
            qsa: self.qsa,
            qsd: self.qsd,
            noescape: self.noescape,
            pass: self.pass,
            discard: self.discard,
            sets: self.sets.copy()?,
            rounds: self.rounds,
        })
    }
}

impl Clone for EnvSet {
    ghost is_clone = { λ set copy. copy ≡ set };

    fn clone(&self) -> Result<EnvSet, NoMemory> {
        Ok(EnvSet {
            name: self.name.clone()?,
            value: copy_template(&self.value)?,
        })
    }
}
