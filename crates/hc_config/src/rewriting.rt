ghost use Rattle.std.specs.Prelude.{◌≡◌, OnOk};
ghost use Rattle.hc_config.specs.Rewriting.{no_rewriting, with_base, with_cond, with_engine, with_inherit, with_rule};

use hc_base::{List, NoMemory, Text};
use hc_model::{Cond, Inherit, Rule, Rules};
use std::alloc::Global;
use std::mem::replace;

/// The highest LimitInternalRecursion (Apache manual, core); our own choice.
pub(crate) const MOST_RECURSIONS: u32 = 1_000;

/// What a server, a section or a `.htaccess` has of rewriting so far (Apache manual, mod_rewrite).
#[derive(Drop)]
pub(crate) struct Rewriting {
    /// Some directive of mod_rewrite stands here.
    pub stands: bool,
    /// The last RewriteEngine.
    pub engine: Option<bool>,
    /// The last RewriteBase.
    pub base: Option<Text>,
    /// The last RewriteOptions.
    pub inherit: Inherit,
    pub rules: Rules,
    /// The conditions that wait for the next rule.
    pub conds: List<Cond>,
}

impl Rewriting {
    pub(crate) fn nothing(alloc: Global) -> Rewriting
        ensures { result ≡ no_rewriting }
    {
        Rewriting {
            stands: false,
            engine: None,
            base: None,
            inherit: Inherit::No,
            rules: Rules::new(),
            conds: List::new(alloc),
        }
    }

    pub(crate) fn set_engine(&mut self, on: bool)
        ensures { self.new ≡ with_engine self.old on }
    {
        self.stands = true;
        self.engine = Some(on);
    }

    pub(crate) fn set_base(&mut self, path: Text)
        ensures { self.new ≡ with_base self.old path }
    {
        self.stands = true;
        self.base = Some(path);
    }

    pub(crate) fn set_inherit(&mut self, inherit: Inherit)
        ensures { self.new ≡ with_inherit self.old inherit }
    {
        self.stands = true;
        self.inherit = inherit;
    }

    /// The condition waits for the next rule.
    pub(crate) fn push_cond(&mut self, cond: Cond) -> Result<(), NoMemory>
        ensures { OnOk result (self.new ≡ with_cond self.old cond) }
    {
        self.stands = true;
        self.conds.push(cond)
    }

    /// The conditions before a rule are its own.
    pub(crate) fn push_rule(&mut self, mut rule: Rule) -> Result<(), NoMemory>
        ensures { OnOk result (self.new ≡ with_rule self.old rule) }
    {
        let alloc = self.conds.allocator();
        rule.conds = replace(&mut self.conds, List::new(alloc));
        self.stands = true;
        self.rules.push(alloc, rule)
    }
}
