//! What is found of the names.
ghost use Rattle.std.specs.Prelude.{◌≡◌, [], IfOk, OnOk, unwrap_or};
ghost use Rattle.std.specs.BTreeSet.{insert_key};
ghost use Rattle.std.specs.List.{flat_map};
ghost use Rattle.hc_model.specs.declared.template.Var.TheVariants.{Env, Header};
ghost use Rattle.hc_named.specs.Gathering.{own_found, with_var, with_vars};
ghost use Rattle.hc_named.specs.Named.{plain_vars, template_vars, text_cmp};

use crate::names::Names;
use crate::naming::Naming;
use hc_base::{NoMemory, Text};
use hc_model::{Piece, Template, Var};
use hc_steps::listed;
use std::alloc::Global;
use std::collections::BTreeSet;
use std::marker::Model;

// What a restart puts before the names of variables.
const FRONT: &[u8] = b"REDIRECT_";

/// The names that were found so far, each once.
#[derive(Drop)]
pub(crate) struct Gathered {
    alloc: Global,
    variables: BTreeSet<Text>,
    headers: BTreeSet<Text>,
}

impl Model for Gathered {
    ghost use Rattle.hc_named.specs.Gathering.{Found};

    ghost Value = { Found };

    ghost view = { λ g. record { variables = g.variables.keys; headers = g.headers.keys } };
}

impl Gathered {
    /// The headers that have variables of their own.
    #[tactic(auto, unfolding(crate::specs::Gathering::with_var))]
    pub(crate) fn new(alloc: Global) -> Result<Gathered, NoMemory>
        ensures { IfOk result (λ gathered. gathered ≡ own_found) }
    {
        let mut gathered = Gathered {
            alloc,
            variables: BTreeSet::new(alloc),
            headers: BTreeSet::new(alloc),
        };
        gathered.add_header(b"accept")?;
        gathered.add_header(b"cookie")?;
        gathered.add_header(b"referer")?;
        gathered.add_header(b"user-agent")?;
        Ok(gathered)
    }

    /// What each of these names.
    pub(crate) fn add_each<T: Naming>(&mut self, items: &[T]) -> Result<(), NoMemory>
        ensures { OnOk result (self.new ≡ with_vars self.old (flat_map T.vars items.now)) }
    {
        for item in items {
            item.add_to(self)?;
        }
        Ok(())
    }

    /// What a template names, where it is there.
    pub(crate) fn add_held(&mut self, template: &Option<Template>) -> Result<(), NoMemory>
        ensures { OnOk result (self.new ≡ with_vars self.old (template_vars (unwrap_or template.now []))) }
    {
        match template {
            Some(pieces) => self.add_each(pieces.as_slice()),
            None => Ok(()),
        }
    }

    /// What the key or the fallback of a look-up names.
    pub(crate) fn add_plain(&mut self, pieces: &[Piece]) -> Result<(), NoMemory>
        ensures { OnOk result (self.new ≡ with_vars self.old (flat_map plain_vars pieces.now)) }
    {
        for piece in pieces {
            let Piece::Var(var) = piece else {
                continue;
            };
            self.add_var(var)?;
        }
        Ok(())
    }

    #[tactic(auto, unfolding(crate::specs::Gathering::with_var))]
    pub(crate) fn add_var(&mut self, var: &Var) -> Result<(), NoMemory>
        ensures { OnOk result (self.new ≡ with_var self.old var.now) }
    {
        match var {
            Var::Header(name) => self.add_header(name.as_bytes()),
            Var::Env(name) => self.add_env(name.as_bytes()),
            Var::Named(_) => Ok(()),
        }
    }

    #[tactic(auto, unfolding(crate::specs::Gathering::with_var))]
    fn add_header(&mut self, name: &[u8]) -> Result<(), NoMemory>
        ensures { OnOk result (self.new ≡ with_var self.old (Header name.now)) }
    {
        let lower = name.to_ascii_lowercase(self.alloc)?;
        self.headers.insert(Text::from(lower))?;
        Ok(())
    }

    /// A variable, and those that its name gives without the front, as often as it stands there.
    #[tactic(auto, using(crate::proofs::Finding::stripped_more), unfolding(crate::specs::Gathering::with_var))]
    pub(crate) fn add_env(&mut self, name: &[u8]) -> Result<(), NoMemory>
        ensures { OnOk result (self.new ≡ with_var self.old (Env name.now)) }
    {
        let mut rest = name;
        'fronts: while rest.starts_with(FRONT) {
            self.add_variable(rest)?;
            rest = rest.split_at(FRONT.len()).1;
        }
        self.add_variable(rest)
    }

    fn add_variable(&mut self, name: &[u8]) -> Result<(), NoMemory>
        ensures variables { OnOk result (self.new.variables ≡ insert_key text_cmp self.old.variables name.now) }
        ensures headers { OnOk result (self.new.headers ≡ self.old.headers) }
    {
        self.variables.insert(Text::copy_of(self.alloc, name)?)?;
        Ok(())
    }

    pub(crate) fn into_names(self) -> Result<Names, NoMemory>
        ensures { IfOk result (λ names. names ≡ record { variables = self.variables; headers = self.headers }) }
    {
        Ok(Names {
            variables: listed(self.alloc, self.variables)?,
            headers: listed(self.alloc, self.headers)?,
        })
    }
}
