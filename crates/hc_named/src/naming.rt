//! What names variables and headers.
ghost use Rattle.std.specs.Prelude.{◌≡◌, List, OnOk};
ghost use Rattle.std.specs.List.{flat_map};
ghost use Rattle.hc_model.specs.declared.template.Var.{Var};
ghost use Rattle.hc_named.specs.Gathering.{with_vars};
ghost use Rattle.hc_named.specs.Named.{config_rules, piece_vars, rule_vars, section_rules, server_rules};
ghost use Rattle.hc_named.specs.Named.{set_vars, template_vars};

use crate::gathering::Gathered;
use hc_base::NoMemory;
use hc_model::{Cond, Config, EnvSet, Piece, Rule, Section, Server};

/// What names variables and headers.
pub(crate) trait Naming {
    ghost vars: { Self → List Var };

    fn add_to(&self, gathered: &mut Gathered) -> Result<(), NoMemory>
        ensures { OnOk result (gathered.new ≡ with_vars gathered.old (vars self.now)) };
}

impl Naming for Piece {
    ghost vars = { piece_vars };

    fn add_to(&self, gathered: &mut Gathered) -> Result<(), NoMemory> {
        match self {
            Piece::Var(var) => gathered.add_var(var),
            Piece::Lookup { key, fallback, .. } => {
                gathered.add_plain(key.get().as_slice())?;
                gathered.add_plain(fallback.get().as_slice())
            }
            _ => Ok(()),
        }
    }
}

impl Naming for Cond {
    ghost vars = { λ cond. template_vars cond.test };

    fn add_to(&self, gathered: &mut Gathered) -> Result<(), NoMemory> {
        gathered.add_each(self.test.as_slice())
    }
}

impl Naming for EnvSet {
    ghost vars = { set_vars };

    fn add_to(&self, gathered: &mut Gathered) -> Result<(), NoMemory> {
        gathered.add_env(self.name.as_bytes())?;
        gathered.add_held(&self.value)
    }
}

impl Naming for Rule {
    ghost vars = { rule_vars };

    fn add_to(&self, gathered: &mut Gathered) -> Result<(), NoMemory> {
        gathered.add_each(self.conds.as_slice())?;
        gathered.add_held(&self.subst)?;
        gathered.add_each(self.flags.sets.as_slice())
    }
}

impl Naming for Section {
    ghost vars = { λ section. flat_map rule_vars (section_rules section) };

    fn add_to(&self, gathered: &mut Gathered) -> Result<(), NoMemory> {
        gathered.add_each(self.body.rules.as_slice())
    }
}

impl Naming for Server {
    ghost vars = { λ server. flat_map rule_vars (server_rules server) };

    #[tactic(auto, using(crate::proofs::Finding::vars_behind))]
    fn add_to(&self, gathered: &mut Gathered) -> Result<(), NoMemory> {
        gathered.add_each(self.body.rules.as_slice())?;
        gathered.add_each(self.sections.as_slice())
    }
}

impl Naming for Config {
    ghost vars = { λ config. flat_map rule_vars (config_rules config) };

    #[tactic(auto, using(crate::proofs::Finding::vars_behind))]
    fn add_to(&self, gathered: &mut Gathered) -> Result<(), NoMemory> {
        self.main.add_to(gathered)?;
        gathered.add_each(self.hosts.as_slice())
    }
}
