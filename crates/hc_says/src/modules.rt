ghost use Rattle.std.specs.Prelude.{◌≡◌, ◌∷◌, ◌++◌, [], IfOk};
ghost use Rattle.hc_says.specs.Known.{HasName};
ghost use Rattle.hc_says.specs.Says.{is_among};

use crate::utf8::as_utf8;
use hc_base::{List, NoMemory, Text};
use std::alloc::Global;
use std::collections::BTreeSet;
use std::marker::Model;

/// The modules that are present, in their order; one is found quickly.
#[derive(Drop)]
pub struct Modules {
    alloc: Global,
    list: List<Text>,
    names: BTreeSet<String>,
}

impl Model for Modules {
    ghost use Rattle.std.specs.Prelude.{ℕ, List};
    ghost use Rattle.hc_says.specs.Known.{AreNames};

    ghost Value = { List (List ℕ) };

    ghost view = { λ m. m.list };

    ghost invariant = { λ m. AreNames m.names m.list };
}

impl Modules {
    pub fn none(alloc: Global) -> Modules
        ensures { result ≡ [] }
    {
        Modules {
            alloc,
            list: List::new(alloc),
            names: BTreeSet::new(alloc),
        }
    }

    /// The modules of a configuration that was read.
    pub fn of(alloc: Global, names: &List<Text>) -> Result<Modules, NoMemory>
        ensures { IfOk result (λ modules. modules ≡ names.now) }
    {
        with_each(Modules::none(alloc), names.as_slice())
    }

    pub fn has(&self, name: &str) -> bool
        ensures { result ≡ is_among self.now name.now }
    {
        self.names.contains(name)
    }

    /// The modules and one more.
    #[tactic(auto, using(crate::proofs::Known::one_more_name))]
    pub fn with(self, name: &str) -> Result<Modules, NoMemory>
        ensures { IfOk result (λ later. later ≡ self ++ name.now ∷ []) }
    {
        let Modules {
            alloc,
            mut list,
            names,
        } = self;
        list.push(Text::copy_of(alloc, name.as_bytes())?)?;
        Ok(Modules {
            alloc,
            list,
            names: with_name(alloc, names, name)?,
        })
    }

    pub fn into_list(self) -> List<Text>
        ensures { result ≡ self }
    {
        self.list
    }
}

fn with_each(mut modules: Modules, names: &[Text]) -> Result<Modules, NoMemory>
    ensures { IfOk result (λ later. later ≡ modules ++ names.now) }
{
    for name in names {
        modules = modules.with(as_utf8(name)?)?;
    }
    Ok(modules)
}

/// A set of names and one more.
pub(crate) fn with_name(
    alloc: Global,
    mut names: BTreeSet<String>,
    name: &str,
) -> Result<BTreeSet<String>, NoMemory>
    ensures { IfOk result (λ later. HasName names later name.now) }
{
    names.insert(String::from_str(alloc, name)?)?;
    Ok(names)
}
