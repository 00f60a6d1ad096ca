ghost use Rattle.std.specs.Prelude.{◌≡◌, ◌∷◌, ◌++◌, [], IfOk, option_map};
ghost use Rattle.hc_says.specs.Known.{HasValue};
ghost use Rattle.hc_says.specs.Says.{is_defined, value_of};

use crate::modules::with_name;
use crate::utf8::as_utf8;
use hc_base::{List, NoMemory, Text};
use hc_model::Define;
use std::alloc::Global;
use std::collections::{BTreeMap, BTreeSet};
use std::marker::Model;

/// Define lines in their order; a name and its last value are found quickly.
#[derive(Drop)]
pub struct Defines {
    alloc: Global,
    list: List<Define>,
    names: BTreeSet<String>,
    values: BTreeMap<String, String>,
}

impl Model for Defines {
    ghost use Rattle.std.specs.Prelude.{List, map};
    ghost use Rattle.hc_model.specs.declared.config.Define as model;
    ghost use Rattle.hc_says.specs.Known.{AreNames, AreValues};

    ghost Value = { List model.Define };

    ghost view = { λ d. d.list };

    ghost invariant = { λ d. AreNames d.names (map (λ define. define.name) d.list) × AreValues d.values d.list };
}

impl Defines {
    pub fn none(alloc: Global) -> Defines
        ensures { result ≡ [] }
    {
        Defines {
            alloc,
            list: List::new(alloc),
            names: BTreeSet::new(alloc),
            values: BTreeMap::new(alloc),
        }
    }

    /// The Define lines of a configuration that was read.
    pub fn of(alloc: Global, defines: &List<Define>) -> Result<Defines, NoMemory>
        ensures { IfOk result (λ made. made ≡ defines.now) }
    {
        with_each(Defines::none(alloc), defines.as_slice())
    }

    pub fn has(&self, name: &str) -> bool
        ensures { result ≡ is_defined self.now name.now }
    {
        self.names.contains(name)
    }

    /// The value of the last Define of a name that has one.
    pub fn value(&self, name: &str) -> Option<&str>
        ensures { option_map (λ value. value.now) result ≡ value_of self.now name.now }
    {
        match self.values.get(name) {
            Some(value) => Some(value.as_str()),
            None => None,
        }
    }

    fn with(self, define: &Define) -> Result<Defines, NoMemory>
        ensures { IfOk result (λ later. later ≡ self ++ define.now ∷ []) }
    {
        let name = as_utf8(&define.name)?;
        match &define.value {
            None => self.with_name(name),
            Some(value) => self.with_value(name, as_utf8(value)?),
        }
    }

    /// The lines and one more, of a name alone.
    #[tactic(auto, using(crate::proofs::Known::one_more_named, crate::proofs::Known::same_values))]
    pub fn with_name(self, name: &str) -> Result<Defines, NoMemory>
        ensures { IfOk result (λ later. later ≡ self ++ record { name = name.now; value = None } ∷ []) }
    {
        let Defines {
            alloc,
            mut list,
            names,
            values,
        } = self;
        list.push(Define {
            name: Text::copy_of(alloc, name.as_bytes())?,
            value: None,
        })?;
        Ok(Defines {
            alloc,
            list,
            names: with_name(alloc, names, name)?,
            values,
        })
    }

    /// The lines and one more, of a name and its value.
    #[tactic(auto, using(crate::proofs::Known::one_more_named, crate::proofs::Known::one_more_value))]
    pub fn with_value(self, name: &str, value: &str) -> Result<Defines, NoMemory>
        ensures { IfOk result (λ later. later ≡ self ++ record { name = name.now; value = Some value.now } ∷ []) }
    {
        let Defines {
            alloc,
            mut list,
            names,
            values,
        } = self;
        list.push(Define {
            name: Text::copy_of(alloc, name.as_bytes())?,
            value: Some(Text::copy_of(alloc, value.as_bytes())?),
        })?;
        Ok(Defines {
            alloc,
            list,
            names: with_name(alloc, names, name)?,
            values: with_value(alloc, values, name, value)?,
        })
    }

    pub fn into_list(self) -> List<Define>
        ensures { result ≡ self }
    {
        self.list
    }
}

fn with_each(mut made: Defines, defines: &[Define]) -> Result<Defines, NoMemory>
    ensures { IfOk result (λ later. later ≡ made ++ defines.now) }
{
    for define in defines {
        made = made.with(define)?;
    }
    Ok(made)
}

fn with_value(
    alloc: Global,
    mut values: BTreeMap<String, String>,
    name: &str,
    value: &str,
) -> Result<BTreeMap<String, String>, NoMemory>
    ensures { IfOk result (λ later. HasValue values later name.now value.now) }
{
    let name = String::from_str(alloc, name)?;
    values.insert(name, String::from_str(alloc, value)?)?;
    Ok(values)
}
