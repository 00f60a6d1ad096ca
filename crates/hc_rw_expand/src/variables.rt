ghost use Rattle.std.specs.Prelude.{◌≡◌, [], ◌++◌, IfOk, OnErr, OnOk};
ghost use Rattle.hc_rw_expand.specs.Kept.{entries_in};
ghost use Rattle.hc_rw_expand.specs.Variables.{renamed, renamed_onto, variable_set, with_value};

use hc_base::{NoMemory, Text};
use indexmap::IndexMap;
use std::alloc::Global;
use std::marker::Model;

/// The variables that rules set: their names and values, in the order in which the names were first set. They
/// stand in a block of their own, so that a state with them stays small.
#[derive(Drop)]
pub struct Variables {
    by_name: Option<Box<IndexMap<Text, Text>>>,
}

impl Model for Variables {
    ghost use Rattle.std.specs.Prelude.{ℕ, List};
    ghost use Rattle.hc_rw_expand.specs.Kept.{entries_in};

    ghost Value = { List (List ℕ × List ℕ) };

    ghost view = { λ v. entries_in v.by_name };
}

impl Variables {
    /// No variables, which take no memory.
    pub fn new() -> Variables
        ensures { result ≡ [] }
    {
        Variables { by_name: None }
    }

    /// The value of a name, with case; empty where there is none.
    pub fn value(&self, name: &Text) -> &[u8]
        ensures { result.now ≡ variable_set self.now name.now }
    {
        match &self.by_name {
            Some(by_name) => value_in(by_name, name),
            None => &[],
        }
    }

    /// Sets a name to a value. Where memory is refused all is as before, and the two are dropped.
    pub fn set(&mut self, alloc: Global, name: Text, value: Text) -> Result<(), NoMemory>
        ensures ok { OnOk result (self.new ≡ with_value self.old name value) }
        ensures err { OnErr result (self.new ≡ self.old) }
    {
        match &mut self.by_name {
            Some(by_name) => {
                by_name.insert(name, value)?;
            }
            None => {
                let mut by_name = IndexMap::new(alloc);
                by_name.insert(name, value)?;
                self.by_name = Some(Box::new(alloc, by_name)?);
            }
        }
        Ok(())
    }

    /// Each set anew, in order, under its name behind a front. `NoMemory` where memory is refused.
    pub fn renamed(self, alloc: Global, front: &[u8]) -> Result<Variables, NoMemory>
        ensures { IfOk result (λ variables. variables ≡ renamed front.now self) }
    {
        match self.by_name {
            Some(by_name) => renamed_in(alloc, front, Box::into_inner(by_name)),
            None => Ok(Variables::new()),
        }
    }
}

impl Clone for Variables {
    ghost is_clone = { λ variables copy. copy ≡ variables };

    fn clone(&self) -> Result<Variables, NoMemory> {
        match &self.by_name {
            Some(by_name) => Ok(Variables {
                by_name: Some(Box::new(*by_name.allocator(), (**by_name).clone()?)?),
            }),
            None => Ok(Variables::new()),
        }
    }
}

fn value_in<'v>(by_name: &'v IndexMap<Text, Text>, name: &Text) -> &'v [u8]
    ensures { result.now ≡ variable_set by_name.now.entries name.now }
{
    match by_name.get(name) {
        Some(value) => value.as_bytes(),
        None => &[],
    }
}

fn renamed_in(
    alloc: Global,
    front: &[u8],
    by_name: IndexMap<Text, Text>,
) -> Result<Variables, NoMemory>
    ensures { IfOk result (λ variables. variables ≡ renamed front.now by_name.entries) }
{
    let mut renamed = Variables::new();
    for (name, value) in by_name {
        renamed.set(alloc, behind(alloc, front, &name)?, value)?;
    }
    Ok(renamed)
}

// A name behind a front.
fn behind(alloc: Global, front: &[u8], name: &Text) -> Result<Text, NoMemory>
    ensures { IfOk result (λ made. made ≡ front.now ++ name.now) }
{
    let mut made = front.to_vec(alloc)?;
    made.extend_from_slice(name.as_bytes())?;
    Ok(Text::from(made))
}
