ghost use Rattle.hc_alias.specs.Filling.{filling_with};
ghost use Rattle.hc_alias.specs.FoundView.{found_of};

use crate::tests::Found;
use hc_base::NoMemory;
use hc_model::Var;
use hc_template::Fills;

/// A target's groups, as a pattern found them. No target has other parts.
impl<'p> Fills for Found<'p> {
    ghost filling = { λ found. filling_with (found_of found).groups };

    fn push_group(&self, out: &mut Vec<u8>, number: u8) -> Result<(), NoMemory> {
        out.extend_from_slice(self.group(number))
    }

    fn push_condition(&self, _out: &mut Vec<u8>, _number: u8) -> Result<(), NoMemory> {
        Ok(())
    }

    fn push_variable(&self, _out: &mut Vec<u8>, _var: &Var) -> Result<(), NoMemory> {
        Ok(())
    }
}
