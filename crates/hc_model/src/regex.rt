ghost use Rattle.std.specs.Prelude.{◌≡◌, IfOk};
ghost use Rattle.hc_pattern.specs.Pattern.{pattern_of};

use hc_base::NoMemory;
use hc_pattern::Pat;
use std::alloc::Global;
use std::marker::Model;

/// A pattern that contracts see as the tree that it is, so that its copy is equal to it. It stands in
/// a block of its own: most of what may hold a pattern holds a text.
#[derive(Drop)]
pub struct Regex {
    tree: Box<Pat>,
}

impl Model for Regex {
    ghost use Rattle.hc_pattern.specs.Pattern.{Pattern, pattern_of};
    ghost use Rattle.hc_model.specs.PatternCode.{pattern_code};

    ghost Value = { Pattern };

    ghost coded = { pattern_code };

    ghost view = { λ r. pattern_of r.tree.value };
}

impl Regex {
    pub fn new(alloc: Global, tree: Pat) -> Result<Regex, NoMemory>
        ensures { IfOk result (λ regex. regex ≡ pattern_of tree) }
    {
        Ok(Regex {
            tree: Box::new(alloc, tree)?,
        })
    }

    pub fn as_pat(&self) -> &Pat
        ensures { pattern_of result.now ≡ self.now }
    {
        &self.tree
    }
}

impl Clone for Regex {
    ghost is_clone = { λ regex copy. copy ≡ regex };

    fn clone(&self) -> Result<Regex, NoMemory> {
        Regex::new(*Box::allocator(&self.tree), (*self.tree).clone()?)
    }
}
