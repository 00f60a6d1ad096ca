ghost use Rattle.std.specs.Prelude.{◌≡◌};

use crate::groups::Matched;
use crate::variables::Variables;
use hc_base::{NoMemory, Text, copy_option};

/// What a list of rules has come to (Apache manual, mod_rewrite, RewriteRule).
#[derive(Drop)]
pub struct RwState {
    /// The text that is rewritten.
    pub text: Text,
    pub query: Text,
    /// The path information.
    pub info: Text,
    pub vars: Variables,
    /// No list of rules runs again.
    pub end: bool,
    /// What the groups of the rule's pattern hold.
    pub groups: Option<Matched>,
    /// What the groups of the last condition's pattern hold.
    pub cond_groups: Option<Matched>,
}

impl Clone for RwState {
    ghost is_clone = { λ state copy. copy ≡ state };

    fn clone(&self) -> Result<RwState, NoMemory> {
        Ok(RwState {
            text: self.text.clone()?,
            query: self.query.clone()?,
            info: self.info.clone()?,
            end: self.end,
            vars: self.vars.clone()?,
            groups: copy_option(&self.groups)?,
            cond_groups: copy_option(&self.cond_groups)?,
        })
    }
}
