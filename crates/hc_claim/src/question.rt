use hc_model::Config;
use hc_scope::{Claim, Scope};
use hc_world::World;

/// A claim on all requests of a scope, under a configuration in a world.
#[derive(Clone, Copy)]
pub struct Question<'q> {
    pub config: &'q Config,
    pub world: &'q World,
    pub scope: &'q Scope,
    pub claim: &'q Claim,
}
