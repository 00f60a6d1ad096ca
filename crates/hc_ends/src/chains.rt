use hc_follow::Origin;
use hc_model::Config;
use hc_world::World;

/// Own servers whose redirects are followed, under a configuration in a world.
#[derive(Clone, Copy)]
pub struct Chains<'q> {
    pub config: &'q Config,
    pub world: &'q World,
    pub hosts: &'q [Origin],
}
