ghost use Rattle.hc_serve.specs.Hosts.{host_is_once};
ghost use Rattle.hc_vhost.specs.Servers.{IsHostOf};

use hc_model::{Caller, Config, HostId};
use hc_world::World;

/// What a request is answered by: the files, the configuration, the server that answers, and the
/// request at that server.
#[derive(Clone, Copy)]
pub(crate) struct Asked<'s> {
    pub world: &'s World,
    pub config: &'s Config,
    pub host: HostId,
    pub caller: &'s Caller,
    ghost host_is: { IsHostOf config.now host } by { host_is_once config.now host },
}
