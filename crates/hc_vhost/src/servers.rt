ghost use Rattle.std.specs.Prelude.{◌≡◌};
ghost use Rattle.hc_vhost.specs.Servers.{server_at};

use hc_model::{Config, HostId, Server};

/// The settings of a host; a place that is none of the hosts' stands for the main server.
pub fn server_at(config: &Config, host: HostId) -> &Server
    ensures { result.now ≡ server_at config.now host }
{
    let HostId::Nth(place) = host else {
        return &config.main;
    };
    match config.hosts.as_slice().get(place as usize) {
        Some(server) => server,
        None => &config.main,
    }
}
