ghost use Rattle.std.specs.Prelude.{◌≡◌, IfOk};
ghost use Rattle.hc_merge.specs.CandidateView.{sections_view};
ghost use Rattle.hc_merge.specs.Candidates.{is_glob_of, sections_of};
ghost use Rattle.hc_vhost.specs.Servers.{IsHostOf};

use hc_base::NoMemory;
use hc_match::first_match;
use hc_model::{Config, HostId, Reach, Section};
use hc_vhost::server_at;
use std::alloc::Global;

/// The sections of the main server, and of the host that answers.
#[derive(Clone, Copy)]
pub(crate) struct Sections<'c> {
    pub main: &'c [Section],
    pub host: Option<&'c [Section]>,
}

impl<'c> Sections<'c> {
    pub(crate) fn of(config: &'c Config, host: HostId) -> Sections<'c>
        requires { IsHostOf config.now host }
        ensures { sections_view result ≡ sections_of config.now host }
    {
        let host = match host {
            HostId::Main => None,
            HostId::Nth(_) => Some(server_at(config, host).sections.as_slice()),
        };
        Sections {
            main: config.main.sections.as_slice(),
            host,
        }
    }
}

pub(crate) fn is_glob_of(alloc: Global, dir: &[u8], reach: &Reach) -> Result<bool, NoMemory>
    ensures { IfOk result (λ is. is ≡ is_glob_of dir.now reach.now) }
{
    match reach {
        Reach::Dir(pattern) => Ok(first_match(alloc, pattern.as_pat(), dir)?.is_some()),
        _ => Ok(false),
    }
}
