//! What all requests of a set have in common in a pass.
ghost use Rattle.std.specs.Prelude.{◌≡◌};
ghost use Rattle.hc_rw_expand.specs.Contexts.{engine_of};
ghost use Rattle.hc_abs_left.specs.Left.{engine_at};

use hc_abs_rw::Around;
use hc_addr::{Addr, Net};
use hc_base::Text;
use hc_model::{Config, Effective, HostId, Kind};
use hc_rw_expand::Engine;
use hc_rw_sets::TextTests;

/// What all requests of a set have in common in a pass.
#[derive(Clone, Copy)]
pub struct Ground<'g> {
    pub config: &'g Config,
    /// The server that answers.
    pub host: HostId,
    /// The clients are those of a network.
    pub net: &'g Net,
    /// The address of the client, where all have one.
    pub client: Option<Addr>,
    /// The server, as its requests have it in common, with what its rules ask of texts.
    pub tests: &'g TextTests,
    /// The world, and the maps that are in force at the server.
    pub around: &'g Around<'g>,
    /// No pass may follow.
    pub last: bool,
    /// The variables that are looked at.
    pub names: &'g [Text],
    /// How many states the cells of branches may have together.
    pub room: u64,
}

/// What is in force where the rules of a directory run.
#[derive(Drop)]
pub struct Settings {
    pub force: Effective,
    /// The file name does not come from the document root.
    pub aliased: bool,
    /// What stands at the file name.
    pub kind: Kind,
}

/// A directory whose rules run.
pub(crate) fn engine_at<'s>(settings: &'s Settings, dir: &'s Text) -> Engine<'s>
    ensures { engine_of result ≡ engine_at settings.now dir.now }
{
    Engine {
        dir,
        base: settings.force.base.as_ref(),
        aliased: settings.aliased,
    }
}
