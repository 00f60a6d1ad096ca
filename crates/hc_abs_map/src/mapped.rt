//! The way from a URL path to a file name (Apache manual, mod_alias; "Mapping URLs to Filesystem Locations").
ghost use Rattle.std.specs.Prelude.{◌≡◌};

use hc_abs_pass::{Left, Named};
use hc_abs_rw::Celled;
use hc_cells::Cell;
use hc_plan::Tied;

/// Where a URL path leads: the pass has ended, or the file name is in hand.
#[derive(Drop)]
pub enum Mapped {
    Over { tied: Tied, left: Left },
    /// Whether the name comes from elsewhere than the document root.
    Name { named: Named, aliased: bool },
}

impl Celled for Mapped {
    ghost use Rattle.hc_abs_map.specs.Ends.{cell_in};

    ghost cell = { cell_in };

    fn cell(&self) -> &Cell {
        match self {
            Mapped::Over { tied, .. } => &tied.cell,
            Mapped::Name { named, .. } => &named.tied.cell,
        }
    }
}
