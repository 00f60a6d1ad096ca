//! Laws of the definitions in `specs/`, as the contracts of functions that do nothing.
ghost use Rattle.hc_kept.specs.Site.{SitesStand, WhatIsReadStands};

/// What was just read stands for its world.
pub fn what_is_read_stands()
    ensures { WhatIsReadStands }
{}

/// An accepted edit leaves what was read before it standing.
pub fn sites_stand()
    ensures { SitesStand }
{}
