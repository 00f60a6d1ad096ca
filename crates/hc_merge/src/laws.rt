//! What holds of all configurations, as the contract of a function that does nothing.
ghost use Rattle.hc_merge.specs.Laws.{WantedAsAllowed, WantedFilesSuffice};

/// What is in force depends on no `.htaccess` but those that are wanted.
pub fn wanted_files_suffice()
    ensures { WantedFilesSuffice }
{}

/// Along a walk a `.htaccess` is wanted in each directory for exactly what `allowed` says of it.
pub fn files_are_wanted_as_allowed()
    ensures { WantedAsAllowed }
{}
