ghost use Rattle.std.specs.Prelude.{◌≡◌};

use hc_base::{List, NoMemory, Text};

/// What stands at a path.
#[derive(Clone, Copy, PartialEq, Eq)]
pub enum Kind {
    Absent,
    Dir,
    File,
}

/// A name followed through the directories of a world.
#[derive(Drop)]
pub struct Walk {
    /// The name up to the first component that is no directory, or all of it. A directory that is
    /// reached by a final slash keeps that slash.
    pub name: Text,
    /// The path information: what follows that component, from its slash on.
    pub info: Text,
    /// What stands at `name`.
    pub kind: Kind,
    /// The directories that were followed, from `/` down.
    pub dirs: List<Text>,
}

impl Clone for Walk {
    ghost is_clone = { λ walk copy. copy ≡ walk };

    fn clone(&self) -> Result<Walk, NoMemory> {
        Ok(Walk {
            name: self.name.clone()?,
            info: self.info.clone()?,
            kind: self.kind,
            dirs: self.dirs.copy()?,
        })
    }
}
