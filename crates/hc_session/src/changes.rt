ghost use Rattle.std.specs.Prelude.{◌≡◌, ◌<◌, ◌^◌, ◌-◌};
ghost use Rattle.hc_session.specs.Changes.{changed_by, done_of};
ghost use Rattle.hc_world.specs.Edits.{Edits};

use hc_json::Done;
use hc_world::{ListKind, World, WorldFault};

/// An edit of the files.
#[derive(Clone, Copy)]
pub(crate) enum Change<'v> {
    Put {
        path: &'v str,
        text: &'v str,
    },
    ListPath {
        path: &'v str,
        kind: ListKind,
    },
    DropPath {
        path: &'v str,
    },
    Edit {
        path: &'v str,
        from: u32,
        to: u32,
        text: &'v str,
    },
}

/// What it is called in a reply.
pub(crate) fn done_of(change: Change<'_>) -> Done
    ensures { result ≡ done_of change.entry }
{
    match change {
        Change::Put { .. } => Done::Put,
        Change::ListPath { .. } => Done::ListPath,
        Change::DropPath { .. } => Done::DropPath,
        Change::Edit { .. } => Done::Edit,
    }
}

/// Edits a world.
pub(crate) fn make(world: &mut World, change: Change<'_>) -> Result<(), WorldFault>
    requires { world.old.edits < 2 ^ 64 - 1 }
    ensures { Edits result world.old world.new (changed_by world.old.files change.entry) }
{
    match change {
        Change::Put { path, text } => world.put(path.as_bytes(), text),
        Change::ListPath { path, kind } => world.list(path.as_bytes(), kind),
        Change::DropPath { path } => world.drop_path(path.as_bytes()),
        Change::Edit {
            path,
            from,
            to,
            text,
        } => world.edit_lines(path.as_bytes(), from, to, text),
    }
}
