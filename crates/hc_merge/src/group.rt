ghost use Rattle.std.specs.Prelude.{◌≡◌};
ghost use Rattle.hc_merge.specs.Groups.{group_of, same_group};

use hc_model::Reach;

/// The groups of sections, in the order in which they are merged (Apache manual, "How the sections are
/// merged").
#[derive(Clone, Copy)]
pub(crate) enum Group {
    /// `<Directory>`: the paths of directories.
    Directories,
    /// `<DirectoryMatch>`: file names.
    Names,
    /// `<Files>`: last components of file names.
    Components,
    /// `<Location>`: URL paths.
    Urls,
    /// `<If>`, `<ElseIf>` and `<Else>`.
    Conditions,
}

pub(crate) fn is_in(group: Group, reach: &Reach) -> bool
    ensures { result ≡ same_group group (group_of reach.now) }
{
    match (group, reach) {
        (Group::Directories, Reach::Dir(_)) => true,
        (Group::Names, Reach::DirSearch(_)) => true,
        (Group::Components, Reach::Files(_)) => true,
        (Group::Urls, Reach::Location(_)) => true,
        (Group::Urls, Reach::LocationGlob(_)) => true,
        (Group::Urls, Reach::LocationSearch(_)) => true,
        (Group::Conditions, Reach::When(_)) => true,
        (Group::Conditions, Reach::Otherwise(_)) => true,
        _ => false,
    }
}
