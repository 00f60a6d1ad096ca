ghost use Rattle.std.specs.Prelude.{◌≡◌, map};
ghost use Rattle.std.specs.Str.{str_eq_ignore_ascii_case};
ghost use Rattle.hc_table.specs.Table.{find_in, row_of};

use crate::context::Contexts;
use crate::directive::{Class, Meaning, Wording};

/// What the name of a directive or a container stands for, the contexts in which it may stand, its class in `.htaccess`
/// and how its words are written.
#[derive(Clone, Copy, PartialEq, Eq)]
pub struct DirectiveKind {
    pub meaning: Meaning,
    pub contexts: Contexts,
    /// What has to be allowed; nothing for some.
    pub class: Option<Class>,
    pub wording: Wording,
}

/// A name of a table, with what it stands for.
#[derive(Clone, Copy)]
pub struct Row<K> {
    pub name: &'static str,
    pub kind: K,
}

/// What the first row with this name, without case, stands for; `None` where no row has it (Apache manual,
/// "Configuration Files").
pub fn find_in<K: Copy>(rows: &[Row<K>], name: &[u8]) -> Option<K>
    ensures { result ≡ find_in (map row_of rows.now) name.now }
{
    for row in rows {
        if is_named(row.name, name) {
            return Some(row.kind);
        }
    }
    None
}

// The names are equal without case.
fn is_named(own: &str, name: &[u8]) -> bool
    ensures { result ≡ str_eq_ignore_ascii_case own.now name.now }
{
    own.as_bytes().eq_ignore_ascii_case(name)
}
