use hc_base::{AtLine, Fault};
use hc_lines::Line;

/// A directive or a section (Apache manual, "Configuration Sections").
#[derive(Drop)]
pub enum Node<'l, 't> {
    /// A line that neither opens nor closes a section.
    Directive {
        line: &'l Line<'t>,
        /// Its bytes up to the first blank.
        name: &'l str,
        /// What follows the name, as it stands.
        rest: &'l str,
    },
    /// A section.
    Block {
        /// The line that opens it.
        line: &'l Line<'t>,
        /// The bytes behind `<` up to the first blank.
        name: &'l str,
        /// What stands between the name and `>`, as it stands.
        args: &'l str,
        /// What stands between its opening and its close.
        body: Vec<Node<'l, 't>>,
    },
}

/// A section without its close, or an opening without its `>` (4); a close that closes nothing (5);
/// sections that are nested too deep (30).
pub type NodeFault = Fault<AtLine>;
