ghost use Rattle.std.specs.Prelude.{◌≡◌, [], ◌∷◌, ◌++◌, length, true, MatchOption};
ghost use Rattle.hc_base.specs.Bytes.{greater, less, slash};
ghost use Rattle.hc_lines.specs.declared.line.Line.{Line};
ghost use Rattle.hc_nodes.specs.Closes.{IsNoClose};
ghost use Rattle.hc_nodes.specs.Tree.{name_of, behind_name, is_close, is_opening, is_complete, closes, inside_brackets};

use hc_base::bytes::{begins_with, ends_with, is_blank};
use hc_lines::Line;

/// A line that begins with `</` closes a section.
pub fn is_close(line: &Line) -> bool
    ensures { result ≡ is_close line.now }
{
    matches!(line.text.as_str().as_bytes(), [b'<', b'/', ..])
}

/// Another line that begins with `<` opens a section.
pub fn is_opening(line: &Line) -> bool
    ensures { result ≡ is_opening line.now }
{
    begins_with(line.text.as_str().as_bytes(), b'<') && !is_close(line)
}

/// An opening that ends with `>`.
pub fn is_complete(line: &Line) -> bool
    ensures { result ≡ is_complete line.now }
{
    is_opening(line) && ends_with(line.text.as_str().as_bytes(), b'>')
}

/// An opening and its section's name.
#[derive(Drop)]
pub struct Opening<'l, 't> {
    pub line: &'l Line<'t>,
    pub name: &'l str,
    ghost is_named: { name.now ≡ name_of (inside_brackets line.now) },
}

impl<'l, 't> Opening<'l, 't> {
    /// Whether a line is the close of this opening.
    pub fn is_closed_by(&self, line: &Line) -> bool
        ensures { result ≡ closes self.now.line.now line.now }
    {
        match inside_close(line.text.as_str().as_bytes()) {
            Some(name) => name.eq_ignore_ascii_case(self.name.as_bytes()),
            None => false,
        }
    }
}

// What stands between `</` and `>`.
fn inside_close(text: &[u8]) -> Option<&[u8]>
    ensures { MatchOption result (IsNoClose text.now)
        (λ inside. text.now ≡ less ∷ slash ∷ inside.now ++ greater ∷ []) }
{
    text.strip_prefix(b"</")?.strip_suffix(b">")
}

/// What stands between `<` and `>` of an opening.
pub fn inside_brackets<'l, 't>(line: &'l Line<'t>) -> &'l str
    requires { is_complete line.now ≡ true }
    ensures { result.now ≡ inside_brackets line.now }
{
    let text = line.text.as_str();
    &text[1..text.len() - 1]
}

/// The first bytes of a text up to a blank, and what follows them as it stands.
pub fn split_name(text: &str) -> (&str, &str)
    ensures name { result.0.now ≡ name_of text.now }
    ensures behind { result.1.now ≡ behind_name text.now }
{
    text.split_at(name_len(text.as_bytes()))
}

fn name_len(text: &[u8]) -> usize
    ensures { result ≡ length (name_of text.now) }
{
    text.iter().take_while(|byte| !is_blank(**byte)).count()
}
