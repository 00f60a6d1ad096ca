//! Texts in the rules of a directory (Apache manual, mod_rewrite: RewriteRule, "What is matched?"; RewriteBase).
ghost use Rattle.std.specs.Prelude.{◌≡◌, ◌++◌, IfOk};
ghost use Rattle.std.specs.Option.{option_map};
ghost use Rattle.hc_rw_eval.specs.Directories.{behind_front, in_base, url_path, with_slash, within, without_root};
ghost use Rattle.hc_rw_expand.specs.Contexts.{engine_of};

use hc_base::paths::{begins_with_slash, ends_with_slash};
use hc_base::{NoMemory, Text};
use hc_rw_expand::Engine;
use std::alloc::Global;

/// A directory and a slash: `/` alone for `/`.
pub fn with_slash(alloc: Global, dir: &[u8]) -> Result<Vec<u8>, NoMemory>
    ensures { IfOk result (λ made. made.items ≡ with_slash dir.now) }
{
    let mut made = dir.to_vec(alloc)?;
    if !ends_with_slash(dir) {
        made.push(b'/')?;
    }
    Ok(made)
}

// What follows a front, where the text begins with it.
fn behind_front<'t>(front: &[u8], text: &'t [u8]) -> Option<&'t [u8]>
    ensures { option_map (λ rest. rest.now) result ≡ behind_front front.now text.now }
{
    if text.starts_with(front) {
        Some(text.split_at(front.len()).1)
    } else {
        None
    }
}

// What follows a directory and a slash, where the text begins with them.
#[tactic(auto, using(crate::proofs::Fronts::fronts))]
fn behind_dir<'t>(dir: &[u8], text: &'t [u8]) -> Option<&'t [u8]>
    ensures { option_map (λ rest. rest.now) result ≡ behind_front (with_slash dir.now) text.now }
{
    match behind_front(dir, text) {
        Some(rest) if ends_with_slash(dir) => Some(rest),
        Some(rest) if begins_with_slash(rest) => Some(rest.split_at(1).1),
        _ => None,
    }
}

/// A text less the directory and a slash.
pub(crate) fn within<'t>(dir: &[u8], text: &'t [u8]) -> &'t [u8]
    ensures { result.now ≡ within dir.now text.now }
{
    match behind_dir(dir, text) {
        Some(rest) => rest,
        None => text,
    }
}

/// A text with the path information behind it.
pub(crate) fn with_info(alloc: Global, text: &[u8], info: &[u8]) -> Result<Vec<u8>, NoMemory>
    ensures { IfOk result (λ made. made.items ≡ text.now ++ info.now) }
{
    let mut made = text.to_vec(alloc)?;
    made.extend_from_slice(info)?;
    Ok(made)
}

// A document root is taken off, where a slash follows it.
#[tactic(auto, using(crate::proofs::Fronts::fronts))]
fn without_root<'t>(root: Option<&Text>, text: &'t [u8]) -> &'t [u8]
    ensures { result.now ≡ without_root (option_map (λ root. root.now) root.entry) text.now }
{
    let Some(root) = root else {
        return text;
    };
    match behind_front(root.as_bytes(), text) {
        Some(rest) if begins_with_slash(rest) => rest,
        _ => text,
    }
}

// RewriteBase in place of the directory and a slash.
fn in_base(alloc: Global, base: &[u8], dir: &[u8], text: &[u8]) -> Result<Text, NoMemory>
    ensures { IfOk result (λ path. path ≡ in_base base.now dir.now text.now) }
{
    let Some(rest) = behind_dir(dir, text) else {
        return Text::copy_of(alloc, text);
    };
    let mut path = with_slash(alloc, base)?;
    path.extend_from_slice(rest)?;
    Ok(Text::from(path))
}

/// The URL path of a file name in a directory: by RewriteBase, else by the document root. `NoMemory` where
/// memory is refused.
pub fn url_path(
    alloc: Global,
    root: Option<&Text>,
    engine: &Engine<'_>,
    text: &[u8],
) -> Result<Text, NoMemory>
    ensures { IfOk result (λ path.
        path ≡ url_path (option_map (λ root. root.now) root.entry) (engine_of engine.now) text.now) }
{
    match engine.base {
        Some(base) => in_base(alloc, base.as_bytes(), engine.dir.as_bytes(), text),
        None => Text::copy_of(alloc, without_root(root, text)),
    }
}
