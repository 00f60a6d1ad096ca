ghost use Rattle.std.specs.Prelude.{◌≡◌};
ghost use Rattle.hc_base.specs.Gives.{Gives};
ghost use Rattle.hc_says.specs.Says.{body_kept, holds, is_condition, one_word, tested};

use crate::defines::Defines;
use crate::modules::Modules;
use crate::says::is_named;
use hc_base::bytes::begins_with;
use hc_base::{AtByte, CowStr, Fault};
use hc_lines::{conf_words, cut_behind};
use std::alloc::Global;

/// A section of this name, with this behind the name, keeps its body (Apache manual, core, IfDefine
/// and IfModule).
pub fn body_kept(
    alloc: Global,
    defines: &Defines,
    modules: &Modules,
    name: &str,
    rest: &str,
) -> Result<bool, Fault<AtByte>>
    ensures { Gives result (body_kept defines.now modules.now name.now rest.now) }
{
    if !is_condition(name.as_bytes()) {
        return Ok(true);
    }
    match conf_words(alloc, rest) {
        Ok(words) => Ok(one_word(defines, modules, name.as_bytes(), &words)),
        Err(fault) => Err(fault),
    }
}

fn is_condition(name: &[u8]) -> bool
    ensures { result ≡ is_condition name.now }
{
    is_named("IfDefine", name) || is_named("IfModule", name)
}

fn one_word(defines: &Defines, modules: &Modules, name: &[u8], words: &[CowStr]) -> bool
    ensures { result ≡ one_word (holds defines.now modules.now name.now) words.now }
{
    match words {
        [word] => tested(defines, modules, name, word.as_str()),
        _ => false,
    }
}

// A `!` before the word reverses the test.
fn tested(defines: &Defines, modules: &Modules, name: &[u8], word: &str) -> bool
    ensures { result ≡ tested (holds defines.now modules.now name.now) word.now }
{
    if begins_with(word.as_bytes(), b'!') {
        !holds(defines, modules, name, cut_behind(word, 0).1)
    } else {
        holds(defines, modules, name, word)
    }
}

fn holds(defines: &Defines, modules: &Modules, name: &[u8], word: &str) -> bool
    ensures { result ≡ holds defines.now modules.now name.now word.now }
{
    if is_named("IfDefine", name) {
        defines.has(word)
    } else {
        modules.has(word)
    }
}
