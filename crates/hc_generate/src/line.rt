ghost use Rattle.std.specs.Prelude.{◌≡◌, IfOk, string_bytes};
ghost use Rattle.serde_json.specs.View.{view};
ghost use Rattle.hc_generate.specs.Lines.{ask_data, file_path, leaf_text, line_of, list_data, override_path};
ghost use Rattle.hc_generate.specs.Lines.{override_text, put_data, step_data, target_of};

use crate::step::{Leaf, Step};
use hc_base::{NoMemory, Text};
use hc_session::MAIN_FILE;
use serde_json::{Value, json};
use std::alloc::Global;

const MAIN_TEXT: &str =
    "DocumentRoot /srv\n<Directory \"/srv\">\nAllowOverride All\n</Directory>\n";

/// The line of a step, without LF: compact JSON.
#[tactic(auto, using(crate::proofs::Floats::step_without), unfolding(crate::specs::Lines::line_of))]
pub fn line(alloc: Global, step: Step) -> Result<Text, NoMemory>
    ensures { IfOk result (λ line. line ≡ line_of step) }
{
    Ok(Text::from(step_value(alloc, step)?.to_vec(alloc)?))
}

fn step_value(alloc: Global, step: Step) -> Result<Value, NoMemory>
    ensures { IfOk result (λ value. view value ≡ step_data step) }
{
    match step {
        Step::Main => put_value(alloc, MAIN_FILE, MAIN_TEXT),
        Step::File { directory, file } => list_value(alloc, &file_path(alloc, directory, file)?),
        Step::Override { directory, text } => {
            put_value(
                alloc,
                &override_path(alloc, directory)?,
                override_text(text),
            )
        }
        Step::Ask {
            directory,
            leaf,
            file,
        } => ask_value(alloc, &target(alloc, directory, leaf, file)?),
    }
}

fn put_value(alloc: Global, path: &str, text: &str) -> Result<Value, NoMemory>
    ensures { IfOk result (λ value. view value ≡ put_data path.now text.now) }
{
    json!(in alloc; {"do": "put", "path": path, "text": text})
}

fn list_value(alloc: Global, path: &str) -> Result<Value, NoMemory>
    ensures { IfOk result (λ value. view value ≡ list_data path.now) }
{
    json!(in alloc; {"do": "list", "kind": "file", "path": path})
}

fn ask_value(alloc: Global, target: &str) -> Result<Value, NoMemory>
    ensures { IfOk result (λ value. view value ≡ ask_data target.now) }
{
    json!(in alloc; {"do": "ask", "target": target})
}

fn file_path(alloc: Global, directory: u64, file: u64) -> Result<String, NoMemory>
    ensures { IfOk result (λ path. string_bytes path ≡ file_path directory file) }
{
    format!(in alloc; "/srv/d{directory}/f{file}.html")
}

fn override_path(alloc: Global, directory: u64) -> Result<String, NoMemory>
    ensures { IfOk result (λ path. string_bytes path ≡ override_path directory) }
{
    format!(in alloc; "/srv/d{directory}/.htaccess")
}

fn target(alloc: Global, directory: u64, leaf: Leaf, file: u64) -> Result<String, NoMemory>
    ensures { IfOk result (λ target. string_bytes target ≡ target_of directory leaf file) }
{
    let leaf = leaf_text(leaf);
    format!(in alloc; "/d{directory}/{leaf}{file}.html")
}

fn leaf_text(leaf: Leaf) -> &'static str
    ensures { result.now ≡ leaf_text leaf }
{
    match leaf {
        Leaf::Listed => "f",
        Leaf::Rewritten => "g",
    }
}

// What the `.htaccess` of a directory says.
fn override_text(text: u64) -> &'static str
    ensures { result.now ≡ override_text text }
{
    match text {
        0 => "RewriteEngine On\nRewriteRule ^g(.*)$ f$1 [L]\n",
        1 => "Require all granted\n",
        _ => "Require ip 10\n",
    }
}
