//! Flat lists of `.htaccess` texts, under what a configuration defines and loads.

ghost use Rattle.std.specs.Prelude.{◌≡◌, ◌<◌};

use crate::flat::{flat_of, show};
use crate::show::text_of;
use hc_base::{Counter, List, NoMemory, Place, Text};
use hc_flat::Flat;
use hc_include::flatten_override;
use hc_model::{Body, Config, Inherit, Merging, Rules, Server};
use hc_world::WorldFault;
use std::alloc::Global;
use std::marker::Brand;
use std::sync::ledger::{Blank, Ledger};

const PATH: &str = "/h";

// The main file of the configuration, a text, and its flat list, which has looked at nothing.
static CASES: &[(&str, &str, &str)] = &[
    // what the configuration defines and loads
    ("Define A b\n", "User ${A} ${B}\n", "/h 1.User b ${B};="),
    (
        "Define A b\nDefine A c\nDefine A\n",
        "<Files ${A}>\n</Files>\n",
        "/h 1<Files c;/h 2>Files c;=",
    ),
    (
        "Define A\n",
        "<IfDefine A>\nX\n</IfDefine>\n<IfDefine !A>\nY\n</IfDefine>\n",
        "/h 1<IfDefine A;/h 2.X;/h 3>IfDefine A;/h 4<IfDefine !A;/h 6>IfDefine !A;=",
    ),
    (
        "LoadModule x_module x\n",
        "<IfModule x_module>\n<IfModule core.c>\nX\n</IfModule>\n</IfModule>\n",
        "/h 1<IfModule x_module;/h 2<IfModule core.c;/h 3.X;/h 4>IfModule core.c;\
/h 5>IfModule x_module;=",
    ),
    (
        "",
        "<IfModule x_module>\n<Files x>\nX\n</Files>\n</IfModule>\nY\n",
        "/h 1<IfModule x_module;/h 5>IfModule x_module;/h 6.Y;=",
    ),
    // A directive of the text says nothing to the lines behind it, and nobody needs its words.
    (
        "Define A b\n",
        "Define A c\nDefine B\nUser ${A}\n<IfDefine B>\nX\n</IfDefine>\n",
        "/h 1.Define A c;/h 2.Define B;/h 3.User b;/h 4<IfDefine B;/h 6>IfDefine B;=",
    ),
    (
        "",
        "LoadModule x_module x\n<IfModule x_module>\nX\n</IfModule>\n",
        "/h 1.LoadModule x_module x;/h 2<IfModule x_module;/h 4>IfModule x_module;=",
    ),
    (
        "",
        "Include /m\nInclude m\nServerRoot /\nIncludeOptional *\n",
        "/h 1.Include /m;/h 2.Include m;/h 3.ServerRoot /;/h 4.IncludeOptional *;=",
    ),
    (
        "",
        "Define a:b\nInclude \"x\n",
        "/h 1.Define a:b;/h 2.Include \"x;=",
    ),
    // lines, and refusals
    (
        "",
        "User a\r\n\r\n# c\r\nFoo b\r\n",
        "/h 1.User a;/h 4.Foo b;=",
    ),
    ("", "", "="),
    ("", "X\n<Files x>\nY\n", "!4@/h 2="),
    ("", "X\n</Files>\n", "!5@/h 2="),
    ("", "X\nY\u{1}\n", "!31@/h 2="),
    ("", "X\n<IfDefine \"x>\n</IfDefine>\n", "/h 1.X;!6@/h 2="),
];

// So many `a` on a line behind another one, and the pieces of the flat list.
static SIZES: &[(usize, &[(&str, usize)])] = &[
    (8_190, &[("/h 1.X;/h 2.", 1), ("a", 8_190), (";=", 1)]),
    (8_191, &[("!7@/h 2=", 1)]),
];

// The text is no argument of its own, since a call that takes a `&str` can't pick its ledger.
#[derive(Clone, Copy)]
struct Asked<'t> {
    text: &'t str,
    config: &'t Config,
}

fn counted<L: Ledger>(blank: Blank, alloc: Global, asked: Asked) -> Result<Flat, NoMemory>
    requires name { blank.name ≡ L.name }
    requires parts { blank.parts ≡ L.parts }
    requires whole { 0 < blank.parts }
{
    let mut bytes = Counter::<L>::new(blank);
    flatten_override(alloc, asked.text, PATH.as_bytes(), asked.config, &mut bytes)
}

// What a main file defines and loads.
fn config_of(alloc: Global, main: &str) -> Result<Config, WorldFault> {
    let flat = flat_of(alloc, main, &[])?;
    Ok(Config {
        main: server(alloc),
        hosts: List::new(alloc),
        defines: flat.defines,
        modules: flat.modules,
        reads: flat.reads,
    })
}

fn server(alloc: Global) -> Server {
    Server {
        place: Place {
            file: Text::new(alloc),
            line: 0,
        },
        name: None,
        root: None,
        recursion: None,
        addresses: List::new(alloc),
        names: List::new(alloc),
        redirects: List::new(alloc),
        aliases: List::new(alloc),
        sections: List::new(alloc),
        rewrite_maps: List::new(alloc),
        body: body(alloc),
    }
}

fn body(alloc: Global) -> Body {
    Body {
        allow: None,
        require: None,
        engine: None,
        base: None,
        merging: Merging::Off,
        inherit: Inherit::No,
        rewrites: false,
        options: List::new(alloc),
        rules: Rules::new(),
        redirects: List::new(alloc),
        inner: List::new(alloc),
    }
}

fn show_override(alloc: Global, main: &str, text: &str) -> Result<String, WorldFault> {
    let config = config_of(alloc, main)?;
    let asked = Asked {
        text,
        config: &config,
    };
    Ok(show(alloc, &counted::<Brand>(Blank::new(1), alloc, asked)?)?)
}

#[test]
fn overrides_are_flat_lists(rt: HostRuntime) -> Result<(), WorldFault> {
    for &(main, text, wanted) in CASES {
        let shown = show_override(rt.alloc(), main, text)?;
        assert!(rt; shown.as_str() == wanted, "{text}");
    }
    Ok(())
}

#[test]
fn lines_of_overrides_have_a_size(rt: HostRuntime) -> Result<(), WorldFault> {
    for (size, wanted) in SIZES {
        let text = text_of(rt.alloc(), &[("X\n", 1), ("a", *size)])?;
        let shown = show_override(rt.alloc(), "", &text)?;
        let wanted = text_of(rt.alloc(), wanted)?;
        assert!(rt; shown == wanted, "{size}");
    }
    Ok(())
}
