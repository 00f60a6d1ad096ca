use hc_table::{
    Class, Context, Contexts, Directive, FlagName, Front, Meaning, OptionName, OptionWord, Row,
    SectionName, Variable, Wording, class_named, directive_named, find_in, flag_named, front_named,
    option_named, variable_named,
};
use std::process::Abort;

// Contexts by letters: the main server, a virtual host, a directory, a directory by a pattern, files,
// a location, `If` and an .htaccess file.
static CONTEXTS: &[(u8, Context)] = &[
    (b's', Context::MainServer),
    (b'v', Context::VirtualHost),
    (b'd', Context::Directory),
    (b'm', Context::DirectoryMatch),
    (b'f', Context::Files),
    (b'l', Context::Location),
    (b'i', Context::IfSection),
    (b'h', Context::Htaccess),
];

fn check_contexts(rt: &impl Abort, name: &str, contexts: Contexts, letters: &str) {
    for &(letter, context) in CONTEXTS {
        let wanted = letters.bytes().any(|byte| byte == letter);
        assert!(rt; contexts.contain(context) == wanted, "{name}");
    }
}

// The words of two directives keep their backslashes.
fn wording_of(name: &str) -> Wording {
    match name {
        "RewriteRule" | "RewriteCond" => Wording::Rewriting,
        _ => Wording::Configuration,
    }
}

fn check_directive(rt: &impl Abort, name: &str, meaning: Meaning, letters: &str, class: &str) {
    let Some(kind) = directive_named(name.as_bytes()) else {
        panic!(rt; "{name}");
    };
    assert!(rt;
        kind.meaning == meaning && kind.wording == wording_of(name),
        "{name}"
    );
    assert!(rt; kind.class == class_named(class.as_bytes()), "{name}");
    check_contexts(rt, name, kind.contexts, letters);
}

// A name, what it means, where it may stand, and its class of overrides.
static DIRECTIVES: &[(&str, Directive, &str, &str)] = &[
    ("ServerRoot", Directive::ServerRoot, "s", ""),
    ("documentroot", Directive::DocumentRoot, "sv", ""),
    ("SERVERALIAS", Directive::ServerAlias, "v", ""),
    ("Define", Directive::Define, "svdmfli", ""),
    ("Include", Directive::Include, "svdmfli", ""),
    ("Alias", Directive::Alias, "sv", ""),
    ("Redirect", Directive::Redirect, "svdh", "FileInfo"),
    ("Options", Directive::Options, "svdmflih", "Options"),
    ("AllowOverride", Directive::AllowOverride, "d", ""),
    ("Require", Directive::Require, "dmflih", "AuthConfig"),
    ("RewriteBase", Directive::RewriteBase, "dh", "FileInfo"),
    ("RewriteRule", Directive::RewriteRule, "svdh", "FileInfo"),
    ("RewriteMap", Directive::RewriteMap, "sv", ""),
    ("Listen", Directive::Inert, "sv", ""),
    ("SSLEngine", Directive::Inert, "sv", ""),
    ("ErrorDocument", Directive::Inert, "svdmflih", "FileInfo"),
    ("DirectoryIndex", Directive::Inert, "svdmflih", "Indexes"),
    ("php_value", Directive::Inert, "svdmflih", "Options"),
    ("SSLCipherSuite", Directive::Inert, "svdmflih", "AuthConfig"),
    ("ServerSignature", Directive::Inert, "svdmflih", ""),
    ("LogLevel", Directive::Inert, "svdmfli", ""),
];

static SECTIONS: &[(&str, SectionName, &str, &str)] = &[
    ("VirtualHost", SectionName::VirtualHost, "s", ""),
    ("Directory", SectionName::Directory, "sv", ""),
    ("LocationMatch", SectionName::LocationMatch, "sv", ""),
    ("Files", SectionName::Files, "svdmh", ""),
    ("eLSEiF", SectionName::ElseIf, "svdmflh", ""),
    (
        "RequireAny",
        SectionName::RequireAny,
        "dmflih",
        "AuthConfig",
    ),
    ("IfModule", SectionName::IfModule, "svdmflih", ""),
];

#[test]
fn directives_are_found(rt: HostRuntime) {
    for &(name, directive, letters, class) in DIRECTIVES {
        check_directive(&rt, name, Meaning::Directive(directive), letters, class);
    }
    for &(name, section, letters, class) in SECTIONS {
        check_directive(&rt, name, Meaning::Section(section), letters, class);
    }
    // The last one's first letter is a long s.
    for name in ",Alia,Aliases, Alias,<Directory,Limit,Proxy,ſetEnv".split(',') {
        assert!(rt; directive_named(name.as_bytes()).is_none(), "{name}");
    }
}

#[test]
fn flags_of_rules_are_found(rt: HostRuntime) {
    static ROWS: &[(&str, Option<FlagName>)] = &[
        ("L", Some(FlagName::Last)),
        ("last", Some(FlagName::Last)),
        ("END", Some(FlagName::End)),
        ("Chain", Some(FlagName::Chain)),
        ("r", Some(FlagName::Redirect)),
        ("qsappend", Some(FlagName::AppendQuery)),
        ("NC", Some(FlagName::NoCase)),
        ("env", Some(FlagName::Environment)),
        ("CO", Some(FlagName::Cookie)),
        ("nosubreq", Some(FlagName::NoSubrequest)),
        ("P", Some(FlagName::Unsupported)),
        ("unsafeprefixstat", Some(FlagName::Unsupported)),
        ("", None),
        ("X", None),
        ("la", None),
        ("lasts", None),
        ("R=301", None),
        ("Alias", None),
    ];
    for &(name, wanted) in ROWS {
        assert!(rt; flag_named(name.as_bytes()) == wanted, "{name}");
    }
}

#[test]
fn variables_are_found(rt: HostRuntime) {
    static ROWS: &[(&str, Option<Variable>)] = &[
        ("HTTP_HOST", Some(Variable::HttpHost)),
        ("REQUEST_URI", Some(Variable::RequestUri)),
        ("Query_String", Some(Variable::QueryString)),
        ("SERVER_PORT", Some(Variable::ServerPort)),
        ("https", Some(Variable::Https)),
        ("THE_REQUEST", Some(Variable::TheRequest)),
        ("", None),
        ("HTTP:", None),
        ("ENV:", None),
        ("TIME_YEAR", None),
        ("%{HTTPS}", None),
    ];
    for &(name, wanted) in ROWS {
        assert!(rt; variable_named(name.as_bytes()) == wanted, "{name}");
    }
    static FRONTS: &[(&str, Option<Front>)] = &[
        ("http:", Some(Front::Header)),
        ("ENV:", Some(Front::Environment)),
        ("HTTP", None),
        ("HTTP:Host", None),
        ("ENV:x", None),
        ("HTTPS", None),
    ];
    for &(name, wanted) in FRONTS {
        assert!(rt; front_named(name.as_bytes()) == wanted, "{name}");
    }
}

#[test]
fn options_and_classes_are_found(rt: HostRuntime) {
    static OPTIONS: &[(&str, Option<OptionWord>)] = &[
        ("None", Some(OptionWord::Nothing)),
        ("all", Some(OptionWord::All)),
        ("Indexes", Some(OptionWord::One(OptionName::Indexes))),
        ("EXECCGI", Some(OptionWord::One(OptionName::ExecCgi))),
        ("+Indexes", None),
        ("Include", None),
    ];
    for &(name, wanted) in OPTIONS {
        assert!(rt; option_named(name.as_bytes()) == wanted, "{name}");
    }
    static CLASSES: &[(&str, Option<Class>)] = &[
        ("authconfig", Some(Class::AuthConfig)),
        ("Options", Some(Class::Options)),
        ("Options=Indexes", None),
        ("All", None),
        ("None", None),
    ];
    for &(name, wanted) in CLASSES {
        assert!(rt; class_named(name.as_bytes()) == wanted, "{name}");
    }
}

fn row(name: &'static str, kind: u8) -> Row<u8> {
    Row { name, kind }
}

#[test]
fn the_first_row_with_a_name_counts(rt: HostRuntime) {
    let rows = [row("Map", 1), row("mAP", 2), row("Mapped", 3)];
    assert!(rt; find_in(&rows, b"mAP") == Some(1) && find_in(&rows, b"MAPPED") == Some(3));
    assert!(rt; find_in(&rows, b"Ma") == None && find_in(&rows, b"Maps") == None);
}
