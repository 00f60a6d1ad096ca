use crate::show::{push_all, show_rule};
use hc_base::{CowStr, Fault, NoMemory};
use hc_lines::{WordFault, conf_words, rewrite_words};
use std::alloc::Global;
use std::process::Abort;

fn push_word(shown: &mut String, word: &str) -> Result<(), NoMemory> {
    push_all(shown, &["[", word, "]"])
}

// The words, each as `[word]`, or the refusal as `!code@byte`.
fn show_words(alloc: Global, words: Result<Vec<CowStr>, WordFault>) -> Result<String, NoMemory> {
    let words = match words {
        Ok(words) => words,
        Err(Fault::NoMemory) => return Err(NoMemory),
        Err(Fault::Refused(broken)) => return show_rule(alloc, broken.code, broken.at),
    };
    let mut shown = String::new(alloc);
    for word in &words {
        push_word(&mut shown, word.as_str())?;
    }
    Ok(shown)
}

#[test]
fn words_of_directives(rt: HostRuntime) -> Result<(), NoMemory> {
    let alloc = rt.alloc();
    static ROWS: &[(&str, &str)] = &[
        ("", ""),
        (" \t ", ""),
        ("  Alias\t/a  /b ", "[Alias][/a][/b]"),
        (r#"Alias "/a b" '/c'"#, "[Alias][/a b][/c]"),
        (r#"/é "ü x""#, "[/é][ü x]"),
        // A word ends at its closing quote, and a quote inside a word is as any byte.
        (r#""a"b"#, "[a][b]"),
        (r#""a""b"'c'"#, "[a][b][c]"),
        (r#"a"b c""#, r#"[a"b][c"]"#),
        (r#"it's"#, "[it's]"),
        (r#"'a"b' "c'd""#, r#"[a"b][c'd]"#),
        (r#""""#, "[]"),
        (r#"'' a "" "#, "[][a][]"),
        // A backslash makes a backslash plain, and in quotes that quote.
        (r#""a\"b\\c\d""#, r#"[a"b\c\d]"#),
        (r#"'a\"b\'c'"#, r#"[a\"b'c]"#),
        (r"a\\b\c", r"[a\b\c]"),
        (r"a\\\\b", r"[a\\b]"),
        (r"a\\\b", r"[a\\b]"),
        (r"a\ b", r"[a\][b]"),
        (r#"a\"b"#, r#"[a\"b]"#),
        (r#"\"a b""#, r#"[\"a][b"]"#),
        (r"a\", r"[a\]"),
        (r#""a\\" b"#, r"[a\][b]"),
        // The quote has no end.
        (r#""a"#, "!6@0"),
        (r#""a\""#, "!6@0"),
        (r#"a b 'c"#, "!6@0"),
        (r#"""""#, "!6@0"),
    ];
    for &(line, wanted) in ROWS {
        let shown = show_words(alloc, conf_words(alloc, line))?;
        assert!(rt; shown.as_str() == wanted, "{line}");
    }
    Ok(())
}

#[test]
fn words_of_rewriting_directives(rt: HostRuntime) -> Result<(), NoMemory> {
    let alloc = rt.alloc();
    static ROWS: &[(&str, &str)] = &[
        ("", ""),
        ("\t ", ""),
        (
            "RewriteRule ^(.*)$\t/x [L]",
            "[RewriteRule][^(.*)$][/x][[L]]",
        ),
        (r"a\ b c", r"[a\ b][c]"),
        ("a\\\tb c", "[a\\\tb][c]"),
        (r"a\\ b", r"[a\\ b]"),
        (r#""a\" b"#, r"[a\][b]"),
        (r"a\\b", r"[a\\b]"),
        (r#"'x y' "z""#, "[x y][z]"),
        (r#""a"b a"b c""#, r#"[a][b][a"b][c"]"#),
        (r#"a\"b"#, r#"[a\"b]"#),
        (r#""" ''"#, "[][]"),
        (r"a\", r"[a\]"),
        (r"a \", r"[a][\]"),
        (r#""a"#, "!6@0"),
        (r#"a '\"#, "!6@0"),
    ];
    for &(line, wanted) in ROWS {
        let shown = show_words(alloc, rewrite_words(alloc, line))?;
        assert!(rt; shown.as_str() == wanted, "{line}");
    }
    Ok(())
}

// How many words a line has in a configuration and in rewriting.
fn check_counts(
    rt: &impl Abort,
    alloc: Global,
    line: &str,
    conf: usize,
    rewrite: usize,
) -> Result<(), NoMemory> {
    let (Ok(configured), Ok(rewritten)) = (conf_words(alloc, line), rewrite_words(alloc, line))
    else {
        return Err(NoMemory);
    };
    assert!(rt; configured.len() == conf && rewritten.len() == rewrite);
    Ok(())
}

#[test]
fn long_lines_have_words(rt: HostRuntime) -> Result<(), NoMemory> {
    let alloc = rt.alloc();
    let quotes = "\"".repeat(alloc, 100_000)?;
    check_counts(&rt, alloc, &quotes, 50_000, 50_000)?;
    let blanks = "a ".repeat(alloc, 100_000)?;
    check_counts(&rt, alloc, &blanks, 100_000, 100_000)
}

#[test]
fn long_words_are_read(rt: HostRuntime) -> Result<(), NoMemory> {
    let alloc = rt.alloc();
    let backslashes = "\\".repeat(alloc, 100_000)?;
    check_counts(&rt, alloc, &backslashes, 1, 1)?;
    let shown = show_words(alloc, conf_words(alloc, &backslashes))?;
    assert!(rt; shown.len() == 50_002);
    let open = format!(in alloc; "\"{backslashes}")?;
    let shown = show_words(alloc, rewrite_words(alloc, &open))?;
    assert!(rt; shown.as_str() == "!6@0");
    Ok(())
}
