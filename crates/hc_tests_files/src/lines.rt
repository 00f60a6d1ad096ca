use crate::show::{Source, lines_of, push_all, push_number, show_fault, text_of};
use hc_base::NoMemory;
use hc_lines::{FileKind, Line};
use std::alloc::Global;
use std::process::Abort;

// A line as `number start-end text|`.
fn show_line(shown: &mut String, line: &Line) -> Result<(), NoMemory> {
    for (number, behind) in [
        (line.number, " "),
        (line.span.start, "-"),
        (line.span.end, " "),
    ] {
        push_number(shown, u64::from(number))?;
        shown.push_str(behind)?;
    }
    push_all(shown, &[line.text.as_str(), "|"])
}

/// Lines, one behind the other.
pub fn show_all(alloc: Global, lines: &[Line]) -> Result<String, NoMemory> {
    let mut shown = String::new(alloc);
    for line in lines {
        show_line(&mut shown, line)?;
    }
    Ok(shown)
}

/// The lines of a text, or the refusal.
pub fn show_lines(alloc: Global, source: Source) -> Result<String, NoMemory> {
    match lines_of(alloc, source) {
        Ok(lines) => show_all(alloc, &lines),
        Err(fault) => show_fault(alloc, fault),
    }
}

// A text, and its lines in both kinds of file.
static TEXTS: &[(&str, &str)] = &[
    // lines that say something
    ("", ""),
    ("\n", ""),
    ("\r\n", ""),
    (" \t \n\t", ""),
    ("a", "1 0-1 a|"),
    ("a\n", "1 0-1 a|"),
    ("a\r\nb\r\n", "1 0-1 a|2 3-4 b|"),
    ("  Alias /a /b \r\n", "1 2-13 Alias /a /b|"),
    ("\ta\tb\t\n", "1 1-4 a\tb|"),
    ("a\n\n \n b", "1 0-1 a|4 6-7 b|"),
    ("Alias /é /ü\nx", "1 0-13 Alias /é /ü|2 14-15 x|"),
    // No blank and no end of a line: a no-break space, NEL and a line separator.
    ("\u{a0}x\u{85}\u{2028}y", "1 0-9 \u{a0}x\u{85}\u{2028}y|"),
    ("\u{feff}a", "1 0-4 \u{feff}a|"),
    // comments say nothing
    ("# a", ""),
    (" \t#a\nb", "2 5-6 b|"),
    ("#\n##\n", ""),
    ("a # b", "1 0-5 a # b|"),
    ("\"# a", "1 0-4 \"# a|"),
    ("\\# a", "1 0-4 \\# a|"),
    ("# a \\\n  Alias /x /never\nb\n", "3 24-25 b|"),
    ("\\\n # a\\\nb\nc", "4 10-11 c|"),
    ("# a\\\r\nb", "2 6-7 b|"),
    // a backslash at the end joins lines
    ("ALIAS /i\\\nmage /x\n", "1 0-17 ALIAS /image /x|"),
    ("a\\\n b\\\n c\nd", "1 0-9 a b c|4 10-11 d|"),
    ("\n\na\\\nb\n\nc", "3 2-6 ab|6 8-9 c|"),
    ("\\\n  b\n", "1 4-5 b|"),
    ("\t\\\n\\\n b \\\n\\\n \nc", "1 6-7 b|6 14-15 c|"),
    (" \\\n\t\\\n \n", ""),
    ("a\\\n\nb", "1 0-1 a|3 4-5 b|"),
    ("a\\\\\nb", "1 0-5 a\\b|"),
    // CR or a blank stands between the backslash and LF.
    ("foo\\\r\nbar\n", "1 0-4 foo\\|2 6-9 bar|"),
    ("a\\ \nb", "1 0-2 a\\|2 4-5 b|"),
    // There is nothing to join with.
    ("a\\", "1 0-2 a\\|"),
    ("a\\\n", "1 0-2 a\\|"),
    ("\\\n", "1 0-1 \\|"),
    ("\\\n\\\n", "1 2-3 \\|"),
    ("a\\\n\\\n", "1 0-4 a\\|"),
    // control bytes are refused at their logical line
    ("\u{0}", "!31@1"),
    ("a\n\u{1f}b", "!31@2"),
    ("a\u{7f}", "!31@1"),
    ("a\u{b}b", "!31@1"),
    ("a\n\u{c}\n", "!31@2"),
    ("# \u{1b}", "!31@1"),
    ("a\rb\n", "!31@1"),
    ("a\r", "!31@1"),
    ("\r", "!31@1"),
    ("a\r\r\n", "!31@1"),
    ("a\r\\\nb\n", "!31@1"),
    ("a\nb\\\nc\u{1}\nd", "!31@2"),
    ("a\nb\\\nc\\\n\\\n\u{1}", "!31@2"),
    ("a\n\u{1}\nb\n\u{2}", "!31@2"),
];

fn check_lines(
    rt: &impl Abort,
    alloc: Global,
    source: Source,
    wanted: &str,
) -> Result<(), NoMemory> {
    let shown = show_lines(alloc, source)?;
    assert!(rt; shown.as_str() == wanted, "{wanted}");
    Ok(())
}

#[test]
fn texts_are_cut_into_lines(rt: HostRuntime) -> Result<(), NoMemory> {
    for &(text, wanted) in TEXTS {
        let file = FileKind::Config;
        check_lines(&rt, rt.alloc(), Source { text, file }, wanted)?;
        let file = FileKind::Htaccess;
        check_lines(&rt, rt.alloc(), Source { text, file }, wanted)?;
    }
    Ok(())
}

// How many lines a text of these pieces has, or its refusal.
fn show_count(alloc: Global, file: FileKind, pieces: &[(&str, usize)]) -> Result<String, NoMemory> {
    let text = text_of(alloc, pieces)?;
    match lines_of(alloc, Source { text: &text, file }) {
        Ok(lines) => lines.len().to_string(alloc),
        Err(fault) => show_fault(alloc, fault),
    }
}

// What stands before and behind so many `a`, which are counted from the most bytes of a line, and the
// number of lines or the refusal.
static SIZES: &[(&str, usize, usize, &str, &str)] = &[
    ("", 0, 0, "", "1"),
    ("", 0, 0, "\n", "1"),
    ("b\n", 0, 0, "\r\nb", "3"),
    ("", 1, 0, "", "!7@1"),
    ("b\n", 1, 0, "\n", "!7@2"),
    // Blanks count, and comments have a size too.
    (" ", 0, 2, "\t", "1"),
    (" ", 0, 1, "\t", "!7@1"),
    ("#", 0, 1, "\nb", "1"),
    ("#", 0, 0, "\nb", "!7@1"),
    // Joins don't count.
    ("\\\n\\\nb\\\n", 0, 1, "\nb", "2"),
    ("\\\n\\\nb\\\n", 0, 0, "\nb", "!7@1"),
    ("b\n\\\n", 0, 0, "\\\n", "!7@2"),
    // The first of two, and on one line the size.
    ("\u{1}\n", 1, 0, "\n", "!31@1"),
    ("", 1, 0, "\n\u{1}", "!7@1"),
    ("\u{1}", 0, 0, "", "!7@1"),
    ("\u{1}", 0, 1, "", "!31@1"),
];

fn check_sizes(
    rt: &impl Abort,
    alloc: Global,
    file: FileKind,
    most: usize,
) -> Result<(), NoMemory> {
    for (front, more, fewer, back, wanted) in SIZES {
        let count = most.saturating_add(*more).saturating_sub(*fewer);
        let shown = show_count(alloc, file, &[(front, 1), ("a", count), (back, 1)])?;
        assert!(rt; shown.as_str() == *wanted, "{count} after {front:?}");
    }
    Ok(())
}

#[test]
fn a_line_has_at_most_so_many_bytes(rt: HostRuntime) -> Result<(), NoMemory> {
    check_sizes(&rt, rt.alloc(), FileKind::Config, 1_048_576)?;
    check_sizes(&rt, rt.alloc(), FileKind::Htaccess, 8_190)
}

#[test]
fn texts_of_many_lines_are_read(rt: HostRuntime) -> Result<(), NoMemory> {
    static ROWS: &[(&str, &str)] = &[
        ("a\n", "100000"),
        (" \n", "0"),
        ("a \\\n", "1"),
        ("\\\n", "1"),
        ("#\\\n", "0"),
    ];
    for (piece, wanted) in ROWS {
        let shown = show_count(rt.alloc(), FileKind::Config, &[(piece, 100_000)])?;
        assert!(rt; shown.as_str() == *wanted, "{piece:?}");
    }
    Ok(())
}
