use crate::show::{Source, lines_of, push_all, push_number, show_fault, text_of};
use hc_base::{Fault, NoMemory};
use hc_lines::{FileKind, Line};
use hc_nodes::{Node, first_refusal, read_nodes};
use std::alloc::Global;
use std::process::Abort;

// The number of a line, and these pieces behind it.
fn show_line(shown: &mut String, line: &Line, pieces: &[&str]) -> Result<(), NoMemory> {
    push_number(shown, u64::from(line.number))?;
    push_all(shown, pieces)
}

// A directive as `line name|rest;` and a section as `line <name|args>{..}`.
fn show_node(shown: &mut String, node: &Node) -> Result<(), NoMemory> {
    match node {
        Node::Directive { line, name, rest } => show_line(
            shown,
            line,
            &[" ", name, "|", rest, ";"],
        ),
        Node::Block {
            line,
            name,
            args,
            body,
        } => {
            show_line(shown, line, &[" <", name, "|", args, ">{"])?;
            for inner in body {
                show_node(shown, inner)?;
            }
            shown.push_str("}")
        }
    }
}

// The nodes of a text: how many they are, a colon, and the tree where it is asked for; or the refusal.
fn show_nodes(alloc: Global, text: &str, with_tree: bool) -> Result<String, NoMemory> {
    let file = FileKind::Config;
    let lines = match lines_of(alloc, Source { text, file }) {
        Ok(lines) => lines,
        Err(fault) => return show_fault(alloc, fault),
    };
    let nodes = match read_nodes(alloc, &lines) {
        Ok(nodes) => nodes,
        Err(fault) => return show_fault(alloc, fault),
    };
    let mut shown = String::new(alloc);
    push_number(&mut shown, nodes.len() as u64)?;
    shown.push_str(":")?;
    if with_tree {
        for node in &nodes {
            show_node(&mut shown, node)?;
        }
    }
    Ok(shown)
}

fn check_trees(rt: &impl Abort, alloc: Global, rows: &[(&str, &str)]) -> Result<(), NoMemory> {
    for (text, wanted) in rows {
        let shown = show_nodes(alloc, text, true)?;
        assert!(rt; shown.as_str() == *wanted, "{text}");
    }
    Ok(())
}

#[test]
fn trees_of_texts(rt: HostRuntime) -> Result<(), NoMemory> {
    static ROWS: &[(&str, &str)] = &[
        ("", "0:"),
        ("# a\n", "0:"),
        ("a\n b \"c\"  d\ne\t\tf", "3:1 a|;2 b| \"c\"  d;3 e|\t\tf;"),
        ("<D /a>\n</D>", "1:1 <D| /a>{}"),
        ("<D \t /a b >\n</D>", "1:1 <D| \t /a b >{}"),
        (
            "<Directory /a>\nx y\n</dIRECTORY>\nz",
            "2:1 <Directory| /a>{2 x| y;}4 z|;",
        ),
        (
            "<A>\n<B>\n<A>\nx\n</A>\n</B>\ny\n</A>",
            "1:1 <A|>{2 <B|>{3 <A|>{4 x|;}}7 y|;}",
        ),
        ("<A>\n</A>\n<A>\n</A>", "2:1 <A|>{}3 <A|>{}"),
        ("<A>\nx\n<B>\ny\n</B>\n</A>", "1:1 <A|>{2 x|;3 <B|>{4 y|;}}"),
        ("<A /x\\\n/y>\n</\\\nA>", "1:1 <A| /x/y>{}"),
        ("<>\n</>", "1:1 <|>{}"),
        ("< a>\n</>", "1:1 <| a>{}"),
        ("<a>b>\n</a>b>", "1:1 <a>b|>{}"),
        ("<<a>\n</<a>", "1:1 <<a|>{}"),
        ("<a/>\n</a/>", "1:1 <a/|>{}"),
        ("a<b>\nb>", "2:1 a<b>|;2 b>|;"),
        (">\n/", "2:1 >|;2 /|;"),
        ("<É>\n</É>", "1:1 <É|>{}"),
    ];
    check_trees(&rt, rt.alloc(), ROWS)
}

// The first rule that the lines break; nothing where the lines are refused.
fn show_refusal(alloc: Global, text: &str) -> Result<String, NoMemory> {
    let file = FileKind::Config;
    let lines = match lines_of(alloc, Source { text, file }) {
        Ok(lines) => lines,
        Err(fault) => return show_fault(alloc, fault),
    };
    match first_refusal(alloc, &lines)? {
        Some(broken) => show_fault(alloc, Fault::Refused(broken)),
        None => Ok(String::new(alloc)),
    }
}

fn check_refusals(rt: &impl Abort, alloc: Global, rows: &[(&str, &str)]) -> Result<(), NoMemory> {
    for (text, wanted) in rows {
        let shown = show_refusal(alloc, text)?;
        assert!(rt; shown.as_str() == *wanted, "{text}");
    }
    Ok(())
}

#[test]
fn wrong_sections_are_refused(rt: HostRuntime) -> Result<(), NoMemory> {
    static ROWS: &[(&str, &str)] = &[
        // a close that is not of the form of its opening's
        ("<Directory /a>\n</Directory >", "!4@1"),
        ("x\n</Directory >", "!5@2"),
        ("</Directory", "!5@1"),
        ("</a>\n<a>\n</a>", "!5@1"),
        ("<a>\n</a b>\n</a>", "!5@2"),
        ("<a>\n</ a>\n</a>", "!5@2"),
        ("<a>\n</a\n</a>", "!5@2"),
        ("<a>\n</>\n</a>", "!5@2"),
        ("<É>\n</é>\n</É>", "!5@2"),
        ("<a>b>\n</a>", "!4@1"),
        ("</", "!5@1"),
        // an opening that is not closed, or has no `>`
        ("x\n<a>\ny", "!4@2"),
        ("x\n<a\ny", "!4@2"),
        ("<", "!4@1"),
        ("<a\n</a>", "!4@1"),
        ("<a> b\n</a>", "!4@1"),
        ("<a>\n<b\n</a>", "!4@2"),
        ("<a>\n<b>", "!4@1"),
        ("<a>\n</a>\n<b>\n<c>", "!4@3"),
        // crossing sections, of which the first is closed by nothing
        ("<a>\n<b>\n</a>\n</b>", "!4@1"),
        ("<a>\n<b>\n</a>\n</b>\n</a>", "!5@3"),
        // the first line of two that are refused, though the second is found first
        ("<a>\n</b>", "!4@1"),
        ("</b>\n<a>", "!5@1"),
        // the lines are refused before the sections
        ("</b>\n\u{1}", "!31@2"),
    ];
    check_refusals(&rt, rt.alloc(), ROWS)?;
    check_trees(&rt, rt.alloc(), ROWS)
}

// Texts of pieces, each so many times, and how many nodes a text has, or its refusal.
type Rows = &'static [(&'static [(&'static str, usize)], &'static str)];

fn check_many(rt: &impl Abort, alloc: Global, rows: Rows) -> Result<(), NoMemory> {
    for (pieces, wanted) in rows {
        let text = text_of(alloc, pieces)?;
        let shown = show_nodes(alloc, &text, false)?;
        assert!(rt; shown.as_str() == *wanted, "{pieces:?}");
    }
    Ok(())
}

#[test]
fn sections_are_nested_at_most_64_deep(rt: HostRuntime) -> Result<(), NoMemory> {
    const OPEN: &str = "<a>\n";
    const CLOSE: &str = "</a>\n";
    static ROWS: Rows = &[
        (&[(OPEN, 64), ("x\n", 2), (CLOSE, 64), ("y\n", 3)], "4:"),
        (&[(OPEN, 64), (CLOSE, 64), (OPEN, 64), (CLOSE, 64)], "2:"),
        (&[(OPEN, 65), (CLOSE, 65)], "!30@65"),
        (&[(OPEN, 65), (CLOSE, 64)], "!4@1"),
        (&[(OPEN, 64), ("<a\n", 1), (CLOSE, 64)], "!4@65"),
        (&[(OPEN, 64), ("<a>\n</a>\n", 2), (CLOSE, 64)], "!30@65"),
    ];
    check_many(&rt, rt.alloc(), ROWS)
}

#[test]
fn texts_of_many_nodes_are_read(rt: HostRuntime) -> Result<(), NoMemory> {
    static ROWS: Rows = &[
        (&[("x y\n", 100_000)], "100000:"),
        (&[("<a>\n</a>\n", 50_000)], "50000:"),
        (&[("<a>\n", 1), ("x\n", 100_000), ("</a>\n", 1)], "1:"),
        (&[("<a>\n", 100_000)], "!4@1"),
        (&[("</a>\n", 100_000)], "!5@1"),
    ];
    check_many(&rt, rt.alloc(), ROWS)
}
