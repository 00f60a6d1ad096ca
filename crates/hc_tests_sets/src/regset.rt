//! Sets of texts as they are written: each form once, and which pattern is refused first.

use hc_base::{AtByte, Boxed, Fault, List, NoMemory, Text};
use hc_regset::compile_set;
use hc_scope::SetForm;
use std::alloc::Global;
use std::process::Abort;

/// How a set of the tables is made of two texts.
enum Shape {
    Any,
    All,
    None,
    Literal,
    Pattern,
    /// The texts in which both patterns are found.
    Both,
    /// The first text, and those in which the second pattern is found.
    Either,
    /// The texts in which the first pattern is found, and the second is not.
    Without,
    /// All texts but those in which the first pattern is found, and of these those with the second.
    Rest,
}

fn pattern(alloc: Global, text: &[u8]) -> Result<SetForm, NoMemory> {
    Ok(SetForm::Pattern(Text::copy_of(alloc, text)?))
}

fn literal(alloc: Global, text: &[u8]) -> Result<SetForm, NoMemory> {
    Ok(SetForm::Literal(Text::copy_of(alloc, text)?))
}

fn minus(alloc: Global, first: SetForm, text: &[u8]) -> Result<SetForm, NoMemory> {
    let first = Boxed::new(alloc, first)?;
    let second = pattern(alloc, text)?;
    Ok(SetForm::Minus(first, Boxed::new(alloc, second)?))
}

fn pair(alloc: Global, first: SetForm, text: &[u8]) -> Result<List<SetForm>, NoMemory> {
    let mut forms = List::new(alloc);
    forms.push(first)?;
    forms.push(pattern(alloc, text)?)?;
    Ok(forms)
}

fn form(alloc: Global, shape: &Shape, first: &[u8], second: &[u8]) -> Result<SetForm, NoMemory> {
    match shape {
        Shape::Any => Ok(SetForm::Any),
        Shape::All => Ok(SetForm::And(List::new(alloc))),
        Shape::None => Ok(SetForm::Or(List::new(alloc))),
        Shape::Literal => literal(alloc, first),
        Shape::Pattern => pattern(alloc, first),
        Shape::Both => Ok(SetForm::And(pair(alloc, pattern(alloc, first)?, second)?)),
        Shape::Either => Ok(SetForm::Or(pair(alloc, literal(alloc, first)?, second)?)),
        Shape::Without => minus(alloc, pattern(alloc, first)?, second),
        Shape::Rest => Ok(SetForm::And(pair(alloc, minus(alloc, SetForm::Any, first)?, second)?)),
    }
}

// Of the texts that are tried, those with a `1` are in the set and those with a `0` are not.
fn check_set(rt: &impl Abort, alloc: Global, form: &SetForm, wanted: &str) -> Result<(), NoMemory> {
    static TEXTS: &[&[u8]] = &[b"", b"a", b"A", b"ab", b"b", b"\xff"];
    let Ok(set) = compile_set(alloc, form) else {
        return Err(NoMemory);
    };
    let mut answers = String::new(alloc);
    for text in TEXTS {
        answers.push_str(if set.accepts(text) { "1" } else { "0" })?;
    }
    assert!(rt; answers.as_str() == wanted, "{wanted}");
    Ok(())
}

// How a set is made of two texts, and which of the texts that are tried are in it.
static MADE: &[(Shape, &[u8], &[u8], &str)] = &[
    (Shape::Any, b"", b"", "111111"),
    (Shape::All, b"", b"", "111111"),
    (Shape::None, b"", b"", "000000"),
    (Shape::Literal, b"ab", b"", "000100"),
    (Shape::Literal, b"", b"", "100000"),
    (Shape::Pattern, b"a", b"", "010100"),
    (Shape::Both, b"a", b"b", "000100"),
    (Shape::Either, b"\xff", b"^a$", "010001"),
    (Shape::Without, b"a", b"^a$", "000100"),
    (Shape::Without, b"a", b"a", "000000"),
    (Shape::Rest, b"a", b"b", "000010"),
];

#[test]
fn sets_are_made(rt: HostRuntime) -> Result<(), NoMemory> {
    for (shape, first, second, wanted) in MADE {
        let form = form(rt.alloc(), shape, first, second)?;
        check_set(&rt, rt.alloc(), &form, wanted)?;
    }
    Ok(())
}

// A pattern in so many sets within each other.
fn nested(alloc: Global, text: &[u8], depth: u8) -> Result<SetForm, NoMemory> {
    let mut form = pattern(alloc, text)?;
    for _ in 0..depth {
        let mut forms = List::new(alloc);
        forms.push(form)?;
        form = SetForm::Or(forms);
    }
    Ok(form)
}

#[test]
fn sets_stand_within_each_other(rt: HostRuntime) -> Result<(), NoMemory> {
    let form = nested(rt.alloc(), b"a", 32)?;
    check_set(&rt, rt.alloc(), &form, "010100")?;
    let form = nested(rt.alloc(), b"(a", 32)?;
    check_refused(&rt, rt.alloc(), &form, 14, 0);
    Ok(())
}

fn check_refused(rt: &impl Abort, alloc: Global, form: &SetForm, code: u8, at: u32) {
    match compile_set(alloc, form) {
        Err(Fault::Refused(broken)) => assert!(rt; broken == AtByte { code, at }),
        _ => panic!(rt; "no refusal"),
    }
}

#[test]
fn first_refusals_are_told(rt: HostRuntime) -> Result<(), NoMemory> {
    static ROWS: &[(Shape, &[u8], &[u8], u8, u32)] = &[
        (Shape::Pattern, b"a\\b", b"", 13, 1),
        (Shape::Pattern, b"(a", b"", 14, 0),
        (Shape::Pattern, b"(a{255}){255}", b"", 15, 0),
        (Shape::Pattern, b"a(b*)*", b"", 16, 5),
        (Shape::Without, b"a", b"x)", 14, 1),
        (Shape::Rest, b"x)", b"(a", 14, 1),
        (Shape::Both, b"a", b"(a", 14, 0),
    ];
    for (shape, first, second, code, at) in ROWS {
        let form = form(rt.alloc(), shape, first, second)?;
        check_refused(&rt, rt.alloc(), &form, *code, *at);
    }
    Ok(())
}
