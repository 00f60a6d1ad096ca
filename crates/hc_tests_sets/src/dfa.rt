ghost use Rattle.std.specs.Prelude.{ℕ, ◌+◌, ◌==◌, ◌≤◌, nat_lt, if◌then◌else◌};
ghost use Rattle.std.proofs.Common.{rules};

use crate::languages::found_in;
use hc_base::{NoMemory, Text};
use hc_dfa::{
    Between, Dfa, Inclusion, Keep, Reading, between, byte_image, complement, first_members,
    included, least, listed, only_member, product, reduce, tested,
};
use std::alloc::Global;
use std::process::Abort;

// The sets of the tables, by patterns that are found in their texts.
const MANY_A_THEN_B: &str = "^a*b$";

const LETTERS: &str = "^[ab]*$";

const OTHERS: &str = "[^ab]";

const NOTHING: &str = "a^";

// The first texts are in the set, and the others are not.
fn check(rt: &impl Abort, set: &Dfa, inside: &[&str], outside: &[&str]) {
    for text in inside {
        assert!(rt; set.accepts(text.as_bytes()), "{text}");
    }
    for text in outside {
        assert!(rt; !set.accepts(text.as_bytes()), "{text}");
    }
}

#[test]
fn a_complement_has_the_other_texts(rt: HostRuntime) -> Result<(), NoMemory> {
    let letters = found_in(&rt, rt.alloc(), LETTERS)?;
    check(&rt, &letters, &["", "a", "ba"], &["c", "abc"]);
    let others = complement(rt.alloc(), &letters)?;
    check(&rt, &others, &["c", "ac"], &["", "ab"]);
    Ok(())
}

#[test]
fn a_table_is_read_back(rt: HostRuntime) -> Result<(), NoMemory> {
    let next = vec![in rt.alloc(); 0u32; 256]?;
    let finals = vec![in rt.alloc(); true; 1]?;
    let set = Dfa::from_table(rt.alloc(), &next, &finals)?;
    assert!(rt; set.states() == 1);
    assert!(rt; set.is_final(0) && set.next_state(0, 7) == 0);
    Ok(())
}

fn of_two(
    rt: &impl Abort,
    alloc: Global,
    first: &str,
    second: &str,
    keep: Keep,
) -> Result<Dfa, NoMemory> {
    let a = found_in(rt, alloc, first)?;
    let b = found_in(rt, alloc, second)?;
    product(alloc, &a, &b, keep)
}

// Two sets, what is kept of them, texts that are in it, others, and the states of the least automaton.
static PRODUCTS: &[(&str, &str, Keep, &[&str], &[&str], u32)] = &[
    (MANY_A_THEN_B, LETTERS, Keep::Both, &["ab"], &["aa"], 3),
    (
        MANY_A_THEN_B,
        OTHERS,
        Keep::Either,
        &["ab", "c"],
        &["aa"],
        4,
    ),
    (
        LETTERS,
        MANY_A_THEN_B,
        Keep::FirstOnly,
        &["aa"],
        &["ab", "c"],
        4,
    ),
    (
        MANY_A_THEN_B,
        LETTERS,
        Keep::Either,
        &["ab", "aa"],
        &["c"],
        2,
    ),
    (LETTERS, LETTERS, Keep::FirstOnly, &[], &["", "a"], 1),
];

#[test]
fn sets_meet_and_join(rt: HostRuntime) -> Result<(), NoMemory> {
    for &(first, second, keep, inside, outside, states) in PRODUCTS {
        let set = of_two(&rt, rt.alloc(), first, second, keep)?;
        check(&rt, &set, inside, outside);
        assert!(rt; reduce(rt.alloc(), &set)?.states() == states);
    }
    Ok(())
}

#[test]
fn least_texts_are_the_shortest(rt: HostRuntime) -> Result<(), NoMemory> {
    static ROWS: &[(&str, Option<&str>, &[&str])] = &[
        (MANY_A_THEN_B, Some("b"), &["b", "ab", "aab"]),
        (LETTERS, Some(""), &["", "a", "b", "aa", "ab", "ba"]),
        (OTHERS, Some("\0"), &["\0", "\u{1}"]),
        (NOTHING, None, &[]),
    ];
    for &(set, shortest, first) in ROWS {
        let set = found_in(&rt, rt.alloc(), set)?;
        check_least(&rt, rt.alloc(), &set, shortest)?;
        check_first(&rt, rt.alloc(), &set, first)?;
    }
    Ok(())
}

fn check_least(
    rt: &impl Abort,
    alloc: Global,
    set: &Dfa,
    shortest: Option<&str>,
) -> Result<(), NoMemory> {
    let found = least(alloc, set)?;
    let text = found.as_ref().map(|text| text.as_bytes());
    assert!(rt; text == shortest.map(|text| text.as_bytes()));
    Ok(())
}

fn check_first(rt: &impl Abort, alloc: Global, set: &Dfa, texts: &[&str]) -> Result<(), NoMemory> {
    let found = first_members(alloc, set, texts.len())?;
    assert!(rt; found.as_slice().len() == texts.len());
    for (member, text) in found.as_slice().iter().zip(texts.iter()) {
        assert!(rt; member.as_bytes() == text.as_bytes());
    }
    Ok(())
}

#[test]
fn the_text_of_a_set_of_one_is_found(rt: HostRuntime) -> Result<(), NoMemory> {
    static ROWS: &[(&str, Option<&str>)] = &[
        ("^$", Some("")),
        ("^/index\\.php$", Some("/index.php")),
        ("^a(b|c)$", None),
        ("^(a|bc)$", None),
        ("^ab?$", None),
        (MANY_A_THEN_B, None),
        (OTHERS, None),
        (NOTHING, None),
    ];
    for &(set, text) in ROWS {
        let set = found_in(&rt, rt.alloc(), set)?;
        check_only(&rt, rt.alloc(), &set, text)?;
    }
    Ok(())
}

fn check_only(
    rt: &impl Abort,
    alloc: Global,
    set: &Dfa,
    text: Option<&str>,
) -> Result<(), NoMemory> {
    let found = only_member(alloc, set)?;
    let only = found.as_ref().map(|text| text.as_bytes());
    assert!(rt; only == text.map(|text| text.as_bytes()));
    Ok(())
}

// A set, what stands before and how many bytes are left out, what stands behind, texts that are in it so, and others.
static PLACES: &[(&str, &str, usize, &str, &[&str], &[&str])] = &[
    ("^ab*c$", "", 0, "", &["ac", "abc"], &["", "ab"]),
    ("^ab*c$", "ab", 0, "", &["c", "bc"], &["", "ac"]),
    ("^ab*c$", "", 0, "bc", &["a", "abb"], &["", "c"]),
    (
        "^ab*c$",
        "a",
        2,
        "c",
        &["", "x", "xy", "xyb"],
        &["xyz", "xybc"],
    ),
    ("^ab*c$", "c", 3, "", &[], &["", "xyzac"]),
];

#[test]
fn texts_stand_between_others(rt: HostRuntime) -> Result<(), NoMemory> {
    for &(set, before, skip, after, inside, outside) in PLACES {
        let around = Between {
            before: before.as_bytes(),
            skip,
            after: after.as_bytes(),
        };
        let set = found_in(&rt, rt.alloc(), set)?;
        let made = between(rt.alloc(), &set, around)?;
        check(&rt, &made, inside, outside);
    }
    Ok(())
}

// The least text that the first set has and the second has not.
fn outside(
    rt: &impl Abort,
    alloc: Global,
    first: &str,
    second: &str,
) -> Result<Inclusion, NoMemory> {
    let a = found_in(rt, alloc, first)?;
    let b = found_in(rt, alloc, second)?;
    included(alloc, &a, &b)?.clone()
}

#[test]
fn inclusion_shows_the_least_text_outside(rt: HostRuntime) -> Result<(), NoMemory> {
    static ROWS: &[(&str, &str, Option<&str>)] = &[
        (MANY_A_THEN_B, LETTERS, None),
        (LETTERS, MANY_A_THEN_B, Some("")),
        (MANY_A_THEN_B, OTHERS, Some("b")),
    ];
    for &(first, second, wanted) in ROWS {
        match outside(&rt, rt.alloc(), first, second)? {
            Inclusion::Yes => assert!(rt; wanted.is_none()),
            Inclusion::No(text) => {
                assert!(rt; Some(text.as_bytes()) == wanted.map(|text| text.as_bytes()))
            }
        }
    }
    Ok(())
}

#[test]
fn an_image_replaces_bytes(rt: HostRuntime) -> Result<(), NoMemory> {
    let mut table = [0u8; 256];
    for byte in 0..256usize {
        table[byte] = byte as u8;
    }
    table[97] = b'A';
    let set = found_in(&rt, rt.alloc(), MANY_A_THEN_B)?;
    let image = byte_image(rt.alloc(), &set, &table)?;
    check(&rt, &image, &["Ab", "AAb"], &["ab", "AB"]);
    Ok(())
}

fn set_of(alloc: Global, texts: &[&str]) -> Result<Dfa, NoMemory> {
    let mut list = Vec::new(alloc);
    for text in texts {
        list.push(Text::copy_of(alloc, text.as_bytes())?)?;
    }
    listed(alloc, &list)
}

#[test]
fn a_list_of_texts_is_their_set(rt: HostRuntime) -> Result<(), NoMemory> {
    // The texts, others, and the states of the least automaton.
    static ROWS: &[(&[&str], &[&str], u32)] = &[
        (&[], &["", "a"], 1),
        (&[""], &["a"], 2),
        (&["ab", "ac", "ab"], &["", "a", "b", "abc"], 4),
        (&["b", "", "ba"], &["a", "bb", "bab"], 4),
    ];
    for &(texts, others, states) in ROWS {
        let set = set_of(rt.alloc(), texts)?;
        check(&rt, &set, texts, others);
        assert!(rt; set.states() == states);
    }
    Ok(())
}

// Texts of two bytes: a key counts the bytes that were read, up to three.
#[derive(Clone, Copy)]
struct OfTwo;

impl Reading for OfTwo {
    type Key = u32;

    ghost is_key = { λ test count. count ≤ 3 };

    ghost reads = { λ test count byte. if (nat_lt count 3) then count + 1 else count };

    ghost holds = { λ test count. count == 2 };

    fn next(&self, count: u32, _byte: u8) -> u32 {
        if count < 3 { count + 1 } else { count }
    }

    fn holds(&self, count: u32) -> bool {
        count == 2
    }

    ghost same = { Prim.search rules };
}

#[test]
fn a_test_reads_byte_by_byte(rt: HostRuntime) -> Result<(), NoMemory> {
    let set = tested(rt.alloc(), &OfTwo, 0)?;
    check(&rt, &set, &["ab", "bb"], &["", "a", "abc", "abcde"]);
    assert!(rt; set.states() == 4);
    Ok(())
}

#[test]
fn a_reduced_automaton_is_the_least(rt: HostRuntime) -> Result<(), NoMemory> {
    let set = found_in(&rt, rt.alloc(), "^.*a.{4}$")?;
    assert!(rt; reduce(rt.alloc(), &set)?.states() == 32);
    Ok(())
}

// What a set has in common with what it has not.
fn met_with_its_complement(alloc: Global, set: &Dfa) -> Result<Dfa, NoMemory> {
    let others = complement(alloc, set)?;
    product(alloc, set, &others, Keep::Both)
}

#[test]
fn large_sets_take_a_moment(rt: HostRuntime) -> Result<(), NoMemory> {
    let set = found_in(&rt, rt.alloc(), "^.*a.{11}$")?;
    let met = met_with_its_complement(rt.alloc(), &set)?;
    assert!(rt; met.states() == 4096);
    assert!(rt; reduce(rt.alloc(), &met)?.states() == 1);
    Ok(())
}
