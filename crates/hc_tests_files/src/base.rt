ghost use Rattle.std.specs.Prelude.{◌≡◌, ◌+◌, ◌<◌};

use crate::show::push_number;
use hc_base::bytes::{begins_with, ends_with};
use hc_base::codes::{CONTROL_BYTE, NO_SUCH_PLACE, UNSUPPORTED_DIRECTIVE, name_of_code};
use hc_base::paths::{begins_with_slash, ends_with_slash, is_dots};
use hc_base::{
    AtByte, Counter, CowStr, Failed, Fault, List, NoMemory, Place, Refusal, Sink, Source, StdSink,
    StdSource, Text, VecSink, VecSource,
};
use std::alloc::Global;
use std::marker::Brand;
use std::process::Abort;
use std::sync::ledger::{Blank, Ledger};

fn check_text(rt: &impl Abort, text: &Text, bytes: &str) {
    assert!(rt; text.as_bytes() == bytes.as_bytes(), "{bytes}");
}

#[test]
fn texts_keep_their_bytes(rt: HostRuntime) -> Result<(), NoMemory> {
    static ROWS: &[&str] = &["", "a", "two\nlines"];
    for &bytes in ROWS {
        let text = Text::copy_of(rt.alloc(), bytes.as_bytes())?;
        check_text(&rt, &text, bytes);
        check_text(&rt, &text.clone()?, bytes);
        check_text(&rt, &Text::from(text.into_vec()), bytes);
    }
    Ok(())
}

#[test]
fn lists_keep_their_order(rt: HostRuntime) -> Result<(), NoMemory> {
    let mut list = List::new(rt.alloc());
    assert!(rt; list.as_slice().len() == 0);
    for item in [3u32, 1, 2] {
        list.push(item)?;
    }
    let twin = list.copy()?;
    list.push(9)?;
    assert!(rt; list.as_slice() == [3, 1, 2, 9].as_slice());
    assert!(rt; twin.as_slice() == [3, 1, 2].as_slice());
    Ok(())
}

fn refusal(alloc: Global) -> Result<Refusal, NoMemory> {
    let place = Place {
        file: Text::copy_of(alloc, b"/f")?,
        line: 7,
    };
    Ok(Refusal::at(alloc, place, AtByte { code: 1, at: 2 }))
}

#[test]
fn a_refusal_is_cloned(rt: HostRuntime) -> Result<(), NoMemory> {
    let twin = refusal(rt.alloc())?.clone()?;
    check_text(&rt, &twin.place.file, "/f");
    check_text(&rt, &twin.field, "");
    assert!(rt; (twin.place.line, twin.code, twin.at) == (7, 1, 2));
    Ok(())
}

#[test]
fn a_lent_and_an_owned_text_are_read(rt: HostRuntime) -> Result<(), NoMemory> {
    assert!(rt; CowStr::from("lent").as_str() == "lent");
    let owned = String::from_str(rt.alloc(), "owned")?;
    assert!(rt; CowStr::from(owned).as_str() == "owned");
    Ok(())
}

#[test]
fn rules_have_names(rt: HostRuntime) {
    static ROWS: &[(u8, &str)] = &[
        (UNSUPPORTED_DIRECTIVE, "UnsupportedDirective"),
        (CONTROL_BYTE, "ControlByte"),
        (NO_SUCH_PLACE, "NoSuchPlace"),
        (3, "WrongArguments"),
        (6, "UnclosedQuote"),
        (11, "NoServerRoot"),
        (12, "BadDefineName"),
        (13, "PatternUnsupported"),
        (14, "PatternSyntax"),
        (16, "EmptyLoop"),
        (0, ""),
        (255, ""),
    ];
    for &(code, name) in ROWS {
        assert!(rt; name_of_code(code) == name, "{code}");
    }
}

#[test]
fn want_of_memory_is_a_fault(rt: HostRuntime) {
    assert!(rt; Fault::<u8>::from(NoMemory) == Fault::NoMemory);
}

#[test]
fn ends_of_texts_and_paths(rt: HostRuntime) {
    assert!(rt; begins_with(b"ab", b'a') && !begins_with(b"ab", b'b') && !begins_with(b"", b'a'));
    assert!(rt; ends_with(b"ab", b'b') && !ends_with(b"ab", b'a') && !ends_with(b"", b'a'));
    assert!(rt; begins_with_slash(b"/a") && !begins_with_slash(b"a/"));
    assert!(rt; ends_with_slash(b"a/") && !ends_with_slash(b"/a"));
    assert!(rt; is_dots(b".") && is_dots(b"..") && !is_dots(b"...") && !is_dots(b".a"));
}

fn tick_twice<L: Ledger>(steps: &mut Counter<L>)
    ensures { steps.new ≡ steps.old + 2 }
{
    steps.tick();
    steps.tick();
}

fn count_two<L: Ledger>(blank: Blank)
    requires name { blank.name ≡ L.name }
    requires parts { blank.parts ≡ L.parts }
    requires whole { 0 < blank.parts }
{
    tick_twice(&mut Counter::<L>::new(blank));
}

#[test]
fn steps_are_counted() {
    count_two::<Brand>(Blank::new(1));
}

// What this many calls into a buffer of this size read: the bytes of each, or `!` where it failed,
// and then `|`.
fn reads<S: Source>(
    alloc: Global,
    source: &mut S,
    size: usize,
    calls: usize,
) -> Result<Vec<u8>, NoMemory> {
    let mut buf = vec![in alloc; 0; size]?;
    let mut seen = Vec::new(alloc);
    for _ in 0..calls {
        match source.read(&mut buf) {
            Ok(count) => seen.extend_from_slice(&buf[..count])?,
            Err(Failed) => seen.push(b'!')?,
        }
        seen.push(b'|')?;
    }
    Ok(seen)
}

// What a sink answers to the pieces: the count of each, or `!` where it failed, and then `|`.
fn writes<K: Sink>(alloc: Global, sink: &mut K, pieces: &[&str]) -> Result<String, NoMemory> {
    let mut counts = String::new(alloc);
    for piece in pieces {
        match sink.write(piece.as_bytes()) {
            Ok(count) => push_number(&mut counts, count as u64)?,
            Err(Failed) => counts.push_str("!")?,
        }
        counts.push_str("|")?;
    }
    Ok(counts)
}

#[test]
fn a_source_in_memory_reads_and_fails(rt: HostRuntime) -> Result<(), NoMemory> {
    static ROWS: &[(&[u64], usize, &str)] = &[
        (&[], 0, "||||||"),
        (&[], 1, "a|b|c|d|e|f|"),
        (&[], 3, "abc|def|g||||"),
        (&[], 8, "abcdefg||||||"),
        (&[1], 3, "!|abc|def|g|||"),
        (&[2], 3, "abc|!|def|g|||"),
        (&[3], 3, "abc|def|!|g|||"),
        (&[4], 3, "abc|def|g|!|||"),
        (&[4, 2, 1], 3, "!|!|abc|!|def|g|"),
    ];
    for &(failing, size, wanted) in ROWS {
        let mut source = VecSource::new(rt.alloc(), b"abcdefg", failing)?;
        let seen = reads(rt.alloc(), &mut source, size, 6)?;
        assert!(rt; seen.as_slice() == wanted.as_bytes(), "{wanted}");
    }
    Ok(())
}

#[test]
fn a_sink_in_memory_takes_and_fails(rt: HostRuntime) -> Result<(), NoMemory> {
    static ROWS: &[(&[u64], usize, usize, &str, &str)] = &[
        (&[], 9, 99, "4|0|3|4|", "abcdefghijk"),
        (&[], 1, 99, "1|0|1|1|", "aeh"),
        (&[], 3, 99, "3|0|3|3|", "abcefghij"),
        (&[], 9, 6, "4|0|2|!|", "abcdef"),
        (&[], 9, 0, "!|0|!|!|", ""),
        (&[1], 9, 99, "!|0|3|4|", "efghijk"),
        (&[2], 9, 99, "4|!|3|4|", "abcdefghijk"),
        (&[3], 9, 99, "4|0|!|4|", "abcdhijk"),
        (&[4, 1], 9, 6, "!|0|3|!|", "efg"),
    ];
    for &(failing, most, room, wanted, held) in ROWS {
        assert!(rt; most > 0);
        let mut sink = VecSink::new(rt.alloc(), failing, most, room)?;
        let counts = writes(rt.alloc(), &mut sink, &["abcd", "", "efg", "hijk"])?;
        assert!(rt; counts.as_str() == wanted, "{failing:?}, {most}, {room}");
        assert!(rt;
            sink.written() == held.as_bytes(),
            "{failing:?}, {most}, {room}"
        );
    }
    Ok(())
}

#[test]
fn readers_of_std(rt: HostRuntime) -> Result<(), NoMemory> {
    let bytes: &[u8] = b"abcdefg";
    let seen = reads(rt.alloc(), &mut StdSource::new(bytes), 3, 4)?;
    assert!(rt; seen.as_slice() == b"abc|def|g||".as_slice());
    Ok(())
}

#[test]
fn writers_of_std(rt: HostRuntime) -> Result<(), NoMemory> {
    let mut held = Vec::new(rt.alloc());
    let counts = writes(
        rt.alloc(),
        &mut StdSink::new(&mut held),
        &["abcd", "", "efg"],
    )?;
    assert!(rt; counts.as_str() == "4|0|3|");
    assert!(rt; held.as_slice() == b"abcdefg".as_slice());
    Ok(())
}

// A writer that is full takes nothing, which is a fault.
#[test]
fn full_writers_of_std(rt: HostRuntime) -> Result<(), NoMemory> {
    let mut full = [0u8; 5];
    let slice: &mut [u8] = &mut full;
    let pieces = &["abcd", "", "efg", "h", ""];
    let counts = writes(rt.alloc(), &mut StdSink::new(slice), pieces)?;
    assert!(rt; counts.as_str() == "4|0|1|!|0|");
    assert!(rt; full.as_slice() == b"abcde".as_slice());
    Ok(())
}

// A test is given an empty input, or none.
#[test]
fn the_standard_input_ends_or_fails(rt: HostRuntime) -> Result<(), NoMemory> {
    let seen = reads(rt.alloc(), &mut StdSource::new(rt.reader()), 8, 1)?;
    assert!(rt; matches!(seen.as_slice(), b"|" | b"!|"));
    Ok(())
}
