//! Whole runs, from the words and the bytes to what is written. Where a run ends otherwise than is
//! wanted the test ends, with the name of the case.
use fr_script::{MemSink, MemSource, run};
use fr_shape::Items;
use std::alloc::Global;
use std::process::Abort;

/// How many bytes a source or a sink moves at most where nothing else is said.
pub const PIECE: usize = 4096;

/// These parts behind one another, each so many times.
fn repeated(rt: &impl Abort, alloc: Global, parts: &[(&str, usize)]) -> String {
    let mut text = String::new(alloc);
    for (part, count) in parts {
        for _ in 0..*count {
            if text.push_str(*part).is_err() {
                panic!(rt; "no memory");
            }
        }
    }
    text
}

/// The one line of a report that is laid out over lines.
fn unfolded(rt: &impl Abort, alloc: Global, report: &str) -> String {
    let mut line = String::new(alloc);
    for part in report.lines() {
        if line.push_str(part.trim_start()).is_err() {
            panic!(rt; "no memory");
        }
    }
    if line.push_str("\n").is_err() {
        panic!(rt; "no memory");
    }
    line
}

/// The words of a command line.
fn words_of(rt: &impl Abort, alloc: Global, line: &str) -> Vec<String> {
    let mut words = Vec::new(alloc);
    for word in line.split(' ') {
        let Ok(word) = String::from_str(alloc, word) else {
            panic!(rt; "no memory");
        };
        let pushed = words.push(word);
        assert!(rt; pushed.is_ok());
    }
    words
}

/// This number alone.
fn only(rt: &impl Abort, alloc: Global, number: u64) -> Items<u64> {
    match vec![in alloc; number] {
        Ok(numbers) => Items::from_vec(numbers),
        Err(_) => panic!(rt; "no memory"),
    }
}

/// Ends the test where a run of these words ends with another status, or something else is written.
/// Of the source and of the sink the call of this number fails, none where it is 0; the sink takes
/// at most `piece` bytes a call.
pub fn check_run(
    rt: &(impl Abort + AllocGlobal),
    (name, words): (&str, &str),
    input: &[u8],
    (source_fails, piece, sink_fails): (u64, usize, u64),
    (status, want): (u8, &str),
) {
    let alloc = rt.alloc();
    let Ok(bytes) = input.to_vec(alloc) else {
        panic!(rt; "no memory");
    };
    let words = words_of(rt, alloc, words);
    assert!(rt; 0 < piece);
    let fails = only(rt, alloc, source_fails);
    let mut source = MemSource::new(Items::from_vec(bytes), PIECE, fails);
    let mut sink = MemSink::new(alloc, piece, only(rt, alloc, sink_fails));
    let ended = run(alloc, words.as_slice(), &mut source, &mut sink);
    assert!(rt;
        ended == status && sink.taken() == want.as_bytes(),
        "{name}"
    );
}

/// The same of a document under a word. `want` may lay the report out over lines.
pub fn check_report(
    rt: &(impl Abort + AllocGlobal),
    (name, word): (&str, &str),
    document: &str,
    (status, want): (u8, &str),
) {
    let line = unfolded(rt, rt.alloc(), want);
    let input = document.as_bytes();
    check_run(
        rt,
        (name, word),
        input,
        (0, PIECE, 0),
        (status, line.as_str()),
    );
}

/// The same of `build`, where the document and the report are made of parts.
pub fn check_parts(
    rt: &(impl Abort + AllocGlobal),
    name: &str,
    document: &[(&str, usize)],
    status: u8,
    want: &[(&str, usize)],
) {
    let document = repeated(rt, rt.alloc(), document);
    let want = repeated(rt, rt.alloc(), want);
    check_report(
        rt,
        (name, "build"),
        document.as_str(),
        (status, want.as_str()),
    );
}

/// Checks so many cases over a table of shapes: of each a line `# NAME`, the rest of the document,
/// and behind `= ` the status and the report.
fn check_each(rt: &(impl Abort + AllocGlobal), shapes: &str, count: usize, cases: &str) {
    let mut found = 0usize;
    for case in cases.split("\n    # ") {
        let Some((name, case)) = case.split_once('\n') else {
            continue;
        };
        let Some((rest, answer)) = case.split_once("\n    = ") else {
            panic!(rt; "a case without an answer");
        };
        let (status, report) = match answer.split_once(' ') {
            Some(("0", report)) => (0, report),
            Some(("1", report)) => (1, report),
            Some(("2", report)) => (2, report),
            _ => panic!(rt; "a case without a status"),
        };
        check_parts(rt, name, &[(shapes, 1), (rest, 1)], status, &[(report, 1)]);
        found = found.saturating_add(1);
    }
    assert!(rt; found == count);
}

/// The same over several tables of shapes.
pub fn check_tables(rt: &(impl Abort + AllocGlobal), tables: &[(&str, usize, &str)]) {
    for (shapes, count, cases) in tables {
        check_each(rt, *shapes, *count, *cases);
    }
}
