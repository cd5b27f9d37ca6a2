//! Whole documents, run from their texts to their reports. Where a run ends otherwise than is
//! wanted the test ends, with the name of the case.
use fr_script::{MemSink, MemSource, run};
use fr_shape::Items;
use std::alloc::Global;
use std::process::Abort;

const PIECE: usize = 4096;

/// These parts behind one another.
pub fn joined(rt: &impl Abort, alloc: Global, parts: &[&str]) -> String {
    let mut text = String::new(alloc);
    for part in parts {
        if text.push_str(*part).is_err() {
            panic!(rt; "no memory");
        }
    }
    text
}

/// The one line of a report that is laid out over lines.
fn unfolded(rt: &impl Abort, alloc: Global, report: &str) -> String {
    let mut line = String::new(alloc);
    for part in report.lines() {
        if line.push_str(part.trim_start()).is_err() {
            panic!(rt; "no memory");
        }
    }
    joined(rt, alloc, &[line.as_str(), "\n"])
}

/// Ends the test where the word `build` ends with another status on a document of these parts, or
/// writes another report, which `want` may lay out over lines.
pub fn check_report(
    rt: &(impl Abort + AllocGlobal),
    name: &str,
    document: &[&str],
    status: u8,
    want: &str,
) {
    let alloc = rt.alloc();
    let document = joined(rt, alloc, document);
    let Ok(input) = document.as_bytes().to_vec(alloc) else {
        panic!(rt; "no memory");
    };
    let Ok(word) = String::from_str(alloc, "build") else {
        panic!(rt; "no memory");
    };
    let Ok(words) = vec![in alloc; word] else {
        panic!(rt; "no memory");
    };
    let mut source = MemSource::new(Items::from_vec(input), PIECE, Items::new(alloc));
    let mut sink = MemSink::new(alloc, PIECE, Items::new(alloc));
    let ended = run(alloc, words.as_slice(), &mut source, &mut sink);
    let line = unfolded(rt, alloc, want);
    assert!(rt;
        ended == status && sink.taken() == line.as_bytes(),
        "{name}"
    );
}

/// Checks so many cases over a table of shapes: of each a line `# NAME`, the rest of the document,
/// and behind `= ` the status and the report.
fn check_each(rt: &(impl Abort + AllocGlobal), shapes: &str, count: usize, cases: &str) {
    let mut found = 0usize;
    for case in cases.split("\n    # ") {
        let Some((name, case)) = case.split_once('\n') else {
            continue;
        };
        let Some((rest, answer)) = case.split_once("\n    = ") else {
            panic!(rt; "a case without an answer");
        };
        let (status, report) = match answer.split_once(' ') {
            Some(("0", report)) => (0, report),
            Some(("1", report)) => (1, report),
            Some(("2", report)) => (2, report),
            _ => panic!(rt; "a case without a status"),
        };
        check_report(rt, name, &[shapes, rest], status, report);
        found = found.saturating_add(1);
    }
    assert!(rt; found == count);
}

/// The same over several tables of shapes.
pub fn check_tables(rt: &(impl Abort + AllocGlobal), tables: &[(&str, usize, &str)]) {
    for (shapes, count, cases) in tables {
        check_each(rt, *shapes, *count, *cases);
    }
}
