//! Calls of a builder, each told by a word.
use super::bench::{
    Answer, Bench, Refused, answer_to, check_counts, check_value, done, finished, shaped,
};
use fr_shape::{ReflectErrorKind, Value};
use std::process::Abort;

/// The words of a row, of which each is told in its turn.
#[derive(Drop)]
pub struct Words<'a> {
    pub rest: &'a str,
}

impl<'a> Words<'a> {
    pub fn next(&mut self) -> Option<&'a str> {
        let rest = self.rest.trim_start();
        if rest.is_empty() {
            return None;
        }
        match rest.split_once(' ') {
            Some((word, rest)) => {
                self.rest = rest;
                Some(word)
            }
            None => {
                self.rest = "";
                Some(rest)
            }
        }
    }
}

/// A word, and what stands in it behind a colon.
fn parted(word: &str) -> (&str, &str) {
    match word.split_once(':') {
        Some(parts) => parts,
        None => (word, ""),
    }
}

/// What a row has before this and behind it.
pub fn cut<'a>(rt: &impl Abort, row: &'a str, at: &str) -> (&'a str, &'a str) {
    match row.split_once(at) {
        Some((before, behind)) => (before.trim(), behind.trim()),
        None => panic!(rt; "a row that ends early: {row}"),
    }
}

/// The number that is given in a word.
pub fn number(rt: &impl Abort, given: &str) -> u32 {
    match given.parse::<u32>() {
        Ok(number) => number,
        Err(_) => panic!(rt; "no number: {given}"),
    }
}

impl<'t> Bench<'t> {
    /// Puts a number of the first shape.
    fn put_number(self, rt: &impl Abort, n: u32) -> Answer<'t> {
        let number = shaped(rt, &self.partial, 0, Value::Nat(u128::from(n)));
        answer_to!(self, set_shape(number))
    }

    /// The call that a word tells.
    fn called(self, rt: &impl Abort, word: &str) -> Answer<'t> {
        let (call, given) = parted(word);
        match call {
            "f" => answer_to!(self, begin_field(given)),
            "n" => answer_to!(self, begin_nth_field(number(rt, given) as usize)),
            "v" => answer_to!(self, select_nth_variant(number(rt, given) as usize)),
            "num" => self.put_number(rt, number(rt, given)),
            "def" => answer_to!(self, set_default()),
            "parse" => answer_to!(self, parse_from_str(given)),
            "bytes" => answer_to!(self, parse_from_bytes(given.as_bytes())),
            "list" => answer_to!(self, init_list()),
            "map" => answer_to!(self, init_map()),
            "set" => answer_to!(self, init_set()),
            "arr" => answer_to!(self, init_array()),
            "item" => answer_to!(self, begin_list_item()),
            "some" => answer_to!(self, begin_some()),
            "ok" => answer_to!(self, begin_ok()),
            "err" => answer_to!(self, begin_err()),
            "ptr" => answer_to!(self, begin_smart_ptr()),
            "proxy" => answer_to!(self, begin_custom_deserialization()),
            "e" => answer_to!(self, end()),
            "bd" => answer_to!(self, begin_deferred()),
            "fd" => answer_to!(self, finish_deferred()),
            _ => panic!(rt; "no call: {word}"),
        }
    }
}

/// The builder after these calls, up to the first that is refused.
fn made<'t>(rt: &impl Abort, mut bench: Bench<'t>, calls: &str) -> Answer<'t> {
    let mut words = Words { rest: calls };
    for _word in 0..calls.len() {
        let Some(word) = words.next() else {
            break;
        };
        match bench.called(rt, word) {
            Ok(after) => bench = after,
            Err(refused) => return Err(refused),
        }
    }
    Ok(bench)
}

/// The builder after these calls, of which none is refused.
pub fn after<'t>(rt: &impl Abort, bench: Bench<'t>, calls: &str) -> Bench<'t> {
    done(rt, made(rt, bench, calls))
}

/// The builder after these calls so many times, of which none is refused.
pub fn repeated<'t>(rt: &impl Abort, mut bench: Bench<'t>, calls: &str, times: u32) -> Bench<'t> {
    for _time in 0..times {
        bench = after(rt, bench, calls);
    }
    bench
}

/// A refusal as its text says it, or in a word.
fn name_of(kind: &ReflectErrorKind) -> &str {
    match kind {
        ReflectErrorKind::OperationFailed { operation, .. } => operation.text(),
        ReflectErrorKind::InvariantViolation { invariant } => invariant.text(),
        ReflectErrorKind::ValidationFailed { message, .. } => message.as_str(),
        ReflectErrorKind::ParseFailed { .. } => "ParseFailed",
        ReflectErrorKind::OutOfMemory => "OutOfMemory",
        _ => "another refusal",
    }
}

/// Ends the test where these calls and the build behind them come to something else than this value
/// or this refusal, or the ledger's token was released another number of times.
pub fn check_calls(
    rt: &(impl Abort + AllocGlobal),
    bench: Bench<'_>,
    calls: &str,
    want: &str,
    released: u32,
) {
    let outcome = match made(rt, bench, calls) {
        Ok(bench) => finished(bench),
        Err(refused) => Err(refused),
    };
    match outcome {
        Ok((built, ledger)) => {
            check_counts(rt, &ledger, &[released]);
            check_value(rt, rt.alloc(), built.value(), want);
        }
        Err(Refused { error, ledger }) => {
            check_counts(rt, &ledger, &[released]);
            assert!(rt; name_of(&error.kind) == want, "{calls}");
        }
    }
}
