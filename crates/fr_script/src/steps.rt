//! The words that ask for a generated script.
ghost use Rattle.std.specs.Prelude.{◌≡◌, ◌≤◌, IfSome};
ghost use Rattle.fr_script.specs.Steps.{is_plain_numeral, steps_asked, steps_told};

use crate::generating::STEP_LIMIT;

/// The number of steps that is asked for, if it is asked for by `gen` and that number alone.
pub(crate) fn find_steps(words: &[String]) -> Option<u32>
    ensures asked { result ≡ steps_asked words.now }
    ensures few { IfSome result (λ count. count ≤ STEP_LIMIT) }
{
    match words {
        [word, count] => match word.as_str() {
            "gen" => read_steps(count.as_str()),
            _ => None,
        },
        _ => None,
    }
}

/// A number of steps in plain digits, if there may be so many.
fn read_steps(text: &str) -> Option<u32>
    ensures told { result ≡ steps_told text.now }
    ensures few { IfSome result (λ count. count ≤ STEP_LIMIT) }
{
    if !is_plain_numeral(text.as_bytes()) {
        return None;
    }
    match text.parse::<u32>() {
        Ok(count) if count <= STEP_LIMIT => Some(count),
        _ => None,
    }
}

/// Whether a text is one or more of the digits 0 to 9, of which the first isn't 0.
fn is_plain_numeral(text: &[u8]) -> bool
    ensures { result ≡ is_plain_numeral text.now }
{
    for byte in text {
        if !byte.is_ascii_digit() {
            return false;
        }
    }
    match text.first() {
        Some(first) => *first != b'0',
        None => false,
    }
}
