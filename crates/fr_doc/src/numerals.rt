//! Numbers and characters in a document.
ghost use Rattle.std.specs.Prelude.{◌≡◌, ◌↔◌, IsTrue, true};
ghost use Rattle.fr_shape.specs.Parsing.{is_numeral};
ghost use Rattle.fr_doc.specs.Numerals.{without_minus, digits_nat, digits_int, nat_form, int_form, small_int_form, char_form, one_char, length_form, whole_number, byte};
ghost use Rattle.fr_doc.specs.ProxyForms.{id_form, hook_form};
ghost use Rattle.serde_json.specs.View.{view as data_of};

use fr_shape::{HookId, ShapeId};
use serde_json::Value as Json;

/// Whether a text is one or more of the digits 0 to 9.
fn has_digits(text: &[u8]) -> bool
    ensures { result ≡ is_numeral text.now }
{
    for byte in text {
        if !byte.is_ascii_digit() {
            return false;
        }
    }
    !text.is_empty()
}

/// The number that a text's digits write. A number beyond 128 bits is none.
pub fn read_nat(text: &str) -> Option<u128>
    ensures { result ≡ digits_nat text.now }
{
    if has_digits(text.as_bytes()) {
        text.parse::<u128>().ok()
    } else {
        None
    }
}

/// A text without the minus that it begins with, if it does.
fn skip_minus(text: &str) -> &str
    ensures { result.now ≡ without_minus text.now }
{
    match text.strip_prefix('-') {
        Some(rest) => rest,
        None => text,
    }
}

/// The same of a signed number: its digits may follow a minus.
pub fn read_int(text: &str) -> Option<i128>
    ensures { result ≡ digits_int text.now }
{
    if has_digits(skip_minus(text).as_bytes()) {
        text.parse::<i128>().ok()
    } else {
        None
    }
}

/// The character of a text that has no other.
pub fn read_char(text: &str) -> Option<char>
    ensures { result ≡ one_char text.now }
{
    text.parse::<char>().ok()
}

/// A number that is written as a text of digits.
pub fn nat_of(json: &Json) -> Option<u128>
    ensures { result ≡ nat_form (data_of json.now) }
{
    match json {
        Json::String(text) => read_nat(text.as_str()),
        _ => None,
    }
}

/// A signed number, itself or as a text of digits.
pub fn int_of(json: &Json) -> Option<i128>
    ensures { result ≡ int_form (data_of json.now) }
{
    match json {
        Json::Number(number) => number.as_i128(),
        Json::String(text) => read_int(text.as_str()),
        _ => None,
    }
}

/// A text of one character.
pub fn char_of(json: &Json) -> Option<char>
    ensures { result ≡ char_form (data_of json.now) }
{
    match json {
        Json::String(text) => read_char(text.as_str()),
        _ => None,
    }
}

/// A signed number in the range of `i64`.
pub fn small_int_of(json: &Json) -> Option<i64>
    ensures { result ≡ small_int_form (data_of json.now) }
{
    json.as_i64()
}

/// A whole number from 0 to 4294967295.
pub fn count_of(json: &Json) -> Option<u32>
    ensures form { result ≡ whole_number (data_of json.now) }
{
    u32::try_from(json.as_u64()?).ok()
}

/// The number of a shape.
#[tactic(auto, unfolding(crate::specs::ProxyForms::id_form))]
pub fn id_of(json: &Json) -> Option<ShapeId>
    ensures { result ≡ id_form (data_of json.now) }
{
    Some(ShapeId(count_of(json)?))
}

/// The number of a hook.
#[tactic(auto, unfolding(crate::specs::ProxyForms::hook_form))]
pub fn hook_of(json: &Json) -> Option<HookId>
    ensures { result ≡ hook_form (data_of json.now) }
{
    Some(HookId(count_of(json)?))
}

/// A whole number of 64 bits.
pub fn length_of(json: &Json) -> Option<u64>
    ensures { result ≡ length_form (data_of json.now) }
{
    json.as_u64()
}

/// A whole number from 0 to 255.
pub fn byte_of(json: &Json) -> Option<u8>
    ensures { result ≡ byte (data_of json.now) }
{
    u8::try_from(json.as_u64()?).ok()
}
