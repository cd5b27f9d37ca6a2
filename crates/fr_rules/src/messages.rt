//! What is said of a value that fails its field's validator.
ghost use Rattle.std.specs.Prelude.{◌≡◌, IfOk, string_bytes};
ghost use Rattle.fr_shape.specs.View.{view};
ghost use Rattle.fr_shape.specs.Validators.{integer_in, number_text, message};
ghost use Rattle.fr_rules.specs.Validators.{validator_of};

use crate::ValidatorKind;
use crate::numbers::{Number, integer_in};
use crate::validators::text_in;
use fr_shape::{OutOfMemory, Text, Value};
use std::alloc::{AllocError, Global};

/// What is said where the value fails.
pub(crate) fn message(
    alloc: Global,
    kind: &ValidatorKind,
    value: &Value,
) -> Result<Text, OutOfMemory>
    ensures { IfOk result (λ said. said ≡ message (validator_of kind.now) (view value.now)) }
{
    let said = words(alloc, kind, value)?;
    Text::new(alloc, said.as_str())
}

fn words(alloc: Global, kind: &ValidatorKind, value: &Value) -> Result<String, AllocError>
    ensures { IfOk result (λ said. string_bytes said
        ≡ message (validator_of kind.now) (view value.now)) }
{
    let text = text_in(value);
    let len = text.len();
    match kind {
        ValidatorKind::Custom(_) => String::from_str(alloc, "custom validation failed"),
        ValidatorKind::Min(low, _) => {
            let got = number_text(alloc, value)?;
            format!(in alloc; "must be >= {low}, got {got}")
        }
        ValidatorKind::Max(high, _) => {
            let got = number_text(alloc, value)?;
            format!(in alloc; "must be <= {high}, got {got}")
        }
        ValidatorKind::MinLength(low, _) => {
            format!(in alloc; "length must be >= {low}, got {len}")
        }
        ValidatorKind::MaxLength(high, _) => {
            format!(in alloc; "length must be <= {high}, got {len}")
        }
        ValidatorKind::Url(_) => format!(in alloc; "'{text}' is not a valid URL"),
        ValidatorKind::Regex(pattern, _) => {
            let pattern = pattern.as_str();
            format!(in alloc; "'{text}' does not match pattern '{pattern}'")
        }
        ValidatorKind::Contains(needle, _) => {
            let needle = needle.as_str();
            format!(in alloc; "'{text}' does not contain '{needle}'")
        }
    }
}

/// The number that a value is, in decimal digits; of any other value nothing.
fn number_text(alloc: Global, value: &Value) -> Result<String, AllocError>
    ensures { IfOk result (λ digits. string_bytes digits
        ≡ number_text (integer_in (view value.now))) }
{
    match integer_in(value) {
        Some(Number::Int(z)) => format!(in alloc; "{z}"),
        Some(Number::Nat(n)) => format!(in alloc; "{n}"),
        None => Ok(String::new(alloc)),
    }
}
