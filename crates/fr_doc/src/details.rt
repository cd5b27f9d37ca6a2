//! The detail of an error: what its kind alone doesn't tell.
ghost use Rattle.std.specs.Prelude.{◌≡◌, string_bytes, IfOk};
ghost use Rattle.fr_doc.specs.Details.{name_in, field_name_in, expected_name, reason_text, conversion_message, expected_and_actual, detail_text};

use fr_shape::{Expected, FieldRef, Reason, ReflectErrorKind, ShapeId, ShapeTable, TryFromFault};
use std::alloc::{AllocError, Global};

/// The detail of an error, in words. The table is that of the type on which the builder worked.
pub fn detail_of(
    alloc: Global,
    table: &ShapeTable,
    kind: &ReflectErrorKind,
) -> Result<String, AllocError>
    ensures detail { IfOk result (λ text. string_bytes text ≡ detail_text table.now kind.now) }
{
    match kind {
        ReflectErrorKind::Alloc(error) => String::from_str(alloc, error.operation.text()),
        ReflectErrorKind::WasNotA { expected, actual } => {
            let actual = name_of_shape(table, *actual);
            expected_and_actual(alloc, name_of_expected(*expected), actual)
        }
        ReflectErrorKind::OperationFailed { operation, .. } => {
            String::from_str(alloc, operation.text())
        }
        ReflectErrorKind::UnexpectedTracker { call, .. } => String::from_str(alloc, call.text()),
        ReflectErrorKind::WrongShape { expected, actual } => {
            let actual = name_of_shape(table, *actual);
            expected_and_actual(alloc, name_of_shape(table, *expected), actual)
        }
        ReflectErrorKind::FieldError { .. } => String::from_str(alloc, "no such field"),
        ReflectErrorKind::UninitializedField { field } => {
            String::from_str(alloc, name_of_field(table, *field))
        }
        ReflectErrorKind::UninitializedValue { shape }
        | ReflectErrorKind::DefaultAttrButNoDefaultImpl { shape }
        | ReflectErrorKind::ParseFailed { shape } => {
            String::from_str(alloc, name_of_shape(table, *shape))
        }
        ReflectErrorKind::ValidationFailed { message, .. }
        | ReflectErrorKind::CustomDeserializationError { message, .. } => {
            String::from_str(alloc, message.as_str())
        }
        ReflectErrorKind::TryFromError { inner, .. } => String::from_str(alloc, message_of(inner)),
        ReflectErrorKind::InvariantViolation { invariant } => {
            String::from_str(alloc, invariant.text())
        }
        ReflectErrorKind::InvalidOperation { reason } => {
            String::from_str(alloc, text_of_reason(*reason))
        }
        ReflectErrorKind::OutOfMemory => String::from_str(alloc, "out of memory"),
    }
}

/// The name of a shape; empty where the table has none of that number.
pub fn name_of_shape(table: &ShapeTable, id: ShapeId) -> &str
    ensures name { result.now ≡ name_in table.now id.0 }
{
    match table.get(id) {
        Some(shape) => shape.name.as_str(),
        None => "",
    }
}

/// The name that a field is declared under; empty where the table has no such field.
fn name_of_field(table: &ShapeTable, meant: FieldRef) -> &str
    ensures { result.now ≡ field_name_in table.now meant }
{
    match table.field(meant) {
        Some(field) => field.name.as_str(),
        None => "",
    }
}

fn name_of_expected(expected: Expected) -> &'static str
    ensures { result.now ≡ expected_name expected }
{
    match expected {
        Expected::Enum => "enum",
        Expected::Option => "Option",
        Expected::Result => "Result",
    }
}

fn text_of_reason(reason: Reason) -> &'static str
    ensures { result.now ≡ reason_text reason }
{
    match reason {
        Reason::NoSuchField => "no such field",
        Reason::NotAProduct => "not a struct, enum, option or result",
    }
}

/// The message of a failed conversion; empty where such a source isn't taken.
fn message_of(fault: &TryFromFault) -> &str
    ensures { result.now ≡ conversion_message fault.now }
{
    match fault {
        TryFromFault::UnsupportedSourceType => "",
        TryFromFault::Generic(message) => message.as_str(),
    }
}

fn expected_and_actual(alloc: Global, expected: &str, actual: &str) -> Result<String, AllocError>
    ensures { IfOk result (λ text. string_bytes text
        ≡ expected_and_actual expected.now actual.now) }
{
    format!(in alloc; "expected {expected}, got {actual}")
}
