//! Refusals in words for a user.
use fr_shape::{Expected, FieldRef, Reason, ReflectErrorKind, ShapeId, ShapeTable, TryFromFault};
use std::alloc::AllocError;

/// Writes a refusal in words behind a text, as `not a u16`, `no such field` or `host is missing`.
/// They name the shape or the field that it is about, and not the place.
pub fn write_kind(
    text: &mut String,
    table: &ShapeTable,
    kind: &ReflectErrorKind,
) -> Result<(), AllocError> {
    use ReflectErrorKind as Kind;
    match kind {
        Kind::Alloc(error) => {
            let shape = shape_name(table, error.shape);
            write!(text, "{shape}: {}", error.operation.text())
        }
        Kind::WasNotA { expected, actual } => write_of(text, table, *actual, is_no(*expected)),
        Kind::OperationFailed { operation, .. } => text.push_str(operation.text()),
        Kind::UnexpectedTracker { call, .. } => text.push_str(call.text()),
        Kind::WrongShape { expected, .. } => write_not_a(text, table, *expected),
        Kind::FieldError { .. } => text.push_str("no such field"),
        Kind::UninitializedField { field } => {
            write!(text, "{} is missing", field_name(table, *field))
        }
        Kind::UninitializedValue { shape } => write_of(text, table, *shape, "is missing"),
        Kind::DefaultAttrButNoDefaultImpl { shape } => {
            write_of(text, table, *shape, "has no default")
        }
        Kind::ValidationFailed { field, message } => {
            write!(text, "{}: {}", field_name(table, *field), message.as_str())
        }
        Kind::CustomDeserializationError { message, .. } => text.push_str(message.as_str()),
        Kind::TryFromError {
            dst_shape,
            inner,
            ..
        } => match inner {
            TryFromFault::UnsupportedSourceType => write_not_a(text, table, *dst_shape),
            TryFromFault::Generic(message) => text.push_str(message.as_str()),
        },
        Kind::ParseFailed { shape } => write_not_a(text, table, *shape),
        Kind::InvariantViolation { invariant } => text.push_str(invariant.text()),
        Kind::InvalidOperation { reason } => text.push_str(reason_text(*reason)),
        Kind::OutOfMemory => text.push_str("out of memory"),
    }
}

/// Writes what is so of a shape.
fn write_of(
    text: &mut String,
    table: &ShapeTable,
    shape: ShapeId,
    fact: &str,
) -> Result<(), AllocError> {
    write!(text, "{} {fact}", shape_name(table, shape))
}

/// Writes that there is no value of a shape.
fn write_not_a(text: &mut String, table: &ShapeTable, shape: ShapeId) -> Result<(), AllocError> {
    write!(text, "not a {}", shape_name(table, shape))
}

/// The name of a shape.
fn shape_name(table: &ShapeTable, shape: ShapeId) -> &str {
    match table.get(shape) {
        Some(shape) => shape.name.as_str(),
        None => "?",
    }
}

/// The name that a field was declared with.
fn field_name(table: &ShapeTable, field: FieldRef) -> &str {
    match table.field(field) {
        Some(field) => field.name.as_str(),
        None => "?",
    }
}

/// What a place isn't that would have to be such a one.
fn is_no(expected: Expected) -> &'static str {
    match expected {
        Expected::Enum => "is no enum",
        Expected::Option => "is no option",
        Expected::Result => "is no result",
    }
}

fn reason_text(reason: Reason) -> &'static str {
    match reason {
        Reason::NoSuchField => "no such field",
        Reason::NotAProduct => "no fields",
    }
}
