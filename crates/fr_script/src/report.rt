//! The report on an answer.
ghost use Rattle.std.specs.Prelude.{◌≡◌, false, codes, string_bytes, IfOk};
ghost use Rattle.serde_json.specs.Data.{array};
ghost use Rattle.serde_json.specs.View.{view as data_of};
ghost use Rattle.serde_json.specs.Written.{has_float};
ghost use Rattle.fr_script.specs.Answers.{outcome_view, refusal_view};
ghost use Rattle.fr_script.specs.Reports.{outcome_data, report, line_of, kind_name, place_name, size_name, naturals, fault_data, error_object, error_data, with_released};
ghost use Rattle.fr_shape.specs.View.{view};
ghost use Rattle.fr_doc.specs.Printed.{value_data};

use crate::answering::Answer;
use crate::building::ScriptError;
use fr_doc::{DocFault, DocPlace, DocSize, detail_of, json_of, law_printed_float_free};
use fr_shape::{ReflectErrorKind, ShapeId, ShapeTable, Value};
use serde_json::{Value as Json, json};
use std::alloc::{AllocError, Global};

/// The name of a refusal's kind.
fn name_of_kind(kind: &ReflectErrorKind) -> &'static str
    ensures { result.now ≡ kind_name kind.now }
{
    match kind {
        ReflectErrorKind::Alloc(_) => "Alloc",
        ReflectErrorKind::WasNotA { .. } => "WasNotA",
        ReflectErrorKind::OperationFailed { .. } => "OperationFailed",
        ReflectErrorKind::UnexpectedTracker { .. } => "UnexpectedTracker",
        ReflectErrorKind::WrongShape { .. } => "WrongShape",
        ReflectErrorKind::FieldError { .. } => "FieldError",
        ReflectErrorKind::UninitializedField { .. } => "UninitializedField",
        ReflectErrorKind::UninitializedValue { .. } => "UninitializedValue",
        ReflectErrorKind::DefaultAttrButNoDefaultImpl { .. } => "DefaultAttrButNoDefaultImpl",
        ReflectErrorKind::ValidationFailed { .. } => "ValidationFailed",
        ReflectErrorKind::CustomDeserializationError { .. } => "CustomDeserializationError",
        ReflectErrorKind::TryFromError { .. } => "TryFromError",
        ReflectErrorKind::ParseFailed { .. } => "ParseFailed",
        ReflectErrorKind::InvariantViolation { .. } => "InvariantViolation",
        ReflectErrorKind::InvalidOperation { .. } => "InvalidOperation",
        ReflectErrorKind::OutOfMemory => "OutOfMemory",
    }
}

/// The name of a place in a document.
fn name_of_place(alloc: Global, place: &DocPlace) -> Result<String, AllocError>
    ensures { IfOk result (λ name. string_bytes name ≡ place_name place.now) }
{
    match place {
        DocPlace::Document => String::from_str(alloc, "document"),
        DocPlace::Shapes => String::from_str(alloc, "shapes"),
        DocPlace::Shape(i) => format!(in alloc; "shape {i}"),
        DocPlace::Root => String::from_str(alloc, "root"),
        DocPlace::Tokens => String::from_str(alloc, "tokens"),
        DocPlace::Commands => String::from_str(alloc, "commands"),
        DocPlace::Command(i) => format!(in alloc; "command {i}"),
    }
}

fn name_of_size(size: DocSize) -> &'static str
    ensures { result.now ≡ size_name size }
{
    match size {
        DocSize::Shapes => "shapes",
        DocSize::Fields => "fields",
        DocSize::Commands => "commands",
        DocSize::Tokens => "tokens",
        DocSize::Depth => "depth",
    }
}

/// The JSON of a fault.
pub fn json_of_fault(alloc: Global, fault: &DocFault) -> Result<Json, AllocError>
    ensures { IfOk result (λ json. data_of json ≡ fault_data fault.now) }
{
    match fault {
        DocFault::TooLong => json!(in alloc; { "fault": "TooLong" }),
        DocFault::NotJson => json!(in alloc; { "fault": "NotJson" }),
        DocFault::HasFloat => json!(in alloc; { "fault": "HasFloat" }),
        DocFault::BadForm(place) => {
            let name = name_of_place(alloc, place)?;
            json!(in alloc; { "fault": "BadForm", "place": name.as_str() })
        }
        DocFault::TooLarge(size) => {
            let name = name_of_size(*size);
            json!(in alloc; { "fault": "TooLarge", "what": name })
        }
        DocFault::Unchecked(broken) => {
            let (entry, rule) = (broken.entry, broken.rule);
            json!(in alloc; { "entry": entry, "fault": "Unchecked", "rule": rule })
        }
        DocFault::Invalid(command) => {
            let command = *command;
            json!(in alloc; { "command": command, "fault": "Invalid" })
        }
    }
}

/// Numbers as an array.
fn json_of_numbers(alloc: Global, numbers: &[u32]) -> Result<Json, AllocError>
    ensures { IfOk result (λ json. data_of json ≡ array (naturals numbers.now)) }
{
    let mut items = Vec::new(alloc);
    for number in numbers {
        items.push(Json::from(*number))?;
    }
    Ok(Json::Array(items))
}

/// The JSON of a value and the tokens that were released.
fn json_of_built(alloc: Global, value: &Value, released: &[u32]) -> Result<Json, AllocError>
    ensures { IfOk result (λ json. data_of json
        ≡ with_released (codes "ok") (value_data (view value.now)) released.now) }
{
    let Ok(ok) = json_of(alloc, value) else {
        return Err(AllocError);
    };
    let tokens = json_of_numbers(alloc, released)?;
    json!(in alloc; { "ok": ok, "released": tokens })
}

/// The JSON of an error.
pub fn json_of_error(
    alloc: Global,
    command: u32,
    detail: &str,
    kind: &str,
    path: &str,
) -> Result<Json, AllocError>
    ensures { IfOk result (λ json. data_of json
        ≡ error_object command detail.now kind.now path.now) }
{
    json!(in alloc; { "command": command, "detail": detail, "kind": kind, "path": path })
}

/// The JSON of a refusal, its path as the text from this root.
fn json_of_refusal(
    alloc: Global,
    table: &ShapeTable,
    root: ShapeId,
    error: &ScriptError,
) -> Result<Json, AllocError>
    ensures { IfOk result (λ json. data_of json
        ≡ error_data table.now root.0 (refusal_view error.now)) }
{
    let detail = detail_of(alloc, table, &error.kind)?;
    let Ok(path) = error.path.format_with_shape(alloc, table, root) else {
        return Err(AllocError);
    };
    let kind = name_of_kind(&error.kind);
    json_of_error(alloc, error.number, detail.as_str(), kind, path.as_str())
}

/// The JSON of a refusal and the tokens that were released.
fn json_of_refused(
    alloc: Global,
    table: &ShapeTable,
    root: ShapeId,
    error: &ScriptError,
    released: &[u32],
) -> Result<Json, AllocError>
    ensures { IfOk result (λ json. data_of json ≡ with_released (codes "error")
        (error_data table.now root.0 (refusal_view error.now)) released.now) }
{
    let error = json_of_refusal(alloc, table, root, error)?;
    let tokens = json_of_numbers(alloc, released)?;
    json!(in alloc; { "error": error, "released": tokens })
}

/// The JSON of an answer.
fn json_of_answer(
    alloc: Global,
    table: &ShapeTable,
    root: ShapeId,
    answer: &Answer,
) -> Result<Json, AllocError>
    ensures { IfOk result (λ json. data_of json
        ≡ outcome_data table.now root.0 (outcome_view answer.now)) }
{
    match answer {
        Answer::Fault(fault) => json_of_fault(alloc, fault),
        Answer::Built(built, released) => {
            json_of_built(alloc, built.value(), released.as_slice())
        }
        Answer::Refused(error, released) => {
            json_of_refused(alloc, table, root, error, released.as_slice())
        }
    }
}

/// The report on an answer to a script over this table and root: one JSON object and a line feed.
#[tactic(auto, using(crate::proofs::FloatFree::outcome_float_free))]
pub fn report_of(
    alloc: Global,
    table: &ShapeTable,
    root: ShapeId,
    answer: &Answer,
) -> Result<String, AllocError>
    ensures report { IfOk result (λ text.
        string_bytes text ≡ report table.now root.0 (outcome_view answer.now)) }
{
    law_printed_float_free();
    let json = json_of_answer(alloc, table, root, answer)?;
    line_of(alloc, &json)
}

/// The report on a faulty document.
#[tactic(auto, using(crate::proofs::FloatFree::fault_free))]
pub fn report_of_fault(alloc: Global, fault: &DocFault) -> Result<String, AllocError>
    ensures report { IfOk result (λ text. string_bytes text ≡ line_of (fault_data fault.now)) }
{
    let json = json_of_fault(alloc, fault)?;
    line_of(alloc, &json)
}

/// A JSON without floats as compact text, and a line feed.
pub fn line_of(alloc: Global, json: &Json) -> Result<String, AllocError>
    requires { has_float (data_of json.now) ≡ false }
    ensures { IfOk result (λ text. string_bytes text ≡ line_of (data_of json.now)) }
{
    let mut text = json.to_string(alloc)?;
    text.push_str("\n")?;
    Ok(text)
}
