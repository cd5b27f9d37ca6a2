//! Marking the tokens that a script brings.
ghost use Rattle.std.specs.Prelude.{[], ◌∷◌};
ghost use Rattle.fr_model.specs.Commands.{call_of};
ghost use Rattle.fr_shape.specs.Tokens.{tokens, vals_tokens, entries_tokens};
ghost use Rattle.fr_shape.specs.View.{view, vals_view, entries_view};
ghost use Rattle.fr_script.specs.Marks.{marked_by, tokens_marked, Marks};

use fr_model::Command;
use fr_shape::{Items, ShapeTable, Value, fits};

/// Marks the tokens that a command brings. False where it isn't valid: its value's shape isn't in
/// the table, the value doesn't fit it, or a token can't be marked.
pub fn mark_command(table: &ShapeTable, command: &Command, marks: &mut [bool]) -> bool
    ensures { Marks (marked_by table.now (call_of command.now) marks.old) result marks.new }
{
    match command {
        Command::Set(shape, value) => {
            (shape.0 as usize) < table.len()
                && fits(table, *shape, value)
                && mark_value(value, marks)
        }
        _ => true,
    }
}

/// Marks a token. False where there is no such token, or it was marked before.
fn mark_token(token: u32, marks: &mut [bool]) -> bool
    ensures { Marks (tokens_marked (token ∷ []) marks.old) result marks.new }
{
    let token = token as usize;
    if token >= marks.len() || marks[token] {
        return false;
    }
    marks[token] = true;
    true
}

/// Marks the tokens of a value from left to right, up to the first that can't be marked.
#[cycle(marking)]
fn mark_value(v: &Value, marks: &mut [bool]) -> bool
    ensures { Marks (tokens_marked (tokens (view v.now)) marks.old) result marks.new }
{
    match v {
        Value::Token(token) => mark_token(*token, marks),
        Value::Product(values) => mark_values(values, marks),
        Value::Variant(_, values) => mark_values(values, marks),
        Value::Some(inner) => mark_value(inner, marks),
        Value::Ok(inner) => mark_value(inner, marks),
        Value::Err(inner) => mark_value(inner, marks),
        Value::List(values) => mark_values(values, marks),
        Value::Map(entries) => mark_entries(entries, marks),
        Value::Set(values) => mark_values(values, marks),
        Value::Ptr(inner) => mark_value(inner, marks),
        Value::Unit
        | Value::Bool(_)
        | Value::Char(_)
        | Value::Int(_)
        | Value::Nat(_)
        | Value::Text(_)
        | Value::None
        | Value::Dyn(_) => true,
    }
}

#[cycle(marking)]
fn mark_values(values: &Items<Value>, marks: &mut [bool]) -> bool
    ensures { Marks (tokens_marked (vals_tokens (vals_view values.now)) marks.old) result marks.new }
{
    for value in values.as_slice() {
        if !mark_value(value, marks) {
            return false;
        }
    }
    true
}

#[cycle(marking)]
fn mark_entries(entries: &Items<(Value, Value)>, marks: &mut [bool]) -> bool
    ensures { Marks (tokens_marked (entries_tokens (entries_view entries.now)) marks.old) result
        marks.new }
{
    for entry in entries.as_slice() {
        if !mark_value(&entry.0, marks) {
            return false;
        }
        if !mark_value(&entry.1, marks) {
            return false;
        }
    }
    true
}
