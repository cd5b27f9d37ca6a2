//! Releasing all tokens of a value.
ghost use Rattle.std.specs.Prelude.{◌≡◌, true};
ghost use Rattle.fr_shape.specs.View.{view, vals_view, entries_view};
ghost use Rattle.fr_shape.specs.Tokens.{tokens, vals_tokens, entries_tokens, occurs};
ghost use Rattle.fr_shape.specs.Released.{Room, RoseBy};
ghost use Rattle.fr_shape.specs.InTurn.{can_release, released};

use crate::{Items, Ledger, Value};

/// Records one release of each token of `v`, and drops the value.
#[tactic(auto, using(crate::proofs::InTurn::value_can))]
pub fn release(v: Value, ledger: &mut Ledger)
    requires room { Room (occurs (view v)) ledger.old }
    ensures released { RoseBy (occurs (view v)) ledger.old ledger.new }
{
    release_value(&v, ledger);
}

#[cycle(releasing)]
fn release_value(v: &Value, ledger: &mut Ledger)
    requires can { can_release (tokens (view v.now)) ledger.old ≡ true }
    ensures { ledger.new ≡ released (tokens (view v.now)) ledger.old }
{
    match v {
        Value::Token(token) => ledger.release(*token),
        Value::Product(values) => release_values(values, ledger),
        Value::Variant(_, values) => release_values(values, ledger),
        Value::Some(inner) => release_value(inner, ledger),
        Value::Ok(inner) => release_value(inner, ledger),
        Value::Err(inner) => release_value(inner, ledger),
        Value::List(values) => release_values(values, ledger),
        Value::Map(entries) => release_entries(entries, ledger),
        Value::Set(values) => release_values(values, ledger),
        Value::Ptr(inner) => release_value(inner, ledger),
        Value::Unit
        | Value::Bool(_)
        | Value::Char(_)
        | Value::Int(_)
        | Value::Nat(_)
        | Value::Text(_)
        | Value::None
        | Value::Dyn(_) => {}
    }
}

#[cycle(releasing)]
#[tactic(auto, using(crate::proofs::InTurn::value_can_now))]
fn release_values(values: &Items<Value>, ledger: &mut Ledger)
    requires can { can_release (vals_tokens (vals_view values.now)) ledger.old ≡ true }
    ensures { ledger.new ≡ released (vals_tokens (vals_view values.now)) ledger.old }
{
    for value in values.as_slice() {
        release_value(value, ledger);
    }
}

#[cycle(releasing)]
#[tactic(auto, using(crate::proofs::InTurn::key_can_now, crate::proofs::InTurn::entry_can_now))]
fn release_entries(entries: &Items<(Value, Value)>, ledger: &mut Ledger)
    requires can { can_release (entries_tokens (entries_view entries.now)) ledger.old ≡ true }
    ensures { ledger.new ≡ released (entries_tokens (entries_view entries.now)) ledger.old }
{
    for entry in entries.as_slice() {
        release_value(&entry.0, ledger);
        release_value(&entry.1, ledger);
    }
}
