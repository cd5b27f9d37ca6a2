//! The integers of a value, tested in one pass that takes no memory.
ghost use Rattle.std.specs.Prelude.{◌≡◌, [], ◌∷◌, None, option_map, int_le};
ghost use Rattle.fr_shape.specs.View.{view, vals_view, entries_view};
ghost use Rattle.fr_doc.specs.Integers.{integers, vals_integers, entries_integers, number, is_zero, is_negative, keep, may_follow, last_after};

use fr_shape::{Items, Value};

/// An integer of a value.
#[derive(Clone, Copy)]
pub enum Integer {
    Int(i128),
    Nat(u128),
}

impl Integer {
    fn is_zero(self) -> bool
        ensures { result ≡ is_zero (number self) }
    {
        match self {
            Integer::Int(z) => z == 0,
            Integer::Nat(n) => n == 0,
        }
    }

    fn is_negative(self) -> bool
        ensures { result ≡ is_negative (number self) }
    {
        match self {
            Integer::Int(z) => z < 0,
            Integer::Nat(_) => false,
        }
    }

    fn is_at_most(self, other: Integer) -> bool
        ensures { result ≡ int_le (number self) (number other) }
    {
        match (self, other) {
            (Integer::Int(a), Integer::Int(b)) => a <= b,
            (Integer::Int(a), Integer::Nat(b)) => match u128::try_from(a) {
                Ok(a) => a <= b,
                Err(_) => true,
            },
            (Integer::Nat(a), Integer::Int(b)) => match u128::try_from(b) {
                Ok(b) => a <= b,
                Err(_) => false,
            },
            (Integer::Nat(a), Integer::Nat(b)) => a <= b,
        }
    }
}

/// What is asked of the integers of a value.
#[derive(Clone, Copy)]
pub enum IntegerRule {
    /// None is 0.
    NoZero,
    /// Each is at most the one after it.
    InOrder,
    /// None is below 0.
    NoNegative,
}

/// The last integer of those that a pass has met, if it has met one.
type Last = Option<Integer>;

/// Whether the integers of a value keep the rule.
#[tactic(auto, using(crate::proofs::Passes::kept))]
pub fn integers_keep(rule: IntegerRule, value: &Value) -> bool
    ensures { result ≡ keep rule (integers (view value.now)) }
{
    pass(rule, None, value).is_some()
}

/// Whether the integer may come after the last one.
fn may_follow(rule: IntegerRule, last: Last, next: Integer) -> bool
    ensures { result ≡ may_follow rule (option_map number last) (number next) }
{
    match (rule, last) {
        (IntegerRule::NoZero, _) => !next.is_zero(),
        (IntegerRule::InOrder, None) => true,
        (IntegerRule::InOrder, Some(last)) => last.is_at_most(next),
        (IntegerRule::NoNegative, _) => !next.is_negative(),
    }
}

fn pass_integer(rule: IntegerRule, last: Last, next: Integer) -> Option<Last>
    ensures { option_map (option_map number) result
        ≡ last_after rule (option_map number last) (number next ∷ []) }
{
    if may_follow(rule, last, next) {
        Some(Some(next))
    } else {
        None
    }
}

/// The last integer after those of a value, or None where one of them may not come.
#[cycle(pass)]
fn pass(rule: IntegerRule, last: Last, value: &Value) -> Option<Last>
    ensures { option_map (option_map number) result
        ≡ last_after rule (option_map number last) (integers (view value.now)) }
{
    match value {
        Value::Int(z) => pass_integer(rule, last, Integer::Int(*z)),
        Value::Nat(n) => pass_integer(rule, last, Integer::Nat(*n)),
        Value::Product(values) => pass_values(rule, last, values),
        Value::Variant(_, values) => pass_values(rule, last, values),
        Value::Some(inner) => pass(rule, last, inner),
        Value::Ok(inner) => pass(rule, last, inner),
        Value::Err(inner) => pass(rule, last, inner),
        Value::List(values) => pass_values(rule, last, values),
        Value::Map(entries) => pass_entries(rule, last, entries),
        Value::Set(values) => pass_values(rule, last, values),
        Value::Ptr(inner) => pass(rule, last, inner),
        Value::Unit
        | Value::Bool(_)
        | Value::Char(_)
        | Value::Text(_)
        | Value::Token(_)
        | Value::None
        | Value::Dyn(_) => Some(last),
    }
}

#[cycle(pass)]
fn pass_values(rule: IntegerRule, last: Last, values: &Items<Value>) -> Option<Last>
    ensures { option_map (option_map number) result
        ≡ last_after rule (option_map number last) (vals_integers (vals_view values.now)) }
{
    let mut met = last;
    for value in values.as_slice() {
        met = pass(rule, met, value)?;
    }
    Some(met)
}

#[cycle(pass)]
fn pass_entries(rule: IntegerRule, last: Last, entries: &Items<(Value, Value)>) -> Option<Last>
    ensures { option_map (option_map number) result
        ≡ last_after rule (option_map number last) (entries_integers (entries_view entries.now)) }
{
    let mut met = last;
    for entry in entries.as_slice() {
        met = pass(rule, met, &entry.0)?;
        met = pass(rule, met, &entry.1)?;
    }
    Some(met)
}
