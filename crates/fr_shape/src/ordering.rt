//! The order of values.
ghost use Rattle.std.specs.Prelude.{◌≡◌};
ghost use Rattle.std.specs.Cmp.{IsTotalOrder};
ghost use Rattle.std.specs.Ordering.{is_eq};
ghost use Rattle.fr_shape.specs.Val.{Val};
ghost use Rattle.fr_shape.specs.View.{view, vals_view, entries_view, dyn_view, dynamics_view, members_view};
ghost use Rattle.fr_shape.specs.Same.{same};
ghost use Rattle.fr_shape.specs.Compare.{rank, dynamic_rank, by_rank, by_dynamic_rank, compare, compare_all, compare_entries, compare_dynamic, compare_dynamics, compare_members};

use crate::{Dyn, Items, Text, Value};
use std::cmp::Ordering;

/// The order is total, and two values are equal by it exactly where they are `same`.
pub fn law_compare()
    ensures total { IsTotalOrder compare }
    ensures equal { (v w : Val) → same v w ≡ is_eq (compare v w) }
{}

fn rank(v: &Value) -> u8
    ensures { result ≡ rank (view v.now) }
{
    match v {
        Value::Unit => 0,
        Value::Bool(_) => 1,
        Value::Char(_) => 2,
        Value::Int(_) => 3,
        Value::Nat(_) => 4,
        Value::Text(_) => 5,
        Value::Token(_) => 6,
        Value::Product(_) => 7,
        Value::Variant(_, _) => 8,
        Value::None => 9,
        Value::Some(_) => 10,
        Value::Ok(_) => 11,
        Value::Err(_) => 12,
        Value::List(_) => 13,
        Value::Map(_) => 14,
        Value::Set(_) => 15,
        Value::Ptr(_) => 16,
        Value::Dyn(_) => 17,
    }
}

#[tactic(auto, unfolding(crate::specs::Compare::by_rank))]
fn compare_forms(a: &Value, b: &Value) -> Ordering
    ensures { result ≡ by_rank (view a.now) (view b.now) }
{
    rank(a).cmp(&rank(b))
}

fn dynamic_rank(d: &Dyn) -> u8
    ensures { result ≡ dynamic_rank (dyn_view d.now) }
{
    match d {
        Dyn::Null => 0,
        Dyn::Bool(_) => 1,
        Dyn::Int(_) => 2,
        Dyn::Nat(_) => 3,
        Dyn::Text(_) => 4,
        Dyn::Bytes(_) => 5,
        Dyn::Array(_) => 6,
        Dyn::Object(_) => 7,
    }
}

#[tactic(auto, unfolding(crate::specs::Compare::by_dynamic_rank))]
fn compare_dynamic_forms(a: &Dyn, b: &Dyn) -> Ordering
    ensures { result ≡ by_dynamic_rank (dyn_view a.now) (dyn_view b.now) }
{
    dynamic_rank(a).cmp(&dynamic_rank(b))
}

/// Which of two values stands first. Any two tokens are equal; sets and maps are compared in their
/// order.
#[cycle(ordering)]
pub fn compare(a: &Value, b: &Value) -> Ordering
    ensures order { result ≡ compare (view a.now) (view b.now) }
{
    match (a, b) {
        (Value::Unit, Value::Unit) => Ordering::Equal,
        (Value::Bool(a), Value::Bool(b)) => a.cmp(b),
        (Value::Char(a), Value::Char(b)) => a.cmp(b),
        (Value::Int(a), Value::Int(b)) => a.cmp(b),
        (Value::Nat(a), Value::Nat(b)) => a.cmp(b),
        (Value::Text(a), Value::Text(b)) => a.as_str().cmp(b.as_str()),
        (Value::Token(_), Value::Token(_)) => Ordering::Equal,
        (Value::Product(a), Value::Product(b)) => compare_all(a, b),
        (Value::Variant(i, a), Value::Variant(j, b)) => i.cmp(j).then(compare_all(a, b)),
        (Value::None, Value::None) => Ordering::Equal,
        (Value::Some(a), Value::Some(b)) => compare(a, b),
        (Value::Ok(a), Value::Ok(b)) => compare(a, b),
        (Value::Err(a), Value::Err(b)) => compare(a, b),
        (Value::List(a), Value::List(b)) => compare_all(a, b),
        (Value::Map(a), Value::Map(b)) => compare_entries(a, b),
        (Value::Set(a), Value::Set(b)) => compare_all(a, b),
        (Value::Ptr(a), Value::Ptr(b)) => compare(a, b),
        (Value::Dyn(a), Value::Dyn(b)) => compare_dynamic(a, b),
        _ => compare_forms(a, b),
    }
}

#[cycle(ordering)]
#[tactic(auto, using(crate::proofs::Ordered::all_end))]
fn compare_all(a: &Items<Value>, b: &Items<Value>) -> Ordering
    ensures { result ≡ compare_all (vals_view a.now) (vals_view b.now) }
{
    let left = a.as_slice();
    let right = b.as_slice();
    for i in 0..left.len().min(right.len()) {
        let order = compare(&left[i], &right[i]);
        if order.is_ne() {
            return order;
        }
    }
    left.len().cmp(&right.len())
}

#[cycle(ordering)]
#[tactic(auto, using(crate::proofs::Ordered::entries_end))]
fn compare_entries(a: &Items<(Value, Value)>, b: &Items<(Value, Value)>) -> Ordering
    ensures { result ≡ compare_entries (entries_view a.now) (entries_view b.now) }
{
    let left = a.as_slice();
    let right = b.as_slice();
    for i in 0..left.len().min(right.len()) {
        let (here, there) = (&left[i], &right[i]);
        let order = compare(&here.0, &there.0).then(compare(&here.1, &there.1));
        if order.is_ne() {
            return order;
        }
    }
    left.len().cmp(&right.len())
}

#[cycle(ordering_dynamic)]
fn compare_dynamic(a: &Dyn, b: &Dyn) -> Ordering
    ensures { result ≡ compare_dynamic (dyn_view a.now) (dyn_view b.now) }
{
    match (a, b) {
        (Dyn::Null, Dyn::Null) => Ordering::Equal,
        (Dyn::Bool(a), Dyn::Bool(b)) => a.cmp(b),
        (Dyn::Int(a), Dyn::Int(b)) => a.cmp(b),
        (Dyn::Nat(a), Dyn::Nat(b)) => a.cmp(b),
        (Dyn::Text(a), Dyn::Text(b)) => a.as_str().cmp(b.as_str()),
        (Dyn::Bytes(a), Dyn::Bytes(b)) => a.as_slice().cmp(b.as_slice()),
        (Dyn::Array(a), Dyn::Array(b)) => compare_dynamics(a, b),
        (Dyn::Object(a), Dyn::Object(b)) => compare_members(a, b),
        _ => compare_dynamic_forms(a, b),
    }
}

#[cycle(ordering_dynamic)]
#[tactic(auto, using(crate::proofs::Ordered::dynamics_end))]
fn compare_dynamics(a: &Items<Dyn>, b: &Items<Dyn>) -> Ordering
    ensures { result ≡ compare_dynamics (dynamics_view a.now) (dynamics_view b.now) }
{
    let left = a.as_slice();
    let right = b.as_slice();
    for i in 0..left.len().min(right.len()) {
        let order = compare_dynamic(&left[i], &right[i]);
        if order.is_ne() {
            return order;
        }
    }
    left.len().cmp(&right.len())
}

#[cycle(ordering_dynamic)]
#[tactic(auto, using(crate::proofs::Ordered::members_end))]
fn compare_members(a: &Items<(Text, Dyn)>, b: &Items<(Text, Dyn)>) -> Ordering
    ensures { result ≡ compare_members (members_view a.now) (members_view b.now) }
{
    let left = a.as_slice();
    let right = b.as_slice();
    for i in 0..left.len().min(right.len()) {
        let (here, there) = (&left[i], &right[i]);
        let keys = here.0.as_str().cmp(there.0.as_str());
        let order = keys.then(compare_dynamic(&here.1, &there.1));
        if order.is_ne() {
            return order;
        }
    }
    left.len().cmp(&right.len())
}
