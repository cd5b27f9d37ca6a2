//! Validators of fields: a place by itself, with ample memory.
ghost use Rattle.std.specs.Prelude.{◌≡◌, ◌<◌, length};
ghost use Rattle.fr_shape.specs.Fills.{is_empty_struct};
ghost use Rattle.fr_shape.specs.Look.{def_of};
ghost use Rattle.fr_frame.specs.Completing.{shape_of};

use crate::texts::{planned, table_of};
use fr_frame::{FrameOwner, Slots, Tracker};
use fr_plan::{NodeId, TypePlanCore};
use fr_shape::{FieldRef, NoHooks, ReflectErrorKind, ShapeTable, Text, Value};
use std::alloc::Global;
use std::process::Abort;

/// A number and a struct with one of them, which is at least 5 and takes the default 7.
const RECORD: &str = r#"[{"name":"u64","def":"u64"},{"name":"Record","def":{"struct":[
    {"name":"v","shape":0,"default":{"custom":7},"validators":[{"min":5}]}
]}}]"#;

#[test]
fn a_field_takes_its_default(rt: HostRuntime) {
    let table = table_of(&rt, rt.alloc(), RECORD);
    let plan = planned(&rt, rt.alloc(), &table);
    let mut slots = Slots::new(rt.alloc());
    let Ok(id) = slots.enter(&table, &plan, plan.root_id(), FrameOwner::Root) else {
        panic!(&rt; "no memory");
    };
    let outcome = id.complete_by_defaults(&mut slots, &table, &plan, &NoHooks);
    assert!(&rt; outcome.is_ok());
}

/// Whether the shape of a plan's node is a struct without fields.
fn is_empty(table: &ShapeTable, plan: &TypePlanCore, node: NodeId) -> bool
    requires { node.0 < length plan.now.nodes }
    ensures { result ≡ is_empty_struct (def_of table.now (shape_of plan.now node)) }
{
    match table.get(plan.node(node).shape) {
        Some(shape) => shape.def.is_empty_struct(),
        None => false,
    }
}

/// What running the validators of the struct ends in whose field is there with this value.
fn validated(rt: &impl Abort, alloc: Global, value: u128) -> Result<(), ReflectErrorKind> {
    let table = table_of(rt, alloc, RECORD);
    let plan = planned(rt, alloc, &table);
    let mut slots = Slots::new(alloc);
    let Ok(id) = slots.enter(&table, &plan, plan.root_id(), FrameOwner::Root) else {
        panic!(rt; "no memory");
    };
    if is_empty(&table, &plan, plan.root_id()) {
        panic!(rt; "no field");
    }
    if id.begin(&mut slots, Tracker::Fields(None), 1).is_err() {
        panic!(rt; "no memory");
    }
    id.put_child(&mut slots, 0, Value::Nat(value));
    id.run_validators(&slots, &plan, &NoHooks)
}

/// The field of which a value was refused, and what is said of it.
fn refused(rt: &impl Abort, outcome: Result<(), ReflectErrorKind>) -> (FieldRef, Text) {
    match outcome {
        Err(ReflectErrorKind::ValidationFailed { field, message }) => (field, message),
        _ => panic!(rt; "not refused by a validator"),
    }
}

#[test]
fn a_value_that_fails_is_refused(rt: HostRuntime) {
    let (field, message) = refused(&rt, validated(&rt, rt.alloc(), 1));
    assert!(&rt; field.shape.0 == 1 && field.variant.is_none() && field.index == 0);
    assert!(&rt; message.as_str() == "must be >= 5, got 1");
}
