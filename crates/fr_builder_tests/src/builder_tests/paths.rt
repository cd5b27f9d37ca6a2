//! The place that a builder tells of, and one plan for two builders.
ghost use Rattle.std.specs.Prelude.{◌≡◌, ℕ};
ghost use Rattle.fr_partial.specs.Builder.{holds};
ghost use Rattle.fr_work.specs.Starting.{IsPlanFrom};

use super::bench::{check_path, give_up, with_ledger};
use super::calls::{after, check_calls};
use super::grounds::{Ground, ground_of};
use fr_own_hooks::OwnHooks;
use fr_partial::Partial;
use fr_plan::TypePlanCore;
use fr_shape::{ReflectErrorKind, ShapeId};
use std::alloc::Global;
use std::process::Abort;

/// A number; an opaque; a cell of both; a pair of cells; and two numbers with defaults of their own.
const PATHS: &str = r#"{"shapes":[
    {"name":"u32","def":"u32"},
    {"name":"Res","def":"opaque"},
    {"name":"Cell","def":{"struct":[{"name":"a","shape":1},{"name":"k","shape":0}]}},
    {"name":"Pair","def":{"struct":[{"name":"p","shape":2},{"name":"q","shape":2}]}},
    {"name":"Numbers","def":{"struct":[
        {"name":"a","shape":0,"default":{"custom":5}},
        {"name":"b","shape":0,"default":{"custom":6}}
    ]}}
],"root":3,"commands":[]}"#;

/// The plan of a shape of the table.
fn planned(rt: &impl Abort, alloc: Global, ground: &Ground, root: u32) -> TypePlanCore
    ensures { IsPlanFrom ground.now result }
{
    assert!(rt; (root as usize) < ground.table.len());
    match TypePlanCore::from_shape(alloc, &ground.table, ShapeId(root)) {
        Ok(plan) => plan,
        Err(_) => panic!(rt; "not planned"),
    }
}

/// A builder that goes by this plan.
fn lent<'t>(
    rt: &impl Abort,
    alloc: Global,
    ground: &'t Ground,
    plan: &'t TypePlanCore,
) -> Partial<'t, OwnHooks>
    requires plan { IsPlanFrom ground.now plan.now }
    ensures { (t : ℕ) → holds result t ≡ 0 }
{
    match Partial::alloc_with_plan(alloc, &ground.table, plan, &ground.hooks) {
        Ok(partial) => partial,
        Err(_) => panic!(rt; "not begun"),
    }
}

/// The same by the other call.
fn lent_owned<'t>(
    rt: &impl Abort,
    alloc: Global,
    ground: &'t Ground,
    plan: &'t TypePlanCore,
) -> Partial<'t, OwnHooks>
    requires plan { IsPlanFrom ground.now plan.now }
    ensures { (t : ℕ) → holds result t ≡ 0 }
{
    match Partial::alloc_owned_with_plan(alloc, &ground.table, plan, &ground.hooks) {
        Ok(partial) => partial,
        Err(_) => panic!(rt; "not begun"),
    }
}

/// A builder that was begun as an owned one.
fn owned<'t>(rt: &impl Abort, alloc: Global, ground: &'t Ground, root: u32) -> Partial<'t, OwnHooks>
    ensures { (t : ℕ) → holds result t ≡ 0 }
{
    assert!(rt; (root as usize) < ground.table.len());
    match Partial::alloc_shape_owned(alloc, &ground.table, ShapeId(root), &ground.hooks) {
        Ok(partial) => partial,
        Err(_) => panic!(rt; "not begun"),
    }
}

/// In strict mode, and in deferred mode from the root on or from a place beneath it.
#[test]
fn tells_its_place(rt: HostRuntime) {
    let ground = ground_of(&rt, PATHS);
    for calls in ["f:q f:k", "bd f:q f:k", "f:q bd f:k"] {
        let bench = with_ledger(&rt, rt.alloc(), owned(&rt, rt.alloc(), &ground, 3));
        assert!(rt; bench.partial.frame_count() == 1 && !bench.partial.is_deferred());
        let bench = after(&rt, bench, calls);
        assert!(rt; bench.partial.frame_count() == 3);
        assert!(rt;
            bench.partial.shape() == ShapeId(0) && bench.partial.root_shape() == ShapeId(3)
        );
        check_path(&rt, rt.alloc(), bench.partial.path(), &ground, 3, "q.k");
        let kind = ReflectErrorKind::ParseFailed { shape: ShapeId(0) };
        let Ok(error) = bench.partial.err(kind) else {
            panic!(rt; "no memory");
        };
        let ReflectErrorKind::ParseFailed { shape } = error.kind else {
            panic!(rt; "another refusal");
        };
        assert!(rt; shape == ShapeId(0));
        check_path(&rt, rt.alloc(), &error.path, &ground, 3, "q.k");
        give_up(&rt, bench);
    }
}

#[test]
fn builds_twice_over_one_plan(rt: HostRuntime) {
    let alloc = rt.alloc();
    let ground = ground_of(&rt, PATHS);
    let plan = planned(&rt, alloc, &ground, 4);
    let first = with_ledger(&rt, alloc, lent(&rt, alloc, &ground, &plan));
    check_calls(&rt, first, "f:a num:7 e", "[7,6]", 0);
    let second = with_ledger(&rt, alloc, lent_owned(&rt, alloc, &ground, &plan));
    check_calls(&rt, second, "", "[5,6]", 0);
}
