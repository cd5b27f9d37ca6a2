//! Calls that go by Rust types: each of them with ample memory, and a refusal.
ghost use Rattle.std.specs.Prelude.{◌≡◌, ℕ};
ghost use Rattle.fr_shape.specs.Tokens.{occurs};
ghost use Rattle.fr_shape.specs.View.{view};
ghost use Rattle.fr_work.specs.Starting.{IsPlanFrom};
ghost use Rattle.fr_partial.specs.Typed.{HasShape};

use super::bench::{
    Answer, Bench, Refused, answer_to, built, check_path, check_value, done, fresh, ledger,
    refusal, shaped, start, with_ledger,
};
use super::calls::{after, check_calls};
use super::grounds::{Ground, ground_of};
use fr_own_hooks::OwnHooks;
use fr_partial::{Facet, FacetFault, Opaque, Partial, TypePlan, materialize};
use fr_shape::{Items, ReflectErrorKind, ShapeId, ShapeTable, Value};
use std::alloc::Global;
use std::process::Abort;

/// A number; an opaque; a text; a list, a map and a set of numbers; a struct of two numbers; and the
/// root, with a field of each of the last five.
const TYPED: &str = r#"{"shapes":[
    {"name":"u32","def":"u32"},
    {"name":"Res","def":"opaque"},
    {"name":"String","def":"String"},
    {"name":"Nums","def":{"list":0}},
    {"name":"Map","def":{"map":[2,0]}},
    {"name":"Set","def":{"set":0}},
    {"name":"Point","def":{"struct":[{"name":"x","shape":0},{"name":"y","shape":0}]}},
    {"name":"Root","def":{"struct":[
        {"name":"text","shape":2},
        {"name":"nums","shape":3},
        {"name":"map","shape":4},
        {"name":"set","shape":5},
        {"name":"point","shape":6}
    ]}}
],"root":7,"commands":[]}"#;

/// Ends the test where the table has no shape of the type.
fn check_shape<U: Facet>(rt: &impl Abort, table: &ShapeTable)
    ensures { HasShape U.is_own table.now }
{
    assert!(rt; U::find(table).is_some());
}

/// A text of the program's own.
fn text(rt: &impl Abort, alloc: Global, letters: &str) -> String {
    match String::from_str(alloc, letters) {
        Ok(text) => text,
        Err(_) => panic!(rt; "no memory"),
    }
}

/// A call that is given a value of a Rust type.
enum Typed<'k> {
    Set,
    NthField(usize),
    Field(&'k str),
    Key,
    Value,
    ListItem,
    SetItem,
}

impl<'t> Bench<'t> {
    /// A call of a value without tokens.
    fn typed<U: Facet>(self, rt: &impl Abort, call: Typed<'_>, value: U) -> Answer<'t>
        requires { (t : ℕ) → occurs (U.shown value) t ≡ 0 }
    {
        check_shape::<U>(rt, self.partial.table());
        match call {
            Typed::Set => answer_to!(self, set(value)),
            Typed::NthField(i) => answer_to!(self, set_nth_field(i, value)),
            Typed::Field(name) => answer_to!(self, set_field(name, value)),
            Typed::Key => answer_to!(self, set_key(value)),
            Typed::Value => answer_to!(self, set_value(value)),
            Typed::ListItem => answer_to!(self, push(value)),
            Typed::SetItem => answer_to!(self, insert(value)),
        }
    }

    /// `set_from_peek` of a number, whose shape is the first.
    fn set_from_peek(self, rt: &impl Abort, n: u128) -> Answer<'t> {
        let number = shaped(rt, &self.partial, 0, Value::Nat(n));
        answer_to!(self, set_from_peek(number))
    }

    /// `set_from_function`, of a function that returns a number.
    fn set_from_function(self, rt: &impl Abort, n: u128) -> Answer<'t> {
        let number = shaped(rt, &self.partial, 0, Value::Nat(n));
        answer_to!(self, set_from_function(move || Ok(number)))
    }
}

/// A builder of the type, beside a ledger of one token.
fn start_as<'t, T: Facet>(rt: &impl Abort, alloc: Global, ground: &'t Ground) -> Bench<'t> {
    check_shape::<T>(rt, &ground.table);
    match Partial::alloc::<T>(alloc, &ground.table, &ground.hooks) {
        Ok(partial) => with_ledger(rt, alloc, partial),
        Err(_) => panic!(rt; "not begun"),
    }
}

/// The same by the other call.
fn start_owned_as<'t, T: Facet>(rt: &impl Abort, alloc: Global, ground: &'t Ground) -> Bench<'t> {
    check_shape::<T>(rt, &ground.table);
    match Partial::alloc_owned::<T>(alloc, &ground.table, &ground.hooks) {
        Ok(partial) => with_ledger(rt, alloc, partial),
        Err(_) => panic!(rt; "not begun"),
    }
}

/// A list of 1 and 2 is built, number by number.
fn check_list(rt: &(impl Abort + AllocGlobal), bench: Bench<'_>) {
    let bench = done(
        rt,
        after(rt, bench, "list").typed(rt, Typed::ListItem, 1u32),
    );
    let bench = done(rt, bench.typed(rt, Typed::ListItem, 2u32));
    let built = built(rt, bench);
    assert!(rt; built.calls() == 7);
    check_value(rt, rt.alloc(), built.value(), r#"{"l":[1,2]}"#);
}

#[test]
fn values_are_built_by_type(rt: HostRuntime) {
    let ground = ground_of(&rt, TYPED);
    check_list(&rt, start_as::<Vec<u32>>(&rt, rt.alloc(), &ground));
    check_list(&rt, start_owned_as::<Vec<u32>>(&rt, rt.alloc(), &ground));
    let set = start(&rt, rt.alloc(), &ground, 0).typed(&rt, Typed::Set, 7u32);
    check_calls(&rt, done(&rt, set), "", "7", 0);
    let of_peek = start(&rt, rt.alloc(), &ground, 0).set_from_peek(&rt, 8);
    check_calls(&rt, done(&rt, of_peek), "", "8", 0);
    let of_function = start(&rt, rt.alloc(), &ground, 0).set_from_function(&rt, 9);
    check_calls(&rt, done(&rt, of_function), "", "9", 0);
}

#[test]
fn each_child_is_set_by_a_shorthand(rt: HostRuntime) {
    let ground = ground_of(&rt, TYPED);
    let root = start(&rt, rt.alloc(), &ground, 7);
    let hi = text(&rt, rt.alloc(), "hi");
    let root = done(&rt, root.typed(&rt, Typed::Field("text"), hi));
    let list = after(&rt, root, "f:nums list");
    let list = done(&rt, list.typed(&rt, Typed::ListItem, 3u32));
    let map = after(&rt, list, "e f:map map");
    let a = text(&rt, rt.alloc(), "a");
    let map = done(&rt, map.typed(&rt, Typed::Key, a));
    let map = done(&rt, map.typed(&rt, Typed::Value, 4u32));
    let set = after(&rt, map, "e f:set set");
    let set = done(&rt, set.typed(&rt, Typed::SetItem, 5u32));
    let point = after(&rt, set, "e f:point");
    let point = done(&rt, point.typed(&rt, Typed::NthField(0), 6u32));
    let point = done(&rt, point.typed(&rt, Typed::NthField(1), 7u32));
    let built = built(&rt, after(&rt, point, "e"));
    assert!(rt; built.calls() == 32);
    let want = r#"["hi",{"l":[3]},{"m":[["a",4]]},{"e":[5]},[6,7]]"#;
    check_value(&rt, rt.alloc(), built.value(), want);
}

/// A builder of an opaque that was set to the ledger's only token by its type.
fn with_opaque<'t>(rt: &impl Abort, alloc: Global, ground: &'t Ground) -> Bench<'t> {
    let partial = fresh(rt, alloc, ground, 1);
    let mut ledger = ledger(rt, alloc, 1);
    assert!(rt; ledger.len() == 1);
    assert!(rt; ledger.count(0) == 0);
    check_shape::<Opaque>(rt, partial.table());
    match partial.set(Opaque(0), &mut ledger) {
        Ok(partial) => Bench { partial, ledger },
        Err(_) => panic!(rt; "not set"),
    }
}

/// The token that a token is read as.
fn token_read(rt: &impl Abort, alloc: Global) -> u32 {
    let mut ledger = ledger(rt, alloc, 1);
    assert!(rt; ledger.len() == 1);
    assert!(rt; ledger.count(0) == 0);
    match materialize(alloc, Value::Token(0), &mut ledger) {
        Ok(Opaque(token)) => token,
        Err(_) => panic!(rt; "not read"),
    }
}

#[test]
fn a_token_is_set_and_read_by_its_type(rt: HostRuntime) {
    let ground = ground_of(&rt, TYPED);
    let bench = with_opaque(&rt, rt.alloc(), &ground);
    check_calls(&rt, bench, "", r#"{"t":0}"#, 0);
    assert!(rt; token_read(&rt, rt.alloc()) == 0);
}

/// The plan of a type, which the test sees to.
fn plan_of<T: Facet>(rt: &impl Abort, alloc: Global, ground: &Ground) -> TypePlan<T>
    ensures { IsPlanFrom ground.now result }
{
    check_shape::<T>(rt, &ground.table);
    match TypePlan::build(alloc, &ground.table) {
        Ok(plan) => plan,
        Err(_) => panic!(rt; "not planned"),
    }
}

/// The same by the other call.
fn plan_in_json<T: Facet>(rt: &impl Abort, alloc: Global, ground: &Ground) -> TypePlan<T>
    ensures { IsPlanFrom ground.now result }
{
    check_shape::<T>(rt, &ground.table);
    match TypePlan::build_for_format(alloc, &ground.table, Some("json")) {
        Ok(plan) => plan,
        Err(_) => panic!(rt; "not planned"),
    }
}

/// Builders that go by one plan, and tell so.
fn check_plan(rt: &(impl Abort + AllocGlobal), ground: &Ground, plan: &TypePlan<Vec<u32>>)
    requires { IsPlanFrom ground.now plan.now }
{
    let alloc = rt.alloc();
    assert!(rt; plan.root().shape == ShapeId(3));
    match plan.partial(alloc, &ground.table, &ground.hooks) {
        Ok(partial) => {
            assert!(rt; partial.type_plan_core().root_id() == plan.core().root_id());
            assert!(rt; partial.type_plan_core().node_count() == plan.core().node_count());
            check_list(rt, with_ledger(rt, alloc, partial));
        }
        Err(_) => panic!(rt; "not begun"),
    }
    match plan.partial_owned(alloc, &ground.table, &ground.hooks) {
        Ok(partial) => check_list(rt, with_ledger(rt, alloc, partial)),
        Err(_) => panic!(rt; "not begun"),
    }
}

#[test]
fn a_plan_of_a_type_serves_builders(rt: HostRuntime) {
    let ground = ground_of(&rt, TYPED);
    check_plan(&rt, &ground, &plan_of(&rt, rt.alloc(), &ground));
    check_plan(&rt, &ground, &plan_in_json(&rt, rt.alloc(), &ground));
}

#[test]
fn a_value_of_another_shape_is_refused(rt: HostRuntime) {
    let ground = ground_of(&rt, TYPED);
    let at_text = after(&rt, start(&rt, rt.alloc(), &ground, 7), "f:text");
    let refused = refusal(&rt, at_text.typed(&rt, Typed::Set, 7u32));
    let ReflectErrorKind::WrongShape { expected, actual } = refused.error.kind else {
        panic!(rt; "another refusal");
    };
    assert!(rt; (expected.0, actual.0) == (2, 0));
    check_path(&rt, rt.alloc(), &refused.error.path, &ground, 7, "text");
}

/// What a value without tokens is as an element of the type.
fn element<T: Facet>(rt: &impl Abort, alloc: Global, value: Value) -> Result<T, FacetFault>
    requires { (t : ℕ) → occurs (view value) t ≡ 0 }
{
    let mut ledger = ledger(rt, alloc, 0);
    materialize(alloc, value, &mut ledger)
}

#[test]
fn values_are_read_as_elements(rt: HostRuntime) {
    assert!(rt; matches!(element::<u32>(&rt, rt.alloc(), Value::Nat(7)), Ok(7)));
    let truth = element::<u32>(&rt, rt.alloc(), Value::Bool(true));
    assert!(rt; matches!(truth, Err(FacetFault::Mismatch)));
    let Ok(items) = vec![in rt.alloc(); Value::Nat(1), Value::Nat(2)] else {
        panic!(rt; "no memory");
    };
    let list = Value::List(Items::from_vec(items));
    match element::<Vec<u32>>(&rt, rt.alloc(), list) {
        Ok(numbers) => assert!(rt; matches!(numbers.as_slice(), [1, 2])),
        Err(_) => panic!(rt; "not read"),
    }
}

/// The builder goes on as the function does, which may refuse with whatever it likes; and it tells
/// of a refusal of the caller's at its own place.
#[test]
fn a_builder_goes_on_with_a_function(rt: HostRuntime) {
    let ground = ground_of(&rt, TYPED);
    let Bench { partial, ledger } = start(&rt, rt.alloc(), &ground, 0);
    let kind = ReflectErrorKind::UninitializedValue { shape: ShapeId(0) };
    let Ok(error) = partial.err(kind) else {
        panic!(rt; "no memory");
    };
    check_path(&rt, rt.alloc(), &error.path, &ground, 0, "");
    match partial.with(|same| -> Result<Partial<OwnHooks>, ()> { Ok(same) }) {
        Ok(partial) => check_calls(&rt, Bench { partial, ledger }, "num:5", "5", 0),
        Err(()) => panic!(rt; "refused"),
    }
}
