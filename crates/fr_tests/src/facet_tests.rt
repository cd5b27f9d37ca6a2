//! Rust types looked for in a table of as many shapes as a document may have, and elements of each
//! made of values and turned back into them.
ghost use Rattle.std.specs.Prelude.{◌≡◌, ℕ};
ghost use Rattle.fr_shape.specs.Tokens.{occurs};
ghost use Rattle.fr_shape.specs.View.{view};

use crate::texts::{check_printed, ledger, repeated, table_of};
use fr_facet::Facet;
use fr_shape::{Items, ShapeId, Text, Value};
use std::alloc::Global;
use std::process::Abort;

/// The shapes before it are of another scalar.
#[test]
fn a_type_is_found_1_000_times_among_4_096_shapes(rt: HostRuntime) {
    let around = ("[", r#"{"name":"u32","def":"u32"}]"#);
    let other = [r#"{"name":"u16","def":"u16"},"#];
    let shapes = repeated(&rt, rt.alloc(), around, &other, 4_095);
    let table = table_of(&rt, rt.alloc(), shapes.as_str());
    for _i in 0..1_000u32 {
        assert!(rt; u32::find(&table) == Some(ShapeId(4_095)));
    }
}

/// Ends the test unless the value is an element of the type, and that is printed so.
fn check_element<T: Facet>(rt: &impl Abort, alloc: Global, value: Value, want: &str)
    requires { (t : ℕ) → occurs (view value) t ≡ 0 }
{
    let mut ledger = ledger(rt, alloc, 0);
    let Ok(element) = T::from_value(alloc, value, &mut ledger) else {
        panic!(rt; "not read");
    };
    match element.into_value(alloc, &mut ledger) {
        Ok(value) => check_printed(rt, alloc, &value, want),
        Err(_) => panic!(rt; "no memory"),
    }
}

/// An element of each numeric type, the largest there is, a truth value and a character.
#[test]
fn scalars_are_values(rt: HostRuntime) {
    let alloc = rt.alloc();
    check_element::<i8>(&rt, alloc, Value::Int(127), r#"{"i":127}"#);
    check_element::<i16>(&rt, alloc, Value::Int(32_767), r#"{"i":32767}"#);
    check_element::<i32>(&rt, alloc, Value::Int(2_147_483_647), r#"{"i":2147483647}"#);
    let most = Value::Int(9_223_372_036_854_775_807);
    check_element::<i64>(&rt, alloc, most, r#"{"i":9223372036854775807}"#);
    let most = r#"{"i":"170141183460469231731687303715884105727"}"#;
    check_element::<i128>(&rt, alloc, Value::Int(i128::MAX), most);
    check_element::<u8>(&rt, alloc, Value::Nat(255), "255");
    check_element::<u16>(&rt, alloc, Value::Nat(65_535), "65535");
    check_element::<u32>(&rt, alloc, Value::Nat(4_294_967_295), "4294967295");
    let most = Value::Nat(18_446_744_073_709_551_615);
    check_element::<u64>(&rt, alloc, most, "18446744073709551615");
    let most = r#"{"n":"340282366920938463463374607431768211455"}"#;
    check_element::<u128>(&rt, alloc, Value::Nat(u128::MAX), most);
    check_element::<bool>(&rt, alloc, Value::Bool(true), "true");
    check_element::<char>(&rt, alloc, Value::Char('é'), r#"{"c":"é"}"#);
}

/// A number in a box of its own.
fn boxed(rt: &impl Abort, alloc: Global, n: u128) -> Box<Value>
    ensures { (t : ℕ) → occurs (view result.value) t ≡ 0 }
{
    match Box::new(alloc, Value::Nat(n)) {
        Ok(boxed) => boxed,
        Err(_) => panic!(rt; "no memory"),
    }
}

#[test]
fn what_holds_another_element_is_a_value(rt: HostRuntime) {
    let alloc = rt.alloc();
    check_element::<Option<u8>>(&rt, alloc, Value::Some(boxed(&rt, alloc, 1)), r#"{"s":1}"#);
    check_element::<Option<u8>>(&rt, alloc, Value::None, "null");
    type Side = Result<u8, u16>;
    check_element::<Side>(&rt, alloc, Value::Ok(boxed(&rt, alloc, 2)), r#"{"ok":2}"#);
    check_element::<Side>(
        &rt,
        alloc,
        Value::Err(boxed(&rt, alloc, 256)),
        r#"{"err":256}"#,
    );
    check_element::<Box<u8>>(&rt, alloc, Value::Ptr(boxed(&rt, alloc, 3)), r#"{"p":3}"#);
}

#[test]
fn a_list_and_a_text_are_values(rt: HostRuntime) {
    let Ok(items) = vec![in rt.alloc(); Value::Nat(1), Value::Nat(2)] else {
        panic!(rt; "no memory");
    };
    let list = Value::List(Items::from_vec(items));
    check_element::<Vec<u8>>(&rt, rt.alloc(), list, r#"{"l":[1,2]}"#);
    let Ok(text) = Text::new(rt.alloc(), "é") else {
        panic!(rt; "no memory");
    };
    check_element::<String>(&rt, rt.alloc(), Value::Text(text), r#""é""#);
}
