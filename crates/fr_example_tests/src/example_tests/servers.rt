//! A struct of the caller's own, by its type.
ghost use Rattle.std.specs.Prelude.{◌≡◌, ℕ};
ghost use Rattle.fr_shape.specs.Tokens.{occurs};
ghost use Rattle.fr_shape.specs.View.{view};

use super::texts::{check_kind, check_value, no_tokens, table_of};
use fr_example::{Server, Unbuilt, build_server, server_table};
use fr_partial::Facet;
use fr_shape::{Items, ShapeId, Text, Value};
use std::alloc::Global;
use std::process::Abort;

/// The table of a server, but for the order of its fields.
const TURNED_ROUND: &str = r#"[
    {"name":"String","def":"String"},
    {"name":"u16","def":"u16"},
    {"name":"Vec<u16>","def":{"list":1}},
    {"name":"Server","def":{"struct":[{"name":"ports","shape":2},{"name":"host","shape":0}]}}
]"#;

/// A text of the program's own.
fn text(rt: &impl Abort, alloc: Global, letters: &str) -> String {
    match String::from_str(alloc, letters) {
        Ok(text) => text,
        Err(_) => panic!(rt; "no memory"),
    }
}

/// A server that listens at two ports, or why there is none.
fn served(rt: &(impl Abort + AllocGlobal), host: Option<&str>) -> Result<Server, Unbuilt> {
    let mut ledger = no_tokens(rt, rt.alloc());
    let host = match host {
        Some(host) => Some(text(rt, rt.alloc(), host)),
        None => None,
    };
    build_server(rt.alloc(), host, (80, 8080), &mut ledger)
}

#[test]
fn a_server_is_built_by_its_type_and_has_its_fields_in_order(rt: HostRuntime) {
    let Ok(server) = served(&rt, Some("example.org")) else {
        panic!(rt; "not built");
    };
    assert!(rt; server.host.as_str() == "example.org");
    assert!(rt; server.ports.as_slice() == [80, 8080].as_slice());
    let Err(Unbuilt::Refused(error)) = served(&rt, None) else {
        panic!(rt; "not refused");
    };
    assert!(rt; error.path.is_empty());
    let Ok(own) = server_table(rt.alloc()) else {
        panic!(rt; "no memory");
    };
    check_kind(&rt, &own, &error.kind, "host is missing");
    assert!(rt; Server::find(&own) == Some(ShapeId(3)));
    let other = table_of(&rt, TURNED_ROUND);
    assert!(rt; Server::find(&other).is_none());
}

/// Ends the test unless the value is an element of the type, and that has this value again.
fn check_element<T: Facet>(rt: &(impl Abort + AllocGlobal), value: Value, want: &str)
    requires no_token { (t : ℕ) → occurs (view value) t ≡ 0 }
{
    let mut ledger = no_tokens(rt, rt.alloc());
    let Ok(element) = T::from_value(rt.alloc(), value, &mut ledger) else {
        panic!(rt; "not read");
    };
    match element.into_value(rt.alloc(), &mut ledger) {
        Ok(value) => check_value(rt, &value, want),
        Err(_) => panic!(rt; "no memory"),
    }
}

#[test]
fn a_server_goes_in_and_comes_out_as_a_value(rt: HostRuntime) {
    let Ok(ports) = vec![in rt.alloc(); Value::Nat(80), Value::Nat(8080)] else {
        panic!(rt; "no memory");
    };
    let ports = Value::List(Items::from_vec(ports));
    let Ok(host) = Text::new(rt.alloc(), "a") else {
        panic!(rt; "no memory");
    };
    let Ok(fields) = vec![in rt.alloc(); Value::Text(host), ports] else {
        panic!(rt; "no memory");
    };
    let server = Value::Product(Items::from_vec(fields));
    check_element::<Server>(&rt, server, r#"["a",{"l":[80,8080]}]"#);
}
