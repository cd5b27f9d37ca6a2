//! A whole build over a table that was made in code.
use super::bench::start;
use super::calls::check_calls;
use super::grounds::ground_over;
use fr_shape::{Items, OutOfMemory, ScalarKind, Shape, ShapeId, ShapeTable};
use std::alloc::Global;

/// A server's host, its port and its tags.
fn servers(alloc: Global) -> Result<ShapeTable, OutOfMemory> {
    let (number, text, texts, port) = (ShapeId(0), ShapeId(1), ShapeId(2), ShapeId(3));
    let fields = [("host", text), ("port", port), ("tags", texts)];
    let mut shapes = Items::new(alloc);
    shapes.push(Shape::scalar(alloc, ScalarKind::U16)?)?;
    shapes.push(Shape::scalar(alloc, ScalarKind::String)?)?;
    shapes.push(Shape::list_of(alloc, "Vec<String>", text)?)?;
    shapes.push(Shape::option_of(alloc, "Option<u16>", number)?)?;
    shapes.push(Shape::struct_of(alloc, "Server", &fields)?)?;
    Ok(ShapeTable::new(alloc, shapes))
}

#[test]
fn a_server_is_built(rt: HostRuntime) {
    let alloc = rt.alloc();
    let Ok(table) = servers(alloc) else {
        panic!(rt; "no memory");
    };
    let ground = ground_over(&rt, table);
    let bench = start(&rt, alloc, &ground, 4);
    let calls = "f:tags list item parse:web e e f:host parse:a.example e f:port def e";
    check_calls(&rt, bench, calls, r#"["a.example",null,{"l":["web"]}]"#, 0);
}
