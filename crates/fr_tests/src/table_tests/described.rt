//! Tables made in code, with ample memory: one of five shapes, and one with a shape by each call
//! that makes one.
use crate::texts::check_fit;
use fr_shape::*;
use std::alloc::Global;
use std::process::Abort;

/// A server's host, its port and its tags.
fn servers(alloc: Global) -> Result<ShapeTable, OutOfMemory> {
    let (number, text, texts, port) = (ShapeId(0), ShapeId(1), ShapeId(2), ShapeId(3));
    let fields = [("host", text), ("port", port), ("tags", texts)];
    let mut shapes = Items::new(alloc);
    shapes.push(Shape::scalar(alloc, ScalarKind::U16)?)?;
    shapes.push(Shape::scalar(alloc, ScalarKind::String)?)?;
    shapes.push(Shape::list_of(alloc, "Vec<String>", text)?)?;
    shapes.push(Shape::option_of(alloc, "Option<u16>", number)?)?;
    shapes.push(Shape::struct_of(alloc, "Server", &fields)?)?;
    Ok(ShapeTable::new(alloc, shapes))
}

const BYTE: ShapeId = ShapeId(0);

const LETTER: ShapeId = ShapeId(1);

/// Ends the test where memory ran out for a shape.
fn add(rt: &impl Abort, shapes: &mut Items<Shape>, made: Result<Shape, OutOfMemory>) {
    let Ok(shape) = made else {
        panic!(rt; "no memory");
    };
    let pushed = shapes.push(shape);
    assert!(rt; pushed.is_ok());
}

fn byte(alloc: Global) -> Result<Shape, OutOfMemory> {
    let byte = Shape::scalar(alloc, ScalarKind::U8)?;
    Ok(byte.with_preset(Template::new(Value::Nat(7))))
}

/// A struct whose field takes the default of its shape where it is left unset.
fn dimmed(alloc: Global) -> Result<Shape, OutOfMemory> {
    let level = Field::of(alloc, "level", BYTE)?;
    let marked = level.with_default(DefaultSource::FromTrait);
    let fields = Items::from_vec(vec![in alloc; marked]?);
    Shape::struct_with(alloc, "Dimmed", fields)
}

/// A shape by each call, the scalars u8 and char first.
fn of_each_kind(rt: &impl Abort, alloc: Global) -> ShapeTable {
    let columns = [("row", BYTE), ("column", LETTER)];
    let lamp = Shape::enum_of(
        alloc,
        "Lamp",
        EnumRepr::U8,
        &[("Off", &[]), ("On", &[("level", BYTE), ("colour", LETTER)])],
    );
    let mut shapes = Items::new(alloc);
    add(rt, &mut shapes, byte(alloc));
    add(rt, &mut shapes, Shape::scalar(alloc, ScalarKind::Char));
    add(rt, &mut shapes, Shape::opaque(alloc, "Handle"));
    add(rt, &mut shapes, Shape::struct_of(alloc, "Key", &columns));
    add(
        rt,
        &mut shapes,
        Shape::tuple_of(alloc, "(u8, char)", &[BYTE, LETTER]),
    );
    add(rt, &mut shapes, lamp);
    add(
        rt,
        &mut shapes,
        Shape::option_of(alloc, "Option<char>", LETTER),
    );
    add(
        rt,
        &mut shapes,
        Shape::result_of(alloc, "Result<u8, char>", BYTE, LETTER),
    );
    add(rt, &mut shapes, Shape::box_of(alloc, "Box<u8>", BYTE));
    add(rt, &mut shapes, Shape::list_of(alloc, "Vec<u8>", BYTE));
    add(
        rt,
        &mut shapes,
        Shape::map_of(alloc, "BTreeMap<u8, char>", BYTE, LETTER),
    );
    add(rt, &mut shapes, Shape::set_of(alloc, "BTreeSet<u8>", BYTE));
    add(rt, &mut shapes, Shape::array_of(alloc, "[u8; 2]", BYTE, 2));
    add(rt, &mut shapes, Shape::dynamic(alloc, "Value"));
    add(rt, &mut shapes, dimmed(alloc));
    ShapeTable::new(alloc, shapes)
}

/// Ends the test where memory ran out, or the table breaks a rule.
fn checked(rt: &impl Abort, made: Result<ShapeTable, OutOfMemory>) -> ShapeTable {
    let Ok(table) = made else {
        panic!(rt; "no memory");
    };
    assert!(rt; table.is_numbered() && table.len() <= u32::MAX as usize && table.check().is_ok());
    table
}

#[test]
fn a_table_of_five_lines_passes(rt: HostRuntime) {
    let alloc = rt.alloc();
    let table = checked(&rt, servers(alloc));
    for row in [
        (4, r#"["a.example",{"s":443},{"l":["web"]}]"#, true),
        (4, r#"["a.example",null,{"l":[]}]"#, true),
        (4, r#"["a.example",443,{"l":[]}]"#, false),
    ] {
        check_fit(&rt, alloc, &table, row);
    }
    for (shape, name, below) in [(4, "port", Some(3)), (4, "Port", None), (0, "port", None)] {
        let found = table.field_named(ShapeId(shape), name);
        assert!(rt; found.map(|field| field.shape.0) == below);
    }
}

#[test]
fn shapes_by_each_call_take_their_values(rt: HostRuntime) {
    let alloc = rt.alloc();
    let table = checked(&rt, Ok(of_each_kind(&rt, alloc)));
    for row in [
        (0, "255", true),
        (1, r#"{"c":"x"}"#, true),
        (2, r#"{"t":0}"#, true),
        (3, r#"[7,{"c":"x"}]"#, true),
        (4, r#"[7,{"c":"x"}]"#, true),
        (5, r#"{"v":[0,[]]}"#, true),
        (5, r#"{"v":[1,[7,{"c":"x"}]]}"#, true),
        (6, r#"{"s":{"c":"x"}}"#, true),
        (7, r#"{"ok":7}"#, true),
        (7, r#"{"err":{"c":"x"}}"#, true),
        (7, r#"{"ok":{"c":"x"}}"#, false),
        (8, r#"{"p":7}"#, true),
        (9, r#"{"l":[7]}"#, true),
        (10, r#"{"m":[[7,{"c":"x"}]]}"#, true),
        (11, r#"{"e":[7]}"#, true),
        (12, "[7,8]", true),
        (12, "[7]", false),
        (13, r#"{"d":null}"#, true),
        (14, "[7]", true),
    ] {
        check_fit(&rt, alloc, &table, row);
    }
}
