//! The forms of tables: each broken one is refused once, at the first place where it is broken.
use crate::texts::{cut, number};
use fr_doc::{DocFault, DocPlace, ReadError, shapes_of};
use serde_json::Value as Json;
use std::alloc::Global;
use std::process::Abort;

/// What stands before and behind a broken part: nothing, a definition, a shape's other keys, the
/// keys of a variant and those of a field.
type Around = (&'static str, &'static str);

const TABLE: Around = ("", "");

const DEF: Around = (r#"[{"name":"S","def":"#, "}]");

const SHAPE: Around = (r#"[{"name":"S","def":"u8","#, "}]");

const VARIANT: Around = (
    r#"[{"name":"S","def":{"enum":{"repr":"U8","variants":[{"#,
    "}]}}}]",
);

const FIELD: Around = (r#"[{"name":"S","def":{"struct":[{"#, "}]}}]");

// Broken parts of each, behind the number of the broken shape. Where there is none, the table as a
// whole is broken.

const TABLE_PARTS: &str = r#"
    - {}
    1 [{"name":"u32","def":"u32"},1,2]
    0 [{"name":"S"}]
    0 [{"def":"u8"}]
"#;

const SHAPE_PARTS: &str = r#"
    0 "preset":{}
    0 "metadata":1
    0 "bytes_ok":null
    0 "inner":4294967296
    0 "convert":null
    0 "invariant":{}
    0 "proxy":null
    0 "proxy":{"source":0,"convert":0,"format":"json"}
    0 "format_proxies":null
    0 "format_proxies":[{"source":0,"convert":0}]
    0 "Preset":0
"#;

const DEF_PARTS: &str = r#"
    0 null
    0 "U8"
    0 {}
    0 {"struct":[],"tuple":[]}
    0 {"unit":[{"name":"x","shape":0}]}
    0 {"set":-1}
    0 {"result":[0]}
    0 {"map":[0,1,2]}
    0 {"pointer":{"known":null}}
    0 {"pointer":{"to":0}}
    0 {"enum":{"repr":"U8"}}
    0 {"enum":{"repr":"u8","variants":[]}}
"#;

const VARIANT_PARTS: &str = r#"
    0 "name":"A"
    0 "fields":[]
    0 "name":"A","fields":[],"kind":"Struct"
    0 "name":"A","fields":[],"discriminant":9223372036854775808
    0 "name":"A","fields":[],"other":null
    0 "name":"A","fields":[],"alias":"a"
"#;

const FIELD_PARTS: &str = r#"
    0 "name":"x"
    0 "shape":0
    0 "name":"x","shape":0,"alias":null
    0 "name":"x","shape":0,"default":null
    0 "name":"x","shape":0,"default":{"custom":1,"trait":1}
    0 "name":"x","shape":0,"flatten":0
    0 "name":"x","shape":0,"format_proxies":[0]
    0 "name":"x","shape":0,"validators":["Url"]
    0 "name":"x","shape":0,"validators":[{"min_length":-1}]
    0 "name":"x","shape":0,"validators":[{"min":1,"max":2}]
    0 "name":"x","shape":0,"validator":0
"#;

/// Of each the broken parts, and how many they are.
const BROKEN: [(Around, &str, usize); 5] = [
    (TABLE, TABLE_PARTS, 4),
    (SHAPE, SHAPE_PARTS, 11),
    (DEF, DEF_PARTS, 12),
    (VARIANT, VARIANT_PARTS, 6),
    (FIELD, FIELD_PARTS, 11),
];

/// Where the table of a text is broken.
fn broken_at(rt: &impl Abort, alloc: Global, text: &str) -> Option<u32> {
    let Ok(json) = Json::from_str(alloc, text) else {
        panic!(rt; "no JSON");
    };
    match shapes_of(alloc, &json) {
        Err(ReadError::Fault(DocFault::BadForm(DocPlace::Shapes))) => None,
        Err(ReadError::Fault(DocFault::BadForm(DocPlace::Shape(i)))) => Some(i),
        _ => panic!(rt; "read, or another fault"),
    }
}

/// Ends the test where the broken part of a row isn't told between these two.
fn check_row(rt: &impl Abort, alloc: Global, (front, back): (&str, &str), row: &str) {
    let (place, part) = cut(rt, row, " ");
    let Ok(text) = format!(in alloc; "{front}{part}{back}") else {
        panic!(rt; "no memory");
    };
    let want = if place == "-" {
        None
    } else {
        Some(number(rt, place))
    };
    assert!(rt; broken_at(rt, alloc, text.as_str()) == want, "{part}");
}

#[test]
fn broken_tables_are_refused(rt: HostRuntime) {
    for (around, parts, count) in BROKEN {
        let mut found = 0usize;
        for row in parts.trim().lines() {
            check_row(&rt, rt.alloc(), around, row.trim());
            found = found.saturating_add(1);
        }
        assert!(rt; found == count);
    }
}
