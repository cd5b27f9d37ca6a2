//! Lookups of each form, with ample memory. What finds no memory ends the test.
use crate::texts::{cut, number, table_of};
use fr_rules::*;
use fr_shape::{Def, ShapeId, ShapeTable};
use std::alloc::Global;
use std::process::Abort;

/// The prefix length of a lookup in buckets; None of a short one.
fn prefix_len(lookup: &FieldLookup) -> Option<usize> {
    match lookup {
        FieldLookup::Small(_) => None,
        FieldLookup::PrefixBuckets { prefix_len, .. } => Some(*prefix_len),
    }
}

/// Ends the test where the field of this name in the first shape, a struct, has another number, or
/// the prefixes another length, than is wanted. The field is found also after another lookup was
/// built.
fn check_field(
    rt: &impl Abort,
    alloc: Global,
    shapes: &str,
    prefix: Option<usize>,
    (name, want): (&str, Option<usize>),
) {
    let table = table_of(rt, alloc, shapes);
    let Some(Def::Struct(described)) = table.get(ShapeId(0)).map(|shape| &shape.def) else {
        panic!(rt; "no struct");
    };
    let mut pool = LookupPool::new(alloc);
    let Ok(lookup) = build_field_lookup(alloc, &described.fields, &mut pool) else {
        panic!(rt; "no memory");
    };
    assert!(rt;
        prefix_len(&lookup) == prefix && lookup.find(name, &pool) == want,
        "{name}"
    );
    let again = build_field_lookup(alloc, &described.fields, &mut pool);
    assert!(rt; again.is_ok());
    law_lookups_stay();
    assert!(rt; lookup.find(name, &pool) == want, "{name}");
}

const THREE: &str = r#"[{"name":"S","def":{"struct":[
    {"name":"foo","shape":0},{"name":"bar","shape":0},{"name":"baz","shape":0}
]}}]"#;

const EIGHT: &str = r#"[{"name":"S","def":{"struct":[
    {"name":"a","shape":0},{"name":"b","shape":0},{"name":"c","shape":0},
    {"name":"d","shape":0},{"name":"e","shape":0},{"name":"f","shape":0},
    {"name":"g","shape":0},{"name":"h","shape":0}
]}}]"#;

/// Eight fields, of which the last goes by another name besides.
const ALIAS: &str = r#"[{"name":"S","def":{"struct":[
    {"name":"a","shape":0},{"name":"b","shape":0},{"name":"c","shape":0},
    {"name":"d","shape":0},{"name":"e","shape":0},{"name":"f","shape":0},
    {"name":"g","shape":0},{"name":"h","shape":0,"alias":"alias"}
]}}]"#;

/// Nine fields, of which the last goes by the name of the second besides.
const SECOND_NAME: &str = r#"[{"name":"S","def":{"struct":[
    {"name":"a","shape":0},{"name":"b","shape":0},{"name":"c","shape":0},
    {"name":"d","shape":0},{"name":"e","shape":0},{"name":"f","shape":0},
    {"name":"g","shape":0},{"name":"h","shape":0},{"name":"i","shape":0,"alias":"b"}
]}}]"#;

/// Names that share a prefix, of which few enough share four bytes.
const HALF: &str = r#"[{"name":"S","def":{"struct":[
    {"name":"x","shape":0},{"name":"identifier_b","shape":0},
    {"name":"identifier_a","shape":0},{"name":"identifi","shape":0},
    {"name":"identity","shape":0},{"name":"iden","shape":0},{"name":"id","shape":0},
    {"name":"i","shape":0},{"name":"ident","shape":0}
]}}]"#;

/// The same with one more that shares them.
const MORE: &str = r#"[{"name":"S","def":{"struct":[
    {"name":"x","shape":0},{"name":"identifier_b","shape":0},
    {"name":"identifier_a","shape":0},{"name":"identifi","shape":0},
    {"name":"identity","shape":0},{"name":"iden","shape":0},{"name":"id","shape":0},
    {"name":"i","shape":0},{"name":"identified","shape":0}
]}}]"#;

/// Of each table the length of its prefixes, and names, each with the number of its field or none.
/// More than eight entries make buckets, of prefixes of 4 bytes or of 8.
const FIELDS: [(&str, Option<usize>, &str); 6] = [
    (THREE, None, "foo=0 bar=1 baz=2 qux=-"),
    (EIGHT, None, "h=7 i=-"),
    (ALIAS, Some(4), "a=0 b=1 h=7 alias=7 ali=-"),
    (SECOND_NAME, Some(4), "b=1 h=7 i=8 j=-"),
    (
        HALF,
        Some(4),
        "x=0 identifier_b=1 identifier_a=2 identifi=3 identity=4 iden=5 id=6 i=7 ident=8 id\0\0=- identifier=- =- ide=-",
    ),
    (
        MORE,
        Some(8),
        "x=0 identifier_b=1 identifier_a=2 identifi=3 identity=4 iden=5 id=6 i=7 identified=8 id\0\0=- identifier=- =- ide=-",
    ),
];

/// Ends the test where one of these names leads to another field than is wanted.
fn check_fields(rt: &impl Abort, alloc: Global, shapes: &str, prefix: Option<usize>, names: &str) {
    for word in names.split(' ') {
        let (name, want) = cut(rt, word, "=");
        let want = if want == "-" {
            None
        } else {
            Some(number(rt, want) as usize)
        };
        check_field(rt, alloc, shapes, prefix, (name, want));
    }
}

#[test]
fn lookups_find_fields(rt: HostRuntime) {
    for (shapes, prefix, names) in FIELDS {
        check_fields(&rt, rt.alloc(), shapes, prefix, names);
    }
}

/// The lookup of the first shape's variants. A checked table tells that their names are distinct.
fn lookup_of(alloc: Global, table: &ShapeTable) -> Option<VariantLookup> {
    if table.len() != 1 {
        return None;
    }
    let Ok(()) = table.check() else {
        return None;
    };
    match &table.get(ShapeId(0))?.def {
        Def::Enum(e) => build_variant_lookup(alloc, e).ok(),
        _ => None,
    }
}

/// An enum of four variants, the last of which stands for all others.
const FEW: &str = r##"[{"name":"choice","def":{"enum":{"repr":"Rust","variants":[
    {"name":"A","kind":"unit","fields":[]},
    {"name":"B","kind":"unit","fields":[]},
    {"name":"C","kind":"unit","fields":[]},
    {"name":"#D","kind":"unit","fields":[],"other":true}
]}}}]"##;

#[test]
fn lookups_find_variants(rt: HostRuntime) {
    let Some(lookup) = lookup_of(rt.alloc(), &table_of(&rt, rt.alloc(), FEW)) else {
        panic!(rt; "no lookup");
    };
    for (name, want) in [
        ("A", Some(0)),
        ("B", Some(1)),
        ("C", Some(2)),
        ("#D", None),
        ("D", None),
    ] {
        assert!(rt; lookup.find(name) == want, "{name}");
    }
}
