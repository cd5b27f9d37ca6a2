//! The example's struct of texts: a person with a name, an email that has to contain an `@`, and an
//! age that has a default.
ghost use Rattle.std.specs.Prelude.{◌≡◌, true};
ghost use Rattle.fr_shape.specs.declared.shape.Def.{Def};
ghost use Rattle.fr_shape.specs.declared.shape.ScalarKind.{ScalarKind};
ghost use Rattle.fr_shape.specs.Look.{def_of};
ghost use Rattle.fr_shape.specs.Checked.{IsChecked};
ghost use Rattle.fr_shape.specs.Numbered.{IsNumbered};
ghost use Rattle.fr_example.specs.Meant.{is_struct};

use super::texts::{check_kind, check_value, no_tokens, table_of};
use fr_example::{Pair, record_of};
use fr_partial::{Built, ReflectError};
use fr_shape::{Def, Items, NoHooks, ScalarKind, ShapeId, ShapeTable, Text};
use std::alloc::Global;
use std::process::Abort;

const PERSON: &str = r#"[
    {"name":"String","def":"String"},
    {"name":"u8","def":"u8"},
    {"name":"Person","def":{"struct":[
        {"name":"name","shape":0},
        {"name":"email","shape":0,"validators":[{"contains":"@"}]},
        {"name":"age","shape":1,"default":{"custom":30}}
    ]}}
]"#;

/// Whether a shape is that of texts.
fn is_string(table: &ShapeTable, id: ShapeId) -> bool
    ensures { result ≡ true → def_of table.now id.0 ≡ Def.Scalar ScalarKind.String }
{
    match table.get(id) {
        Some(shape) => matches!(shape.def, Def::Scalar(ScalarKind::String)),
        None => false,
    }
}

/// Whether a shape is that of a struct.
fn has_fields(table: &ShapeTable, id: ShapeId) -> bool
    ensures { result ≡ true → is_struct (def_of table.now id.0) ≡ true }
{
    match table.get(id) {
        Some(shape) => matches!(shape.def, Def::Struct(_)),
        None => false,
    }
}

/// The person of these pairs.
fn person(
    rt: &(impl Abort + AllocGlobal),
    table: &ShapeTable,
    pairs: Items<Pair>,
) -> Result<Built, ReflectError>
    requires checked { IsChecked table.now }
    requires numbered { IsNumbered table.now }
{
    let mut ledger = no_tokens(rt, rt.alloc());
    assert!(rt; has_fields(table, ShapeId(2)) && is_string(table, ShapeId(0)));
    record_of(
        rt.alloc(),
        table,
        ShapeId(2),
        ShapeId(0),
        &NoHooks,
        pairs,
        &mut ledger,
    )
}

fn text(rt: &impl Abort, alloc: Global, s: &str) -> Text {
    match Text::new(alloc, s) {
        Ok(text) => text,
        Err(_) => panic!(rt; "no memory"),
    }
}

/// The pairs of a field's name and a text that words like `name=Ana` stand for.
pub fn pairs_of(rt: &impl Abort, alloc: Global, pairs: &str) -> Items<Pair> {
    let mut items = Items::new(alloc);
    for word in pairs.split(' ') {
        let Some((name, said)) = word.split_once('=') else {
            panic!(rt; "no pair");
        };
        let pair = Pair {
            name: text(rt, alloc, name),
            text: text(rt, alloc, said),
        };
        let pushed = items.push(pair);
        assert!(rt; pushed.is_ok());
    }
    items
}

/// Pairs, and the person that they make or why there is none. The first that is refused is told.
const PERSONS: [(&str, &str); 6] = [
    // In another order than that of the fields.
    (
        "email=ana@example.org name=Ana",
        r#"["Ana","ana@example.org",30]"#,
    ),
    // The last of a name wins.
    (
        "name=Ana email=ana@example.org name=Eva",
        r#"["Eva","ana@example.org",30]"#,
    ),
    ("nam=?", "no such field"),
    ("age=?", "not a u8"),
    ("name=?", "email is missing"),
    ("email=ana name=Ana", "email: 'ana' does not contain '@'"),
];

/// Ends the test where the person of these pairs is printed otherwise, or the refusal is told in
/// other words.
fn check_person(rt: &(impl Abort + AllocGlobal), pairs: &str, want: &str) {
    let table = table_of(rt, PERSON);
    match person(rt, &table, pairs_of(rt, rt.alloc(), pairs)) {
        Ok(built) => check_value(rt, built.value(), want),
        Err(error) => check_kind(rt, &table, &error.kind, want),
    }
}

#[test]
fn a_person_is_built_or_it_is_told_why_not(rt: HostRuntime) {
    for (pairs, want) in PERSONS {
        check_person(&rt, pairs, want);
    }
}
