//! The tables that the tests stand on, read from texts.
use fr_doc::shapes_of;
use fr_own_hooks::OwnHooks;
use fr_shape::ShapeTable;
use serde_json::Value as Json;
use std::alloc::Global;
use std::marker::Model;
use std::process::Abort;

/// A table that the builder takes, and hooks of one's own.
#[derive(Drop)]
pub struct Ground {
    pub table: ShapeTable,
    pub hooks: OwnHooks,
}

impl Model for Ground {
    ghost use Rattle.fr_shape.specs.Look.{Table};
    ghost use Rattle.fr_shape.specs.TableCode.{table_code};
    ghost use Rattle.fr_builder_tests.specs.Grounds.{IsGround};

    ghost Value = { Table };

    ghost coded = { table_code };

    ghost view = { λ ground. ground.table };

    ghost invariant = { λ ground. IsGround ground.table };
}

/// The table of a document, whose root and commands are left.
pub fn ground_of(rt: &(impl Abort + AllocGlobal), document: &str) -> Ground {
    let alloc = rt.alloc();
    let Ok(json) = Json::from_str(alloc, document) else {
        panic!(rt; "no JSON");
    };
    let Some(shapes) = json.get("shapes") else {
        panic!(rt; "no shapes");
    };
    match shapes_of(alloc, shapes) {
        Ok(shapes) => ground_over(rt, ShapeTable::new(alloc, shapes)),
        Err(_) => panic!(rt; "no shapes"),
    }
}

/// A table that keeps the rules, with these hooks.
pub fn ground_over(rt: &impl Abort, table: ShapeTable) -> Ground {
    assert!(rt; table.is_numbered());
    match table.check() {
        Ok(()) => Ground {
            table,
            hooks: OwnHooks,
        },
        Err(_) => panic!(rt; "a rule is broken"),
    }
}
