//! A document that is read, the test of its script, and the calls that answer it, with ample
//! memory.
use fr_plan::TypePlanNodeKind;
use fr_script::{
    Answer, PlanAnswer, ScriptFault, answer, is_valid_script, plan_document, read_document,
};
use fr_shape::{Ledger, Value};

const DOCUMENT: &str = r#"{"shapes":[
    {"name":"id","def":"u32"},
    {"name":"Cell","def":{"struct":[{"name":"x","shape":2},{"name":"n","shape":0}]}},
    {"name":"any","def":"opaque"}
],"root":1,"tokens":2,"commands":[["set",1,[{"t":1},7]],["begin_nth_field",1],["end"]]}"#;

#[test]
fn a_document_is_read_and_its_script_is_valid(rt: HostRuntime) {
    let alloc = rt.alloc();
    let Ok(document) = read_document(alloc, DOCUMENT.as_bytes()) else {
        panic!(rt; "a fault");
    };
    assert!(rt; document.table.len() == 3);
    assert!(rt; document.root.0 == 1);
    assert!(rt; document.tokens == 2);
    assert!(rt; document.script.len() == 3);
    let (Ok(enough), Ok(few)) = (Ledger::new(alloc, 2), Ledger::new(alloc, 1)) else {
        panic!(rt; "no memory");
    };
    let valid = is_valid_script(alloc, &document.table, &document.script, &enough);
    assert!(rt; valid.is_ok());
    let fault = is_valid_script(alloc, &document.table, &document.script, &few);
    assert!(rt; matches!(fault, Err(ScriptFault::Invalid(0))));
}

#[test]
fn a_document_is_answered(rt: HostRuntime) {
    let Ok(answer) = answer(rt.alloc(), DOCUMENT.as_bytes()) else {
        panic!(rt; "no memory");
    };
    assert!(rt; answer.status() == 0);
    let (built, released) = match answer {
        Answer::Built(built, released) => (built, released),
        Answer::Refused(_error, _released) => panic!(rt; "refused"),
        Answer::Fault(_fault) => panic!(rt; "a fault"),
    };
    assert!(rt; built.calls() == 3);
    assert!(rt; released.len() == 0);
    let Value::Product(fields) = built.into_value() else {
        panic!(rt; "no struct");
    };
    assert!(rt; fields.len() == 2);
    assert!(rt; matches!(fields.get(0), Some(Value::Token(1))));
    assert!(rt; matches!(fields.get(1), Some(Value::Nat(7))));
}

#[test]
fn a_document_is_planned(rt: HostRuntime) {
    let Ok(planned) = plan_document(rt.alloc(), DOCUMENT.as_bytes()) else {
        panic!(rt; "no memory");
    };
    assert!(rt; planned.status() == 0);
    let PlanAnswer::Planned(table, plan) = planned else {
        panic!(rt; "no plan");
    };
    assert!(rt; table.len() == 3);
    assert!(rt; plan.node_count() == 3);
    assert!(rt; plan.root().shape.0 == 1);
    assert!(rt; matches!(plan.root().kind, TypePlanNodeKind::Struct(_)));
}
