//! Plans of large tables: a chain of shapes each of which holds the next, a struct of many fields,
//! and enums each of which holds the next in all its variants. The type is the second of each.
use crate::texts::{planned, repeated, table_of};
use std::alloc::Global;
use std::process::Abort;

/// How many nodes the plan has over shapes each of which tells its own number and that of the next,
/// a byte behind them.
fn count_nodes(rt: &impl Abort, alloc: Global, parts: &[&str], count: u32) -> usize {
    let around = ("[", r#"{"name":"u8","def":"u8"}]"#);
    let shapes = repeated(rt, alloc, around, parts, count);
    let table = table_of(rt, alloc, shapes.as_str());
    planned(rt, alloc, &table).node_count()
}

#[test]
fn a_long_chain_is_planned(rt: HostRuntime) {
    let parts = [
        r#"{"name":""#,
        r#"","def":{"struct":[{"name":"f","shape":"#,
        "}]}},",
    ];
    assert!(&rt; count_nodes(&rt, rt.alloc(), &parts, 1001) == 1001);
}

#[test]
fn a_wide_struct_is_planned(rt: HostRuntime) {
    let around = (
        r#"[{"name":"u8","def":"u8"},{"name":"Wide","def":{"struct":["#,
        r#"{"name":"f","shape":0}]}}]"#,
    );
    let field = [r#"{"name":"f","shape":0},"#];
    let shapes = repeated(&rt, rt.alloc(), around, &field, 64_999);
    let table = table_of(&rt, rt.alloc(), shapes.as_str());
    assert!(&rt; planned(&rt, rt.alloc(), &table).node_count() == 2);
}

/// Each has one node, though there are 4, 16, 64 and 256 ways to them.
#[test]
fn a_shape_that_variants_share_is_planned_once(rt: HostRuntime) {
    let parts = [
        r#"{"name":""#,
        r#"","def":{"enum":{"repr":"U8","variants":[
            {"name":"V0","discriminant":0,"fields":[{"name":"f","shape":"#,
        r#"}]},{"name":"V1","discriminant":1,"fields":[{"name":"f","shape":"#,
        r#"}]},{"name":"V2","discriminant":2,"fields":[{"name":"f","shape":"#,
        r#"}]},{"name":"V3","discriminant":3,"fields":[{"name":"f","shape":"#,
        "}]}]}}},",
    ];
    assert!(&rt; count_nodes(&rt, rt.alloc(), &parts, 5) == 5);
}
