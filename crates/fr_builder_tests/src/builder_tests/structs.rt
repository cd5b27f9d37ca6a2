//! A whole build of a struct call by call.
use super::bench::holding;
use super::calls::check_calls;
use super::grounds::ground_of;

/// A number, 5 by default; an opaque; an option; an array of two numbers; and the struct, whose
/// count has a default of its own.
pub(super) const STRUCT: &str = r#"{"shapes":[
    {"name":"number","def":"u32","preset":5},
    {"name":"opaque","def":"opaque"},
    {"name":"option","def":{"option":0},"preset":null},
    {"name":"pair","def":{"array":[0,2]}},
    {"name":"structure","def":{"struct":[
        {"name":"count","shape":0,"default":{"custom":9}},
        {"name":"choice","shape":2},
        {"name":"pair","shape":3},
        {"name":"token","shape":1}
    ]}}
],"root":4,"commands":[]}"#;

#[test]
fn builds_a_struct(rt: HostRuntime) {
    let ground = ground_of(&rt, STRUCT);
    let bench = holding(&rt, &ground, 4, "token");
    let calls = "e f:pair n:0 num:7 e n:1 def e e f:choice e";
    check_calls(&rt, bench, calls, r#"[9,null,[7,5],{"t":0}]"#, 0);
}
