//! What texts and bytes are parsed to in documents, with a hook and without one, and two documents
//! as a loader makes them.
use super::documents::{check_report, check_tables, joined};
use std::process::Abort;

/// The shapes u32, i8, u64, i128, u128, bool, char, String, CowStr, str, a pointer to it, what
/// isn't parsed (a list, a dynamic value), Named (a number and a text) and Cell (an opaque value
/// and a number), before the root.
const SCALARS: &str = r#"{"shapes":[
    {"name":"u32","def":"u32"},
    {"name":"i8","def":"i8"},
    {"name":"u64","def":"u64"},
    {"name":"i128","def":"i128"},
    {"name":"u128","def":"u128"},
    {"name":"bool","def":"bool"},
    {"name":"char","def":"char"},
    {"name":"String","def":"String"},
    {"name":"CowStr","def":"CowStr"},
    {"name":"str","def":"str"},
    {"name":"BoxStr","def":{"pointer":{"known":"Box","pointee":9}}},
    {"name":"Nums","def":{"list":0}},
    {"name":"Any","def":"dynamic"},
    {"name":"Named","def":{"struct":[{"name":"number","shape":0},{"name":"text","shape":7}]}},
    {"name":"Res","def":"opaque"},
    {"name":"Cell","def":{"struct":[{"name":"r","shape":14},{"name":"n","shape":0}]}}
],"#;

const WRITTEN: &str = r#"
    # a plus before the digits
    "root":0,"commands":[["parse_from_str","+5"]]}
    = 0 {"ok":5,"released":[]}
    # a minus at an unsigned kind
    "root":0,"commands":[["parse_from_str","-1"]]}
    = 1 {"error":{"command":0,"detail":"u32","kind":"ParseFailed","path":""},"released":[]}
    # forty zeros before a digit
    "root":0,"commands":[["parse_from_str","00000000000000000000000000000000000000007"]]}
    = 0 {"ok":7,"released":[]}
    # the least of a signed kind
    "root":1,"commands":[["parse_from_str","-128"]]}
    = 0 {"ok":{"i":-128},"released":[]}
    # one below it
    "root":1,"commands":[["parse_from_str","-129"]]}
    = 1 {"error":{"command":0,"detail":"i8","kind":"ParseFailed","path":""},"released":[]}
    # the greatest of an unsigned kind
    "root":2,"commands":[["parse_from_str","18446744073709551615"]]}
    = 0 {"ok":18446744073709551615,"released":[]}
    # one above it
    "root":2,"commands":[["parse_from_str","18446744073709551616"]]}
    = 1 {"error":{"command":0,"detail":"u64","kind":"ParseFailed","path":""},"released":[]}
    # the least of 128 bits
    "root":3,"commands":[["parse_from_str","-170141183460469231731687303715884105728"]]}
    = 0 {"ok":{"i":"-170141183460469231731687303715884105728"},"released":[]}
    # one above the greatest
    "root":3,"commands":[["parse_from_str","170141183460469231731687303715884105728"]]}
    = 1 {"error":{"command":0,"detail":"i128","kind":"ParseFailed","path":""},"released":[]}
    # the greatest of all
    "root":4,"commands":[["parse_from_str","340282366920938463463374607431768211455"]]}
    = 0 {"ok":{"n":"340282366920938463463374607431768211455"},"released":[]}
    # a zero with a minus
    "root":1,"commands":[["parse_from_str","-0"]]}
    = 0 {"ok":{"i":0},"released":[]}
    # the same at an unsigned kind
    "root":0,"commands":[["parse_from_str","-0"]]}
    = 1 {"error":{"command":0,"detail":"u32","kind":"ParseFailed","path":""},"released":[]}
    # no text
    "root":0,"commands":[["parse_from_str",""]]}
    = 1 {"error":{"command":0,"detail":"u32","kind":"ParseFailed","path":""},"released":[]}
    # a lone plus
    "root":0,"commands":[["parse_from_str","+"]]}
    = 1 {"error":{"command":0,"detail":"u32","kind":"ParseFailed","path":""},"released":[]}
    # a lone minus
    "root":1,"commands":[["parse_from_str","-"]]}
    = 1 {"error":{"command":0,"detail":"i8","kind":"ParseFailed","path":""},"released":[]}
    # a boolean
    "root":5,"commands":[["parse_from_str","true"]]}
    = 0 {"ok":true,"released":[]}
    # a boolean in other letters
    "root":5,"commands":[["parse_from_str","False"]]}
    = 1 {"error":{"command":0,"detail":"bool","kind":"ParseFailed","path":""},"released":[]}
    # a character of two bytes
    "root":6,"commands":[["parse_from_str","é"]]}
    = 0 {"ok":{"c":"é"},"released":[]}
    # two characters
    "root":6,"commands":[["parse_from_str","ab"]]}
    = 1 {"error":{"command":0,"detail":"char","kind":"ParseFailed","path":""},"released":[]}
    # an empty text at a text
    "root":7,"commands":[["parse_from_str",""]]}
    = 0 {"ok":"","released":[]}
    # digits at a text
    "root":8,"commands":[["parse_from_str","-1"]]}
    = 0 {"ok":"-1","released":[]}
    # a text behind a pointer
    "root":10,"commands":[["begin_smart_ptr"],["parse_from_str","hi"],["end"]]}
    = 0 {"ok":{"p":"hi"},"released":[]}
    # a place that is parsed to nothing
    "root":11,"commands":[["parse_from_str","[1]"]]}
    = 1 {"error":{"command":0,"detail":"Type does not support parsing from string",
        "kind":"OperationFailed","path":""},"released":[]}
    # a dynamic one
    "root":12,"commands":[["parse_from_str","1"]]}
    = 1 {"error":{"command":0,"detail":"Type does not support parsing from string",
        "kind":"OperationFailed","path":""},"released":[]}
    # bytes without a hook
    "root":7,"commands":[["parse_from_bytes",[104,105]]]}
    = 1 {"error":{"command":0,"detail":"Type does not support parsing from bytes",
        "kind":"OperationFailed","path":""},"released":[]}
    # what is parsed takes the place of what was
    "root":13,"commands":[
        ["set",13,[1,"a"]],["begin_field","number"],["parse_from_str","2"],
        ["parse_from_str","3"],["end"],["begin_field","text"],["parse_from_str","b"],["end"]
    ]}
    = 0 {"ok":[3,"b"],"released":[]}
    # in deferred mode too
    "root":13,"commands":[
        ["begin_deferred"],["begin_field","number"],["parse_from_str","1"],["end"],
        ["begin_field","text"],["parse_from_str","a"],["end"],
        ["begin_field","number"],["parse_from_str","2"],["end"],["finish_deferred"]
    ]}
    = 0 {"ok":[2,"a"],"released":[]}
    # the error says where, and what stands beside the place is released
    "root":15,"tokens":1,"commands":[
        ["begin_field","r"],["set",14,{"t":0}],["end"],
        ["begin_field","n"],["parse_from_str","4294967296"]
    ]}
    = 1 {"error":{"command":4,"detail":"u32","kind":"ParseFailed","path":"n"},"released":[0]}
"#;

/// Of each kind of integer the number below its range, both ends, and the number above, with the value
/// that is reported.
const ENDS: &str = r#"
    i8 -129 refused
    i8 -128 {"i":-128}
    i8 127 {"i":127}
    i8 128 refused
    i16 -32769 refused
    i16 -32768 {"i":-32768}
    i16 32767 {"i":32767}
    i16 32768 refused
    i32 -2147483649 refused
    i32 -2147483648 {"i":-2147483648}
    i32 2147483647 {"i":2147483647}
    i32 2147483648 refused
    i64 -9223372036854775809 refused
    i64 -9223372036854775808 {"i":-9223372036854775808}
    i64 9223372036854775807 {"i":9223372036854775807}
    i64 9223372036854775808 refused
    isize -9223372036854775809 refused
    isize -9223372036854775808 {"i":-9223372036854775808}
    isize 9223372036854775807 {"i":9223372036854775807}
    isize 9223372036854775808 refused
    i128 -170141183460469231731687303715884105729 refused
    i128 -170141183460469231731687303715884105728 {"i":"-170141183460469231731687303715884105728"}
    i128 170141183460469231731687303715884105727 {"i":"170141183460469231731687303715884105727"}
    i128 170141183460469231731687303715884105728 refused
    u8 -1 refused
    u8 0 0
    u8 255 255
    u8 256 refused
    u16 -1 refused
    u16 0 0
    u16 65535 65535
    u16 65536 refused
    u32 -1 refused
    u32 0 0
    u32 4294967295 4294967295
    u32 4294967296 refused
    u64 -1 refused
    u64 0 0
    u64 18446744073709551615 18446744073709551615
    u64 18446744073709551616 refused
    usize -1 refused
    usize 0 0
    usize 18446744073709551615 18446744073709551615
    usize 18446744073709551616 refused
    u128 -1 refused
    u128 0 0
    u128 340282366920938463463374607431768211455 {"n":"340282366920938463463374607431768211455"}
    u128 340282366920938463463374607431768211456 refused
"#;

/// What is reported of a text that is refused as an integer.
const REFUSED_INTEGER: &str =
    r#"{"error":{"command":0,"detail":"Integer","kind":"ParseFailed","path":""},"released":[]}"#;

/// The shapes Word (a text whose hooks take texts), Never (a number with the same hooks), Off (one
/// whose hooks do nothing), Res (opaque), Words (a list of Word), Cell (a Res and a Word), Text (a
/// text whose hook takes bytes alone) and Pair (a struct with a hook), before the root.
const HOOKED: &str = r#"{"shapes":[
    {"name":"Word","def":"String","parse":0,"parse_bytes":0},
    {"name":"Never","def":"u32","parse":0,"parse_bytes":0},
    {"name":"Off","def":"u32","parse":7,"parse_bytes":7},
    {"name":"Res","def":"opaque","parse":0,"parse_bytes":0},
    {"name":"Words","def":{"list":0}},
    {"name":"Cell","def":{"struct":[{"name":"r","shape":3},{"name":"w","shape":0}]}},
    {"name":"Text","def":"CowStr","parse_bytes":0},
    {"name":"Pair","def":{"struct":[{"name":"a","shape":0}]},"parse":0}
],"#;

const PARSED: &str = r#"
    # a hook gives a text
    "root":0,"commands":[["parse_from_str","é"]]}
    = 0 {"ok":"é","released":[]}
    # a hook gives the text that bytes are
    "root":0,"commands":[["parse_from_bytes",[195,169]]]}
    = 0 {"ok":"é","released":[]}
    # no bytes
    "root":6,"commands":[["parse_from_bytes",[]]]}
    = 0 {"ok":"","released":[]}
    # a shape whose hook takes bytes takes texts as it would without
    "root":6,"commands":[["parse_from_str","x"]]}
    = 0 {"ok":"x","released":[]}
    # bytes that are no text
    "root":0,"commands":[["parse_from_bytes",[104,195]]]}
    = 1 {"error":{"command":0,"detail":"Failed to parse bytes value","kind":"OperationFailed","path":""},"released":[]}
    # a hook refuses a text that would be parsed without it
    "root":1,"commands":[["parse_from_str","5"]]}
    = 1 {"error":{"command":0,"detail":"Never","kind":"ParseFailed","path":""},"released":[]}
    # and bytes
    "root":1,"commands":[["parse_from_bytes",[53]]]}
    = 1 {"error":{"command":0,"detail":"Failed to parse bytes value","kind":"OperationFailed","path":""},"released":[]}
    # a hook that takes no texts
    "root":2,"commands":[["parse_from_str","5"]]}
    = 1 {"error":{"command":0,"detail":"Type does not support parsing from string",
        "kind":"OperationFailed","path":""},"released":[]}
    # and no bytes
    "root":2,"commands":[["parse_from_bytes",[53]]]}
    = 1 {"error":{"command":0,"detail":"Type does not support parsing from bytes",
        "kind":"OperationFailed","path":""},"released":[]}
    # a hook at a struct
    "root":7,"commands":[["parse_from_str","x"]]}
    = 1 {"error":{"command":0,"detail":"Pair","kind":"ParseFailed","path":""},"released":[]}
    # items of a list
    "root":4,"commands":[
        ["init_list"],["begin_list_item"],["parse_from_str","a"],["end"],
        ["begin_list_item"],["parse_from_bytes",[98]],["end"]
    ]}
    = 0 {"ok":{"l":["a","b"]},"released":[]}
    # a refusal at a place that holds a token releases it
    "root":5,"tokens":1,"commands":[["begin_field","r"],["set",3,{"t":0}],["parse_from_str","x"]]}
    = 1 {"error":{"command":2,"detail":"Res","kind":"ParseFailed","path":"r"},"released":[0]}
    # the same of bytes, and of what was left
    "root":5,"tokens":2,"commands":[
        ["begin_deferred"],["begin_field","r"],["set",3,{"t":0}],["end"],
        ["begin_field","r"],["parse_from_bytes",[120]],["set",3,{"t":1}]
    ]}
    = 1 {"error":{"command":5,"detail":"Failed to parse bytes value","kind":"OperationFailed","path":"r"},"released":[0,1]}
"#;

/// The settings of a program, as examples/settings.json has them, before the root.
const SETTINGS: &str = r#"{"shapes":[
    {"name":"String","def":"String","preset":""},
    {"name":"u16","def":"u16","preset":0},
    {"name":"bool","def":"bool","preset":false},
    {"name":"u32","def":"u32","preset":0},
    {"name":"u8","def":"u8","preset":0},
    {"name":"Strings","def":{"list":0},"preset":{"l":[]}},
    {"name":"OptU32","def":{"option":3},"preset":null},
    {"name":"OptString","def":{"option":0},"preset":null},
    {"name":"Tags","def":{"set":0},"preset":{"e":[]}},
    {"name":"Limits","def":{"map":[0,3]},"preset":{"m":[]}},
    {"name":"Log","def":{"struct":[{"name":"level","shape":0},{"name":"file","shape":7}]}},
    {"name":"Db","def":{"struct":[
        {"name":"url","shape":0,"validators":["url"]},{"name":"pool","shape":3}
    ]}},
    {"name":"Settings","def":{"struct":[
        {"name":"name","shape":0},{"name":"port","shape":1},{"name":"debug","shape":2},
        {"name":"hosts","shape":5},{"name":"timeout","shape":6},
        {"name":"retries","shape":4,"default":{"custom":3}},{"name":"log","shape":10},
        {"name":"db","shape":11},{"name":"tags","shape":8},{"name":"limits","shape":9},
        {"name":"motd","shape":7},{"name":"version","shape":3}
    ]}}
],"root":12,"commands":[["begin_deferred"],"#;

const LOADED: &str = r#"
    # each line's field, and defaults for the others
    ["begin_field","name"],["set",0,"demo"],["end"],
    ["begin_field","db"],["begin_field","url"],["set",0,"https://db"],["end"],["end"],
    ["begin_field","port"],["set",1,8080],["end"],
    ["begin_field","log"],["begin_field","level"],["set",0,"info"],["end"],["end"],
    ["begin_field","hosts"],["init_list"],["begin_list_item"],["set",0,"a"],["end"],
    ["begin_list_item"],["set",0,"b"],["end"],["end"],
    ["begin_field","db"],["begin_field","pool"],["set",3,4],["end"],["end"],
    ["begin_field","debug"],["set",2,true],["end"],
    ["begin_field","limits"],["init_map"],["begin_key"],["set",0,"cpu"],["end"],
    ["begin_value"],["set",3,2],["end"],["end"],
    ["begin_field","log"],["begin_field","file"],["begin_some"],["set",0,"out.log"],["end"],
    ["end"],["end"],["begin_field","version"],["set",3,1],["end"],["finish_deferred"]]}
    = 0 {"ok":["demo",8080,true,{"l":["a","b"]},null,3,["info",{"s":"out.log"}],["https://db",4],
        {"e":[]},{"m":[["cpu",2]]},null,1],"released":[]}
    # its second and its third line in the other order
    ["begin_field","name"],["set",0,"demo"],["end"],["begin_field","port"],["set",1,8080],["end"],
    ["begin_field","db"],["begin_field","url"],["set",0,"https://db"],["end"],["end"],
    ["begin_field","log"],["begin_field","level"],["set",0,"info"],["end"],["end"],
    ["begin_field","hosts"],["init_list"],["begin_list_item"],["set",0,"a"],["end"],
    ["begin_list_item"],["set",0,"b"],["end"],["end"],
    ["begin_field","db"],["begin_field","pool"],["set",3,4],["end"],["end"],
    ["begin_field","debug"],["set",2,true],["end"],
    ["begin_field","limits"],["init_map"],["begin_key"],["set",0,"cpu"],["end"],
    ["begin_value"],["set",3,2],["end"],["end"],
    ["begin_field","log"],["begin_field","file"],["begin_some"],["set",0,"out.log"],["end"],
    ["end"],["end"],["begin_field","version"],["set",3,1],["end"],["finish_deferred"]]}
    = 0 {"ok":["demo",8080,true,{"l":["a","b"]},null,3,["info",{"s":"out.log"}],["https://db",4],
        {"e":[]},{"m":[["cpu",2]]},null,1],"released":[]}
    # a group whose URL is none
    ["begin_field","db"],["set",11,["db",4]],["begin_field","url"],["end"],["end"],
    ["finish_deferred"]]}
    = 1 {"error":{"command":6,"detail":"'db' is not a valid URL","kind":"ValidationFailed","path":""},"released":[]}
    # the same behind another line
    ["begin_field","name"],["set",0,"demo"],["end"],
    ["begin_field","db"],["set",11,["db",4]],["begin_field","url"],["end"],["end"],
    ["finish_deferred"]]}
    = 1 {"error":{"command":9,"detail":"'db' is not a valid URL","kind":"ValidationFailed","path":""},"released":[]}
    # and before it
    ["begin_field","db"],["set",11,["db",4]],["begin_field","url"],["end"],["end"],
    ["begin_field","name"],["set",0,"demo"],["end"],["finish_deferred"]]}
    = 1 {"error":{"command":9,"detail":"'db' is not a valid URL","kind":"ValidationFailed","path":""},"released":[]}
"#;

/// A service and its endpoint, as examples/endpoint.json has them, up to its port.
const ENDPOINT: &str = r#"{"shapes":[
    {"name":"u16","def":"u16"},
    {"name":"String","def":"String"},
    {"name":"Endpoint","def":{"struct":[
        {"name":"url","shape":1,"validators":["url",{"max_length":200}]},
        {"name":"port","shape":0,"validators":[{"min":1024}]}
    ]}},
    {"name":"Service","def":{"struct":[{"name":"name","shape":1},{"name":"endpoint","shape":2}]}}
],"root":3,"commands":[
    ["begin_field","name"],["set",1,"search"],["end"],["begin_field","endpoint"],
    ["begin_field","url"],["set",1,"https://search.example.org"],["end"],["begin_field","port"],"#;

const PORTS: &str = r#"
    # a port that may be
    ["parse_from_str","8080"],["end"],["end"]]}
    = 0 {"ok":["search",["https://search.example.org",8080]],"released":[]}
    # one that is too small
    ["parse_from_str","80"],["end"],["end"]]}
    = 1 {"error":{"command":10,"detail":"must be >= 1024, got 80","kind":"ValidationFailed","path":"endpoint"},"released":[]}
    # one that is none
    ["parse_from_str","65536"],["end"],["end"]]}
    = 1 {"error":{"command":8,"detail":"u16","kind":"ParseFailed","path":"endpoint.port"},"released":[]}
"#;

/// Ends the test where a text comes to something else at a kind of integer than the row says.
fn check_integer<'a>(
    rt: &(impl Abort + AllocGlobal),
    row: &str,
    (kind, text): (&'a str, &'a str),
    want: &str,
) {
    let document = [
        r#"{"shapes":[{"name":"Integer","def":""#,
        kind,
        r#""}],"root":0,"commands":[["parse_from_str",""#,
        text,
        r#""]]}"#,
    ];
    if want == "refused" {
        check_report(rt, row, &document, 1, REFUSED_INTEGER);
    } else {
        let report = joined(rt, rt.alloc(), &[r#"{"ok":"#, want, r#","released":[]}"#]);
        check_report(rt, row, &document, 0, report.as_str());
    }
}

#[test]
fn each_kind_of_integer_is_parsed_in_its_range(rt: HostRuntime) {
    let mut found = 0usize;
    for row in ENDS.lines() {
        let Some((kind, rest)) = row.trim_start().split_once(' ') else {
            continue;
        };
        let Some((text, want)) = rest.split_once(' ') else {
            panic!(&rt; "half a row");
        };
        check_integer(&rt, row, (kind, text), want);
        found = found.saturating_add(1);
    }
    assert!(rt; found == 48);
}

#[test]
fn texts_and_bytes_are_parsed_with_a_hook_and_without(rt: HostRuntime) {
    let tables = [
        (SCALARS, 28, WRITTEN),
        (HOOKED, 13, PARSED),
        (SETTINGS, 5, LOADED),
        (ENDPOINT, 3, PORTS),
    ];
    check_tables(&rt, &tables);
}
