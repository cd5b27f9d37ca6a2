//! Plans of worked tables, each as a whole run under `plan`.
use crate::documents::check_report;

/// Documents with what is reported under `plan`.
const PLANS: [(&str, &str, u8, &str); 6] = [
    (
        "a struct that holds itself through a pointer refers back once",
        r#"{"shapes":[
            {"name":"u32","def":"u32"},
            {"name":"Rec","def":{"struct":[{"name":"value","shape":0},{"name":"next","shape":3}]}},
            {"name":"BoxRec","def":{"pointer":{"known":"Box","pointee":1}}},
            {"name":"OptRec","def":{"option":2},"preset":null}
        ],"root":1,"commands":[]}"#,
        0,
        r#"{"nodes":[
            {"kind":"Scalar","shape":"u32","strategy":"Scalar"},
            {"kind":"BackRef","shape":"Rec","strategy":"BackRef"},
            {"kind":"Pointer","shape":"BoxRec","strategy":"Pointer"},
            {"kind":"Option","shape":"OptRec","strategy":"Option"},
            {"kind":"Struct","shape":"Rec","strategy":"Struct"}
        ],"root":4}"#,
    ),
    (
        "a field with a proxy has a node of its own",
        r#"{"shapes":[
            {"name":"u32","def":"u32"},
            {"name":"String","def":"String"},
            {"name":"W","def":{"struct":[
                {"name":"a","shape":0,"proxy":{"source":1,"convert":2}},{"name":"b","shape":0}
            ]}}
        ],"root":2,"commands":[]}"#,
        0,
        r#"{"nodes":[
            {"kind":"Scalar","shape":"String","strategy":"Scalar"},
            {"kind":"Scalar","shape":"u32","strategy":"Scalar"},
            {"kind":"BackRef","shape":"u32","strategy":"FieldProxy"},
            {"kind":"Struct","shape":"W","strategy":"Struct"}
        ],"root":3}"#,
    ),
    (
        "an enum over one shape that both variants share",
        r#"{"shapes":[
            {"name":"u32","def":"u32"},
            {"name":"L","def":{"enum":{"repr":"U8","variants":[
                {"name":"A","fields":[{"name":"f","shape":0}],"discriminant":0},
                {"name":"B","fields":[{"name":"f","shape":0}],"discriminant":1}
            ]}}}
        ],"root":1,"commands":[]}"#,
        0,
        r#"{"nodes":[{"kind":"Scalar","shape":"u32","strategy":"Scalar"},{"kind":"Enum","shape":"L","strategy":"Enum"}],"root":1}"#,
    ),
    (
        "a root that has no size can be planned",
        r#"{"shapes":[{"name":"str","def":"str"}],"root":0,"commands":[]}"#,
        0,
        r#"{"nodes":[{"kind":"Scalar","shape":"str","strategy":"Scalar"}],"root":0}"#,
    ),
    (
        "a shape that the root reaches can't be planned",
        r#"{"shapes":[
            {"name":"Odd","def":"other"},
            {"name":"Bad","def":{"struct":[{"name":"o","shape":0}]}}
        ],"root":1,"commands":[]}"#,
        1,
        r#"{"error":{"command":0,"detail":"unsupported type for deserialization","kind":"Alloc","path":""},"released":[]}"#,
    ),
    (
        "a script is tested here too",
        r#"{"shapes":[{"name":"u8","def":"u8"}],"root":0,"commands":[["set",0,256]]}"#,
        2,
        r#"{"command":0,"fault":"Invalid"}"#,
    ),
];

#[test]
fn plans_are_reported(rt: HostRuntime) {
    for (name, document, status, want) in PLANS {
        check_report(&rt, (name, "plan"), document, (status, want));
    }
}
