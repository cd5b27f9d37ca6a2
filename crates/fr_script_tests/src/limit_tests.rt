//! Each limit of a document, at the largest size that it admits and at one past it, each as a whole
//! run.
use crate::documents::check_parts;
use std::process::Abort;

/// What is reported of a builder at which nothing was set.
const NOTHING_SET: &str =
    r#"{"error":{"command":0,"detail":"b","kind":"UninitializedValue","path":""},"released":[]}"#;

/// So many that 131,072 times as many are the most bytes of an input.
const SPACES: &str = "                                                                ";

/// Of each limit its name; the document, whose middle stands once less often than the limit says;
/// the limit; the status and the report there; and the report at one past it.
const LIMITS: [(&str, (&str, &str, &str), usize, (u8, &str), &str); 5] = [
    (
        "shapes",
        (
            r#"{"shapes":["#,
            r#"{"name":"a","def":"u32"},"#,
            r#"{"name":"a","def":"u32"}],"root":0,"commands":[]}"#,
        ),
        4_096,
        (2, r#"{"entry":1,"fault":"Unchecked","rule":2}"#),
        r#"{"fault":"TooLarge","what":"shapes"}"#,
    ),
    (
        "fields",
        (
            r#"{"shapes":[{"name":"a","def":{"struct":["#,
            r#"{"name":"x","shape":1},"#,
            r#"{"name":"x","shape":1}]}},{"name":"b","def":"u32"}],"root":1,"commands":[]}"#,
        ),
        65_536,
        (1, NOTHING_SET),
        r#"{"fault":"TooLarge","what":"fields"}"#,
    ),
    (
        "commands",
        (
            r#"{"shapes":[{"name":"a","def":"u32"}],"root":0,"commands":["#,
            r#"["end"],"#,
            r#"["end"]]}"#,
        ),
        200_000,
        (
            1,
            r#"{"error":{"command":0,"detail":"Partial::end() called with only one frame on the stack",
                "kind":"InvariantViolation","path":""},"released":[]}"#,
        ),
        r#"{"fault":"TooLarge","what":"commands"}"#,
    ),
    (
        "depth",
        (
            r#"{"shapes":[
                {"name":"u32","def":"u32"},
                {"name":"Inner","def":{"struct":[{"name":"x","shape":0},{"name":"b","shape":0}]}},
                {"name":"Outer","def":{"struct":[{"name":"x","shape":0},{"name":"inner","shape":1}]}}
            ],"root":2,"commands":["#,
            r#"["begin_nth_field",1],"#,
            r#"["begin_nth_field",1]]}"#,
        ),
        1_000,
        (
            1,
            r#"{"error":{"command":2,"detail":"cannot select a field from this type",
                "kind":"OperationFailed","path":"inner.b"},"released":[]}"#,
        ),
        r#"{"fault":"TooLarge","what":"depth"}"#,
    ),
    (
        "depth where some shape has a proxy, also without a source to enter",
        (
            r#"{"shapes":[{"name":"a","def":"u32"},
                {"name":"b","def":"u32","format_proxies":[{"format":"x","source":0,"convert":0}]}
            ],"root":0,"commands":["#,
            r#"["begin_custom_deserialization_from_shape"],"#,
            r#"["begin_custom_deserialization_from_shape"]]}"#,
        ),
        1_000,
        (
            1,
            r#"{"error":{"command":1000,"detail":"a","kind":"UninitializedValue","path":""},"released":[]}"#,
        ),
        r#"{"fault":"TooLarge","what":"depth"}"#,
    ),
];

/// Runs the document with `count` parts.
fn check_count(
    rt: &(impl Abort + AllocGlobal),
    name: &str,
    (front, part, back): (&str, &str, &str),
    count: usize,
    (status, want): (u8, &str),
) {
    let document = [(front, 1), (part, count.saturating_sub(1)), (back, 1)];
    check_parts(rt, name, &document, status, &[(want, 1)]);
}

/// That of bytes stands below; that of tokens among the faults of documents, beside one more.
#[test]
fn each_limit_is_the_largest_size_that_is_admitted(rt: HostRuntime) {
    for (name, parts, limit, at, past) in LIMITS {
        check_count(&rt, name, parts, limit, at);
        check_count(&rt, name, parts, limit.saturating_add(1), (2, past));
    }
    let document = [
        (
            r#"{"shapes":[{"name":"a","def":"u32"}],"root":0,"commands":["#,
            1,
        ),
        (r#"["begin_custom_deserialization_from_shape"],"#, 1_001),
        (r#"["set",0,7]]}"#, 1),
    ];
    let want = [(r#"{"ok":7,"released":[]}"#, 1)];
    check_parts(&rt, "without proxies", &document, 0, &want);
}

#[test]
fn an_input_has_at_most_8_388_608_bytes(rt: HostRuntime) {
    let most = [(SPACES, 131_072)];
    let at = [(r#"{"fault":"NotJson"}"#, 1)];
    check_parts(&rt, "as many bytes as there may be", &most, 2, &at);
    let past = [(r#"{"fault":"TooLong"}"#, 1)];
    let more = [(SPACES, 131_072), (" ", 1)];
    check_parts(&rt, "one more", &more, 2, &past);
}
