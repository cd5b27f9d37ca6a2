//! What a builder tells of itself, at places of each kind and in both modes.
use super::bench::{check_value, give_up, start};
use super::calls::{Words, after, number};
use super::grounds::{Ground, ground_of};
use fr_own_hooks::OwnHooks;
use fr_partial::{Partial, PlaceView};
use fr_plan::DeserStrategy;
use fr_shape::{Field, Reason, ReflectErrorKind};
use std::process::Abort;

/// A number, 5 by default; a struct without fields; containers of numbers; a struct of two numbers
/// and an empty one, the second of which goes by another name and has an alias; an enum, of which a
/// variant goes by another name, and another one has none; and the root, with a field of each.
const SHAPES: &str = r#"{"shapes":[
    {"name":"u32","def":"u32","preset":5},
    {"name":"Empty","def":{"struct":[]}},
    {"name":"Opt","def":{"option":0}},
    {"name":"Pair","def":{"array":[0,2]}},
    {"name":"Point","def":{"struct":[
        {"name":"x","shape":0},
        {"name":"y","shape":0,"rename":"why","alias":"vertical"},
        {"name":"e","shape":1}
    ]}},
    {"name":"Choice","def":{"enum":{"repr":"U8","variants":[
        {"name":"A","fields":[],"discriminant":0},
        {"name":"B","rename":"Bee","fields":[
            {"name":"b","shape":0},
            {"name":"e","shape":1}
        ],"discriminant":1},
        {"name":"O","fields":[],"discriminant":2,"other":true}
    ]}}},
    {"name":"Res2","def":{"result":[0,2]}},
    {"name":"Boxed","def":{"pointer":{"known":"Box","pointee":4}}},
    {"name":"Nums","def":{"list":0}},
    {"name":"Map","def":{"map":[0,0]}},
    {"name":"Slice","def":{"slice":0}},
    {"name":"Shared","def":{"pointer":{"known":"Arc","pointee":10}}},
    {"name":"Any","def":"dynamic"},
    {"name":"Root","def":{"struct":[
        {"name":"p","shape":4},
        {"name":"c","shape":5},
        {"name":"o","shape":2},
        {"name":"r","shape":6},
        {"name":"b","shape":7},
        {"name":"a","shape":3},
        {"name":"l","shape":8},
        {"name":"m","shape":9},
        {"name":"s","shape":11},
        {"name":"d","shape":12},
        {"name":"q","shape":0,"proxy":{"source":4,"convert":0}}
    ]}},
    {"name":"Node","def":{"struct":[{"name":"next","shape":15}]}},
    {"name":"Next","def":{"option":16}},
    {"name":"Link","def":{"pointer":{"known":"Box","pointee":14}}}
],"root":13,"commands":[]}"#;

/// In each row: the root's shape and the words of the calls; the fields that the place is and is nearest to; the
/// name of the selected variant and the number of its plan; which plan there is, of a struct or an
/// enum, and how many plans of fields; the strategy, and whether there are proxies; whether a
/// pointer to a slice is begun; whether the fields 0, 1 and 2 are set (t and f; n: no such field; p:
/// no fields); the number of the field that goes by `why`, and of the variant `Bee`; and what is
/// seen of the value: all of it, or the variant's number and the children.
const ROWS: &str = r#"
    13 ; - - - - s 11 Struct n n fff - - ; -
    13 bd ; - - - - s 11 Struct n n fff - - ; -
    13 f:p ; p p - - s 3 Struct n n fff 1 - ; -
    13 f:p n:0 ; x x - - - - Scalar n n fff - - ; -
    13 f:p n:0 def ; x x - - - - Scalar n n ttt - - ; whole 5
    13 bd f:p n:0 def ; x x - - - - Scalar n n ttt - - ; whole 5
    13 f:p n:2 ; e e - - s 0 Struct n n ttt - - ; whole []
    13 f:p n:0 def e ; p p - - s 3 Struct n n tff 1 - ; -
    13 f:p n:0 def e n:1 num:7 e n:2 e ; p p - - s 3 Struct n n ttt 1 - ; - 5 7 []
    13 bd f:p n:0 def e n:1 num:7 e n:2 e ; p p - - s 3 Struct n n ttt 1 - ; - 5 7 []
    13 bd f:p n:0 e ; p p - - s 3 Struct n n tff 1 - ; -
    13 bd f:p n:0 e n:1 num:7 e n:2 e ; p p - - s 3 Struct n n ttt 1 - ; -
    13 f:p n:0 def e n:1 num:7 e n:2 e e ; - - - - s 11 Struct n n tff - - ; -
    13 f:c ; c c - - e - Enum n n fff - 1 ; -
    13 f:c v:0 ; c c A 0 e 0 Enum n n nnn - 1 ; 0
    13 f:c v:1 ; c c B 1 e 2 Enum n n ftn - 1 ; -
    13 bd f:c v:1 ; c c B 1 e 2 Enum n n ftn - 1 ; -
    13 f:c v:1 n:0 ; b b - - - - Scalar n n fff - - ; -
    13 f:c v:1 n:0 num:7 e ; c c B 1 e 2 Enum n n ttn - 1 ; -
    13 f:c v:1 n:0 num:7 e n:1 e ; c c B 1 e 2 Enum n n ttn - 1 ; 1 7 []
    13 bd f:c v:1 n:0 num:7 e n:1 e ; c c B 1 e 2 Enum n n ttn - 1 ; 1 7 []
    13 f:c v:2 ; c c O 2 e 0 Enum n n nnn - 1 ; 2
    13 f:c v:0 e ; - - - - s 11 Struct n n ftf - - ; -
    13 f:o ; o o - - - - Option n n fff - - ; -
    13 f:o some ; - o - - - - Scalar n n fff - - ; -
    13 bd f:o some ; - o - - - - Scalar n n fff - - ; -
    13 f:o some num:7 e ; o o - - - - Option n n tnn - - ; 0 7
    13 bd f:o some num:7 e ; o o - - - - Option n n tnn - - ; 0 7
    13 bd f:o some e ; o o - - - - Option n n tnn - - ; -
    13 f:r ok num:7 e ; r r - - - - Result n n tnn - - ; 0 7
    13 f:r err some num:7 e e ; r r - - - - Result n n tnn - - ; 1 {"s":7}
    13 bd f:r err some num:7 e e ; r r - - - - Result n n tnn - - ; -
    13 f:r err some ; - r - - - - Scalar n n fff - - ; -
    13 f:b ; b b - - - - Pointer n n fff - - ; -
    13 f:b ptr ; - b - - s 3 Struct n n fff 1 - ; -
    13 f:b ptr n:0 def e n:1 num:7 e n:2 e e ; b b - - - - Pointer n n ppp - - ; - [5,7,[]]
    13 bd f:b ptr e ; b b - - - - Pointer n n ppp - - ; -
    13 f:a ; a a - - - - Array n n fff - - ; -
    13 f:a arr ; a a - - - - Array n n ppp - - ; -
    13 f:a n:0 ; - a - - - - Scalar n n fff - - ; -
    13 f:a n:0 num:7 e n:1 num:7 e ; a a - - - - Array n n ppp - - ; - 7 7
    13 bd f:a n:0 num:7 e n:1 num:7 e ; a a - - - - Array n n ppp - - ; - 7 7
    13 f:l list ; l l - - - - List n n ppp - - ; -
    13 f:l list item num:7 e ; l l - - - - List n n ppp - - ; -
    13 f:m map ; m m - - - - Map n n ppp - - ; -
    13 f:s ; s s - - - - Pointer n n fff - - ; -
    13 f:s ptr ; s s - - - - Pointer n y ppp - - ; -
    13 f:s ptr item ; - s - - - - Scalar n n fff - - ; -
    13 bd f:s ptr item num:7 e e ; s s - - - - Pointer n y ppp - - ; -
    13 f:s ptr item num:7 e e ; s s - - - - Pointer n n ttt - - ; whole {"p":{"l":[7]}}
    13 f:d ; d d - - - - DynamicValue n n fff - - ; -
    13 f:q ; q q - - - - FieldProxy y n fff - - ; -
    13 f:q proxy ; - q - - s 3 Struct n n fff 1 - ; -
    13 f:q proxy n:1 ; y y - - - - Scalar n n fff - - ; -
    13 bd f:q proxy e ; q q - - - - FieldProxy y n ppp - - ; -
    14 ; - - - - s 1 Struct n n fff - - ; -
    14 f:next some ; - next - - - - Pointer n n fff - - ; -
    14 f:next some ptr ; - next - - s 1 Struct n n fff - - ; -
    14 f:next some ptr f:next ; next next - - - - Option n n fff - - ; -
"#;

/// How many rows there are.
const ROW_COUNT: usize = 59;

impl<'a> Words<'a> {
    /// Ends the test where another word is next.
    fn check(&mut self, rt: &impl Abort, row: &str, got: &str) {
        let want = self.next();
        assert!(rt; want == Some(got), "{row}: {got}");
    }

    /// The same of a number, if there is one.
    fn check_number(&mut self, rt: &impl Abort, row: &str, got: Option<usize>) {
        let want = match self.next() {
            Some("-") => None,
            Some(word) => word.parse::<usize>().ok(),
            None => panic!(rt; "a row that ends early"),
        };
        assert!(rt; want == got, "{row}");
    }
}

fn name_of(field: Option<&Field>) -> &str {
    match field {
        Some(field) => field.name.as_str(),
        None => "-",
    }
}

fn truth(is: bool) -> &'static str {
    if is { "y" } else { "n" }
}

fn strategy_name(strategy: Option<&DeserStrategy>) -> &'static str {
    match strategy {
        Some(DeserStrategy::FieldProxy) => "FieldProxy",
        Some(DeserStrategy::Pointer { .. }) => "Pointer",
        Some(DeserStrategy::Scalar { .. }) => "Scalar",
        Some(DeserStrategy::Struct) => "Struct",
        Some(DeserStrategy::Enum) => "Enum",
        Some(DeserStrategy::Option { .. }) => "Option",
        Some(DeserStrategy::Result { .. }) => "Result",
        Some(DeserStrategy::List { .. }) => "List",
        Some(DeserStrategy::Map { .. }) => "Map",
        Some(DeserStrategy::Array { .. }) => "Array",
        Some(DeserStrategy::DynamicValue) => "DynamicValue",
        Some(_) => "another",
        None => "none",
    }
}

/// Whether a field is set: a letter.
fn set_letter(partial: &Partial<'_, OwnHooks>, i: usize) -> char {
    match partial.is_field_set(i) {
        Ok(true) => 't',
        Ok(false) => 'f',
        Err(
            ReflectErrorKind::InvalidOperation {
                reason: Reason::NoSuchField,
            },
        ) => 'n',
        Err(
            ReflectErrorKind::InvalidOperation {
                reason: Reason::NotAProduct,
            },
        ) => 'p',
        Err(_) => '?',
    }
}

/// Ends the test where a look at a place shows another value than the words that are left tell.
fn check_view(rt: &(impl Abort + AllocGlobal), row: &str, words: &mut Words, view: &PlaceView<'_>) {
    if let Some(value) = view.whole() {
        words.check(rt, row, "whole");
        assert!(rt; view.len() == 0 && view.get(0).is_none() && view.variant().is_none());
        match words.next() {
            Some(json) => check_value(rt, rt.alloc(), value, json),
            None => panic!(rt; "a row that ends early"),
        }
        return;
    }
    let variant = match view.variant() {
        Some(number) => Some(number as usize),
        None => None,
    };
    words.check_number(rt, row, variant);
    for i in 0..view.len() {
        match (words.next(), view.get(i)) {
            (Some(json), Some(child)) => check_value(rt, rt.alloc(), child, json),
            _ => panic!(rt; "{row}: no child {i}"),
        }
    }
    assert!(rt; view.get(view.len()).is_none());
}

/// Ends the test where the plan's readings don't agree with one another.
fn check_plan(rt: &impl Abort, row: &str, partial: &Partial<'_, OwnHooks>) {
    let plan = partial.type_plan_core();
    let Some(id) = partial.plan_node_id() else {
        panic!(rt; "{row}: no node");
    };
    let Some(node) = partial.plan_node() else {
        panic!(rt; "{row}: no node");
    };
    assert!(rt; (id.0 as usize) < plan.node_count(), "{row}");
    assert!(rt; plan.node(id).shape == node.shape, "{row}");
    assert!(rt; node.shape == partial.shape(), "{row}");
    assert!(rt; partial.try_shape() == Some(partial.shape()) && partial.is_active());
    assert!(rt; partial.current_field().is_none());
}

/// Ends the test where the builder tells something else than the row.
fn check_told(
    rt: &(impl Abort + AllocGlobal),
    row: &str,
    words: &mut Words,
    partial: &Partial<'_, OwnHooks>,
) {
    words.check(rt, row, name_of(partial.parent_field()));
    words.check(rt, row, name_of(partial.nearest_field()));
    let selected = match partial.selected_variant() {
        Some(variant) => variant.name.as_str(),
        None => "-",
    };
    words.check(rt, row, selected);
    let planned = match partial.selected_variant_plan() {
        Some(plan) => Some(plan.variant as usize),
        None => None,
    };
    words.check_number(rt, row, planned);
    let kind = match (partial.struct_plan(), partial.enum_plan()) {
        (Some(_), None) => "s",
        (None, Some(_)) => "e",
        (None, None) => "-",
        (Some(_), Some(_)) => "both",
    };
    words.check(rt, row, kind);
    let fields = match partial.field_plans() {
        Some(plans) => Some(plans.len()),
        None => None,
    };
    words.check_number(rt, row, fields);
    words.check(rt, row, strategy_name(partial.deser_strategy()));
    let proxies = match partial.proxy_nodes() {
        Some(nodes) => nodes.has_any(),
        None => panic!(rt; "{row}: no proxies"),
    };
    words.check(rt, row, truth(proxies));
    words.check(rt, row, truth(partial.is_building_smart_ptr_slice()));
    check_set(rt, row, words, partial);
    words.check_number(rt, row, partial.field_index("why"));
    let found = match partial.find_variant("Bee") {
        Some((number, variant)) => {
            assert!(rt; variant.name.as_str() == "B");
            Some(number)
        }
        None => None,
    };
    words.check_number(rt, row, found);
}

/// Ends the test where other fields are set than the next word tells.
fn check_set(rt: &impl Abort, row: &str, words: &mut Words, partial: &Partial<'_, OwnHooks>) {
    let Some(letters) = words.next() else {
        panic!(rt; "a row that ends early");
    };
    let mut i = 0usize;
    for letter in letters.chars() {
        assert!(rt; set_letter(partial, i) == letter, "{row}: field {i}");
        i = i.saturating_add(1);
    }
    assert!(rt; i == 3);
}

/// Makes a row's calls, and checks what the builder tells then.
fn check_row(rt: &(impl Abort + AllocGlobal), ground: &Ground, row: &str) {
    let Some((calls, told)) = row.split_once(';') else {
        panic!(rt; "a row without an answer");
    };
    let Some((told, seen)) = told.split_once(';') else {
        panic!(rt; "a row without a value");
    };
    let calls = calls.trim_start();
    let Some((root, calls)) = calls.split_once(' ') else {
        panic!(rt; "a row without a root");
    };
    let root = start(rt, rt.alloc(), ground, number(rt, root));
    let bench = after(rt, root, calls);
    check_plan(rt, row, &bench.partial);
    check_told(rt, row, &mut Words { rest: told }, &bench.partial);
    let mut seen = Words { rest: seen };
    match bench.partial.initialized_value() {
        Some(view) => {
            assert!(rt; view.shape() == bench.partial.shape());
            check_view(rt, row, &mut seen, &view);
        }
        None => seen.check(rt, row, "-"),
    }
    assert!(rt; seen.next().is_none(), "{row}");
    give_up(rt, bench);
}

#[test]
fn a_place_is_told_as_it_is(rt: HostRuntime) {
    let ground = ground_of(&rt, SHAPES);
    let mut found = 0usize;
    for row in ROWS.lines() {
        if row.is_empty() {
            continue;
        }
        check_row(&rt, &ground, row);
        found = found.saturating_add(1);
    }
    assert!(rt; found == ROW_COUNT);
}

/// Tuples in tuples, the innermost of them empty.
const TUPLES: &str = r#"{"shapes":[
    {"name":"()","def":{"tuple":[]}},
    {"name":"((),)","def":{"tuple":[{"name":"0","shape":0}]}},
    {"name":"(((),),)","def":{"tuple":[{"name":"0","shape":1}]}},
    {"name":"((((),),),)","def":{"tuple":[{"name":"0","shape":2}]}},
    {"name":"((), (), ())","def":{"tuple":[
        {"name":"0","shape":0},
        {"name":"1","shape":0},
        {"name":"2","shape":0}
    ]}},
    {"name":"((), ())","def":{"tuple":[{"name":"0","shape":0},{"name":"1","shape":0}]}},
    {"name":"(((), ()), ())","def":{"tuple":[{"name":"0","shape":5},{"name":"1","shape":0}]}}
],"root":0,"commands":[]}"#;

/// No field of a tuple is set before it is entered, empty or not. A tuple without fields is whole.
#[test]
fn fields_of_nested_empty_tuples_are_not_set(rt: HostRuntime) {
    let ground = ground_of(&rt, TUPLES);
    for (root, count) in [(2u32, 1usize), (3, 1), (4, 3), (6, 2)] {
        let bench = start(&rt, rt.alloc(), &ground, root);
        for i in 0..count {
            assert!(rt; set_letter(&bench.partial, i) == 'f');
        }
        give_up(&rt, bench);
    }
    let bench = start(&rt, rt.alloc(), &ground, 0);
    assert!(rt; set_letter(&bench.partial, 0) == 't');
    give_up(&rt, bench);
    let bench = after(&rt, start(&rt, rt.alloc(), &ground, 4), "n:1 e");
    let tuple = &bench.partial;
    assert!(rt; set_letter(tuple, 0) == 'f' && set_letter(tuple, 1) == 't');
    assert!(rt; set_letter(tuple, 2) == 'f' && set_letter(tuple, 3) == 'n');
    give_up(&rt, bench);
}
