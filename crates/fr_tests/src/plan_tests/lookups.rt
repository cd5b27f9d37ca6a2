//! What a plan tells of a type: its fields and variants by name, the nodes of its parts and
//! proxies, and where it refers back. The tables are read from documents, and the type is the
//! second of each.
ghost use Rattle.std.specs.Prelude.{◌<◌, length};
ghost use Rattle.fr_frame.specs.Asking.{IsPlanned};

use crate::texts::{planned, repeated, table_of};
use fr_plan::{
    FieldPlan, NodeId, TypePlanCore, TypePlanNode, TypePlanNodeKind, VariantPlanMeta,
    law_plan_lookups,
};
use fr_rules::FieldLookup;
use fr_shape::ShapeId;
use std::alloc::Global;
use std::process::Abort;

/// The plans of a struct's fields. Of any other shape there are none.
fn fields_of<'a>(plan: &'a TypePlanCore, node: NodeId) -> &'a [FieldPlan]
    requires planned { IsPlanned plan.now node }
{
    law_plan_lookups();
    match plan.struct_plan_by_id(node) {
        Some(described) => plan.fields(described.fields),
        None => &[],
    }
}

/// The plans of an enum's variants. Of any other shape there are none.
fn variants_of<'a>(plan: &'a TypePlanCore, node: NodeId) -> &'a [VariantPlanMeta]
    requires planned { IsPlanned plan.now node }
{
    law_plan_lookups();
    match plan.enum_plan_by_id(node) {
        Some(described) => plan.variants(described.variants),
        None => &[],
    }
}

/// The number of the field of this name, by a lookup of few names.
fn found(lookup: &FieldLookup, name: &str) -> Option<usize> {
    match lookup {
        FieldLookup::Small(_) => lookup.find_small(name),
        FieldLookup::PrefixBuckets { .. } => None,
    }
}

/// The number of a node's shape, if there is such a node.
fn shape_at(plan: &TypePlanCore, node: Option<NodeId>) -> Option<u32> {
    let node = node?;
    if (node.0 as usize) < plan.node_count() {
        Some(plan.node(node).shape.0)
    } else {
        None
    }
}

/// A person's name and age, and an email that has a default.
const PERSON: &str = r#"[
    {"name":"String","def":"String"},
    {"name":"Person","def":{"struct":[
        {"name":"name","shape":0},
        {"name":"age","shape":2},
        {"name":"email","shape":3}
    ]}},
    {"name":"u32","def":"u32"},
    {"name":"OptString","def":{"option":0},"preset":null}
]"#;

#[test]
fn fields_are_found_by_name(rt: HostRuntime) {
    let table = table_of(&rt, rt.alloc(), PERSON);
    let plan = planned(&rt, rt.alloc(), &table);
    let Some(person) = plan.as_struct_plan(plan.root()) else {
        panic!(rt; "no struct");
    };
    for (name, want) in [
        ("name", Some(0)),
        ("age", Some(1)),
        ("email", Some(2)),
        ("unknown", None),
    ] {
        assert!(rt; found(&person.field_lookup, name) == want, "{name}");
    }
}

#[test]
fn a_field_without_a_default_is_required(rt: HostRuntime) {
    let table = table_of(&rt, rt.alloc(), PERSON);
    let plan = planned(&rt, rt.alloc(), &table);
    assert!(rt; !plan.root().has_default);
    let fields = fields_of(&plan, plan.root_id());
    assert!(rt; fields.len() == 3);
    for (i, field) in fields.iter().enumerate() {
        assert!(rt; field.is_required() == (i < 2));
    }
}

#[test]
fn an_option_has_a_node_of_its_content(rt: HostRuntime) {
    let table = table_of(&rt, rt.alloc(), PERSON);
    let plan = planned(&rt, rt.alloc(), &table);
    let Some(email) = plan.struct_field_node(plan.root(), 2) else {
        panic!(rt; "no field");
    };
    assert!(rt; matches!(email.kind, TypePlanNodeKind::Option));
    let Some(content) = plan.option_inner_node(email) else {
        panic!(rt; "no content");
    };
    assert!(rt; matches!(content.kind, TypePlanNodeKind::Scalar));
}

/// A variant of each kind: without fields, with one, and with one that has a name.
const CHOICE: &str = r#"[
    {"name":"u32","def":"u32"},
    {"name":"Choice","def":{"enum":{"repr":"U8","variants":[
        {"name":"Unit","kind":"unit","fields":[],"discriminant":0},
        {"name":"Tuple","kind":"tuple","fields":[{"name":"0","shape":0}],"discriminant":1},
        {"name":"Struct","fields":[{"name":"value","shape":2}],"discriminant":2}
    ]}}},
    {"name":"String","def":"String"}
]"#;

#[test]
fn variants_are_found_by_name(rt: HostRuntime) {
    let table = table_of(&rt, rt.alloc(), CHOICE);
    let plan = planned(&rt, rt.alloc(), &table);
    let Some(choice) = plan.as_enum_plan(plan.root()) else {
        panic!(rt; "no enum");
    };
    assert!(rt; choice.num_variants == 3);
    for (name, want) in [
        ("Unit", Some(0)),
        ("Tuple", Some(1)),
        ("Struct", Some(2)),
        ("Unknown", None),
    ] {
        assert!(rt; choice.variant_lookup.find(name) == want, "{name}");
    }
}

#[test]
fn a_variants_fields_are_found_by_name(rt: HostRuntime) {
    let table = table_of(&rt, rt.alloc(), CHOICE);
    let plan = planned(&rt, rt.alloc(), &table);
    let variants = variants_of(&plan, plan.root_id());
    assert!(rt; variants.len() == 3);
    let Some(last) = variants.last() else {
        panic!(rt; "no variant");
    };
    assert!(rt; found(&last.field_lookup, "value") == Some(0));
    assert!(rt; found(&last.field_lookup, "0") == None);
}

#[test]
fn a_list_has_a_node_of_its_items(rt: HostRuntime) {
    let shapes = r#"[{"name":"u32","def":"u32"},{"name":"Numbers","def":{"list":0}}]"#;
    let table = table_of(&rt, rt.alloc(), shapes);
    let plan = planned(&rt, rt.alloc(), &table);
    let Some(item) = plan.list_item_node(plan.root()) else {
        panic!(rt; "no items");
    };
    assert!(rt; matches!(item.kind, TypePlanNodeKind::Scalar));
}

/// A field that goes by another name, one of which there are at least 5, and an enum.
const DECLARED: &str = r#"[
    {"name":"u32","def":"u32"},
    {"name":"Declared","def":{"struct":[
        {"name":"plain","shape":0},
        {"name":"old","rename":"new","shape":0,"validators":[{"min":5}]},
        {"name":"choice","shape":2}
    ]}},
    {"name":"Choice","def":{"enum":{"repr":"U8","variants":[
        {"name":"Unit","kind":"unit","fields":[],"discriminant":0},
        {"name":"Struct","fields":[{"name":"a","shape":0},{"name":"b","shape":0}],"discriminant":1}
    ]}}}
]"#;

/// A field by the name that it is declared under, and not by that which it goes by.
#[test]
fn declared_fields_and_validators_are_found(rt: HostRuntime) {
    let table = table_of(&rt, rt.alloc(), DECLARED);
    let plan = planned(&rt, rt.alloc(), &table);
    for (shape, variant, name, want) in [
        (1, None, "plain", Some(0)),
        (1, None, "old", Some(1)),
        (1, None, "new", None),
        (2, Some(0), "b", None),
        (2, Some(1), "b", Some(1)),
        (2, Some(2), "b", None),
    ] {
        let at = plan.declared_field(&table, ShapeId(shape), variant, name);
        assert!(rt; at == want);
    }
    assert!(rt; plan.has_validators(ShapeId(1), None));
    assert!(rt; !plan.has_validators(ShapeId(2), Some(1)));
}

/// Links from a struct back to itself, each with the name of what it leads through.
const LINKS: [(&str, &str); 6] = [
    ("an option", r#"{"option":1}"#),
    ("a list", r#"{"list":1}"#),
    ("a map's value", r#"{"map":[0,1]}"#),
    ("a set", r#"{"set":1}"#),
    ("a result", r#"{"result":[0,1]}"#),
    ("a pointer", r#"{"pointer":{"known":"Box","pointee":1}}"#),
];

/// Ends the test where a node that refers back doesn't stand for the root, a struct.
fn check_own(rt: &impl Abort, plan: &TypePlanCore, node: &TypePlanNode, id: NodeId)
    requires { id.0 < length plan.now.nodes }
{
    let own = plan.resolve_backref(node);
    assert!(rt; matches!(own.kind, TypePlanNodeKind::Struct(_)));
    assert!(rt; plan.resolve_backref_id(id) == plan.root_id());
}

/// How many nodes refer back. Each of them stands for the root, which is a struct.
fn count_back_references(rt: &impl Abort, plan: &TypePlanCore) -> u32 {
    let mut count = 0u32;
    for i in 0..plan.node_count() {
        let Ok(number) = u32::try_from(i) else {
            panic!(rt; "too many nodes");
        };
        let node = plan.node(NodeId(number));
        if matches!(node.kind, TypePlanNodeKind::BackRef(_)) {
            check_own(rt, plan, node, NodeId(number));
            count = count.saturating_add(1);
        }
    }
    count
}

/// A struct that leads back to itself through a link, which stands behind it.
const OWN: (&str, &str) = (
    r#"[{"name":"u32","def":"u32"},{"name":"Own","def":{"struct":[{"name":"next","shape":2}]}},
        {"name":"Link","def":"#,
    "}]",
);

fn check_link(rt: &impl Abort, alloc: Global, name: &str, link: &str) {
    let shapes = repeated(rt, alloc, OWN, &[link], 1);
    let table = table_of(rt, alloc, shapes.as_str());
    let plan = planned(rt, alloc, &table);
    assert!(rt; count_back_references(rt, &plan) == 1, "{name}");
}

#[test]
fn a_struct_that_holds_itself_refers_back_once(rt: HostRuntime) {
    for (name, link) in LINKS {
        check_link(&rt, rt.alloc(), name, link);
    }
}

/// A shape with proxies for all formats and for two, and a field of another with one for a format
/// alone.
const PROXIES: &str = r#"[
    {"name":"u32","def":"u32"},
    {"name":"Proxied","def":{"struct":[
        {"name":"a","shape":0,"format_proxies":[{"format":"json","source":2,"convert":0}]}
    ]},"proxy":{"source":3,"convert":0},"format_proxies":[
        {"format":"json","source":2,"convert":0},
        {"format":"toml","source":0,"convert":0}
    ]},
    {"name":"String","def":"String"},
    {"name":"char","def":"char"}
]"#;

#[test]
fn a_format_takes_its_own_proxy_or_that_of_all(rt: HostRuntime) {
    let table = table_of(&rt, rt.alloc(), PROXIES);
    let plan = planned(&rt, rt.alloc(), &table);
    let proxies = &plan.root().proxies;
    for (format, shape) in [
        (None, 3),
        (Some("json"), 2),
        (Some("toml"), 0),
        (Some("yaml"), 3),
    ] {
        assert!(rt; shape_at(&plan, proxies.node_for(format)) == Some(shape));
    }
    assert!(rt; proxies.has_any() && !proxies.is_empty());
}

#[test]
fn a_format_without_a_proxy_has_no_node(rt: HostRuntime) {
    let table = table_of(&rt, rt.alloc(), PROXIES);
    let plan = planned(&rt, rt.alloc(), &table);
    let Some(field) = plan.struct_field_node(plan.root(), 0) else {
        panic!(rt; "no field");
    };
    for (format, shape) in [(None, None), (Some("json"), Some(2)), (Some("yaml"), None)] {
        assert!(rt; shape_at(&plan, field.proxies.node_for(format)) == shape);
    }
    let own = plan.resolve_backref(field);
    assert!(rt; own.proxies.is_empty() && own.proxies.node_for(None).is_none());
}
