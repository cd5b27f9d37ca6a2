//! The walk that builds the nodes of a shape and of all that it is made of. `depth` bounds how far
//! down it goes.
ghost use Rattle.std.specs.Prelude.{Some, None, slice_get, option_to_list, length};
ghost use Rattle.fr_plan.specs.Build.{build, build_new, each_built, field_built, fields_built, children_built, fields_from, variant_fields_from, none_yet};
ghost use Rattle.fr_plan.specs.Results.{Gives, GivesAll, GivesMore};

use crate::nodes::NodeId;
use crate::outlines::{Mark, Outline, Role, Walk};
use crate::walking::{Container, built_from, finish, sources_of};
use fr_shape::{Def, Field, FieldRef, Items, PlanError, Shape, ShapeId, ShapeTable, VariantDef};
use std::alloc::Global;

/// Builds a shape: its node is made, or was made before, or refers back to one that is being made.
#[cycle(building)]
pub(crate) fn build_shape(
    alloc: Global,
    table: &ShapeTable,
    walk: &mut Walk,
    depth: usize,
    id: ShapeId,
) -> Result<NodeId, PlanError>
    ensures { Gives (build table.now depth walk.old id) result walk.new }
{
    if depth == 0 {
        return walk.refer_back(alloc, id);
    }
    match walk.mark_of(id) {
        Some(Mark::Done(node)) => Ok(node),
        Some(Mark::Unseen) => build_new(alloc, table, walk, depth - 1, id),
        Some(Mark::Building) => walk.refer_back(alloc, id),
        None => walk.refer_back(alloc, id),
    }
}

/// Builds a shape that was not met before.
#[cycle(building)]
#[tactic(auto, unfolding(crate::specs::Build::build_new))]
fn build_new(
    alloc: Global,
    table: &ShapeTable,
    walk: &mut Walk,
    depth: usize,
    id: ShapeId,
) -> Result<NodeId, PlanError>
    ensures { Gives
        (build_new (λ then next. build table.now depth then next) walk.old id
        (slice_get table.now id.0))
        result walk.new }
{
    let Some(shape) = table.get(id) else {
        return walk.refer_back(alloc, id);
    };
    walk.mark(id, Mark::Building);
    let Ok(ids) = sources_of(alloc, &shape.proxy, &shape.format_proxies) else {
        return Err(PlanError::OutOfMemory);
    };
    let sources = match build_each(alloc, table, walk, depth, ids.as_slice()) {
        Ok(sources) => sources,
        Err(refused) => return Err(refused),
    };
    let children = match build_children(alloc, table, walk, depth, id, shape) {
        Ok(children) => children,
        Err(refused) => return Err(refused),
    };
    finish(walk, id, shape, sources, children)
}

/// Builds the children of a shape, left to right.
#[cycle(building)]
#[tactic(auto, unfolding(crate::specs::Build::children_built))]
fn build_children(
    alloc: Global,
    table: &ShapeTable,
    walk: &mut Walk,
    depth: usize,
    id: ShapeId,
    shape: &Shape,
) -> Result<Items<NodeId>, PlanError>
    ensures { GivesAll
        (children_built (λ then next. build table.now depth then next) walk.old id
        shape.now.def shape.now)
        result walk.new }
{
    match &shape.def {
        Def::Struct(described) => {
            let of = Container {
                shape: id,
                variant: None,
            };
            let fields = described.fields.as_slice();
            let Ok(room) = Vec::with_capacity(alloc, fields.len()) else {
                return Err(PlanError::OutOfMemory);
            };
            let mut nodes = Items::from_vec(room);
            match build_fields(alloc, table, walk, depth, of, fields, &mut nodes) {
                Ok(()) => Ok(nodes),
                Err(refused) => Err(refused),
            }
        }
        Def::Enum(described) => {
            let variants = described.variants.as_slice();
            build_variants(alloc, table, walk, depth, id, variants)
        }
        Def::Scalar(_) | Def::Str | Def::Other => {
            build_wrapped(alloc, table, walk, depth, shape.inner)
        }
        Def::Opaque | Def::Undefined => {
            build_wrapped(alloc, table, walk, depth, built_from(shape))
        }
        Def::Pointer(pointer) => build_wrapped(alloc, table, walk, depth, pointer.pointee),
        Def::Option(t) | Def::List(t) | Def::Set(t) | Def::Array(t, _) | Def::Slice(t) => {
            build_each(alloc, table, walk, depth, &[*t])
        }
        Def::Result(t, e) | Def::Map(t, e) => build_each(alloc, table, walk, depth, &[*t, *e]),
        Def::Dynamic => Ok(Items::new(alloc)),
    }
}

/// Builds the shape that another wraps, where it wraps one.
#[cycle(building)]
fn build_wrapped(
    alloc: Global,
    table: &ShapeTable,
    walk: &mut Walk,
    depth: usize,
    id: Option<ShapeId>,
) -> Result<Items<NodeId>, PlanError>
    ensures { GivesAll
        (each_built (λ then next. build table.now depth then next) (none_yet walk.old)
        (option_to_list id))
        result walk.new }
{
    match id {
        Some(id) => build_each(alloc, table, walk, depth, &[id]),
        None => Ok(Items::new(alloc)),
    }
}

/// Builds shapes one after the other.
#[cycle(building)]
fn build_each(
    alloc: Global,
    table: &ShapeTable,
    walk: &mut Walk,
    depth: usize,
    ids: &[ShapeId],
) -> Result<Items<NodeId>, PlanError>
    ensures { GivesAll
        (each_built (λ then next. build table.now depth then next) (none_yet walk.old) ids.now)
        result walk.new }
{
    let mut nodes = Items::new(alloc);
    for id in ids {
        match build_shape(alloc, table, walk, depth, *id) {
            Ok(node) => {
                let Ok(()) = nodes.push(node) else {
                    return Err(PlanError::OutOfMemory);
                };
            }
            Err(refused) => return Err(refused),
        }
    }
    Ok(nodes)
}

/// Builds the fields of all variants, one after the other.
#[cycle(building)]
fn build_variants(
    alloc: Global,
    table: &ShapeTable,
    walk: &mut Walk,
    depth: usize,
    id: ShapeId,
    variants: &[VariantDef],
) -> Result<Items<NodeId>, PlanError>
    ensures { GivesAll
        (fields_built (λ then next. build table.now depth then next) (none_yet walk.old)
        (variant_fields_from id 0 variants.now))
        result walk.new }
{
    let mut nodes = Items::new(alloc);
    for i in 0..variants.len() {
        let Ok(number) = u32::try_from(i) else {
            return Err(PlanError::OutOfMemory);
        };
        let of = Container {
            shape: id,
            variant: Some(number),
        };
        let fields = variants[i].fields.as_slice();
        match build_fields(alloc, table, walk, depth, of, fields, &mut nodes) {
            Ok(()) => {}
            Err(refused) => return Err(refused),
        }
    }
    Ok(nodes)
}

/// Builds fields one after the other, and puts their nodes behind `nodes`.
#[cycle(building)]
fn build_fields(
    alloc: Global,
    table: &ShapeTable,
    walk: &mut Walk,
    depth: usize,
    of: Container,
    fields: &[Field],
    nodes: &mut Items<NodeId>,
) -> Result<(), PlanError>
    ensures { GivesMore
        (fields_built (λ then next. build table.now depth then next)
        (record { walk = walk.old; nodes = nodes.old })
        (fields_from of.shape of.variant 0 fields.now))
        result walk.new nodes.new }
{
    for i in 0..fields.len() {
        let Ok(index) = u32::try_from(i) else {
            return Err(PlanError::OutOfMemory);
        };
        let meant = FieldRef {
            shape: of.shape,
            variant: of.variant,
            index,
        };
        match build_field(alloc, table, walk, depth, meant, &fields[i]) {
            Ok(node) => {
                let Ok(()) = nodes.push(node) else {
                    return Err(PlanError::OutOfMemory);
                };
            }
            Err(refused) => return Err(refused),
        }
    }
    Ok(())
}

/// Builds a field: the sources of its proxies, its shape, and, where it has proxies, a node of its
/// own.
#[cycle(building)]
#[tactic(auto, unfolding(crate::specs::Build::field_built))]
fn build_field(
    alloc: Global,
    table: &ShapeTable,
    walk: &mut Walk,
    depth: usize,
    meant: FieldRef,
    field: &Field,
) -> Result<NodeId, PlanError>
    ensures { Gives
        (field_built (λ then next. build table.now depth then next) walk.old
        (record { meant = meant; field = field.now }))
        result walk.new }
{
    let Ok(ids) = sources_of(alloc, &field.proxy, &field.format_proxies) else {
        return Err(PlanError::OutOfMemory);
    };
    let sources = match build_each(alloc, table, walk, depth, ids.as_slice()) {
        Ok(sources) => sources,
        Err(refused) => return Err(refused),
    };
    let own = match build_shape(alloc, table, walk, depth, field.shape) {
        Ok(own) => own,
        Err(refused) => return Err(refused),
    };
    if sources.is_empty() {
        return Ok(own);
    }
    walk.put(Outline {
        shape: field.shape,
        role: Role::FieldProxy(meant),
        sources,
        children: Items::new(alloc),
        converts: false,
    })
}
