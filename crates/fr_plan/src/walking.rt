//! The steps by which a walk puts nodes and marks shapes.
ghost use Rattle.std.specs.Prelude.{◌≡◌, ◌<◌, length, map, not, slice_get, option_to_list, IfOk, Ok};
ghost use Rattle.fr_shape.specs.declared.shape.ProxyDef.{ProxyDef as Proxy};
ghost use Rattle.fr_shape.specs.Plannable.{built_from, refusal_of};
ghost use Rattle.fr_shape.specs.Lists.{is_nil};
ghost use Rattle.fr_shape.specs.Checked.{proxies_of};
ghost use Rattle.fr_plan.specs.Build.{with_node, with_shape_mark, back_reference, finish};
ghost use Rattle.fr_plan.specs.Results.{Gives};

use crate::nodes::NodeId;
use crate::outlines::{Mark, Outline, Role, Walk};
use fr_arena::{Arena, Idx};
use fr_shape::{
    AllocError, Def, FormatProxy, Items, OutOfMemory, PlanError, PlanFault, ProxyDef, Shape,
    ShapeId, ShapeTable,
};
use std::alloc::Global;

/// Whose fields are meant: those of a struct, or of one variant of an enum.
#[derive(Clone, Copy)]
pub(crate) struct Container {
    pub(crate) shape: ShapeId,
    pub(crate) variant: Option<u32>,
}

impl Walk {
    /// Puts a node behind the others.
    pub(crate) fn put(&mut self, outline: Outline) -> Result<NodeId, PlanError>
        ensures { Gives (Ok (with_node self.old outline)) result self.new }
    {
        if self.nodes.len() >= u32::MAX as usize {
            return Err(PlanError::OutOfMemory);
        }
        match self.nodes.alloc(outline) {
            Ok(idx) => Ok(NodeId(idx.raw())),
            Err(_refused) => Err(PlanError::OutOfMemory),
        }
    }

    /// Puts a node that refers back to the shape's own.
    pub(crate) fn refer_back(&mut self, alloc: Global, id: ShapeId) -> Result<NodeId, PlanError>
        ensures { Gives (Ok (with_node self.old (back_reference id))) result self.new }
    {
        self.put(Outline {
            shape: id,
            role: Role::BackRef,
            sources: Items::new(alloc),
            children: Items::new(alloc),
            converts: false,
        })
    }

    /// How far the shape has come; None where the table has no such shape.
    pub(crate) fn mark_of(&self, id: ShapeId) -> Option<Mark>
        ensures { result ≡ slice_get self.now.marks id.0 }
    {
        if (id.0 as usize) < self.marks.len() {
            Some(*self.marks.get(Idx::new(id.0)))
        } else {
            None
        }
    }

    pub(crate) fn mark(&mut self, id: ShapeId, mark: Mark)
        ensures { self.new ≡ with_shape_mark self.old id mark }
    {
        if (id.0 as usize) < self.marks.len() {
            *self.marks.get_mut(Idx::new(id.0)) = mark;
        }
    }
}

/// Puts the own node of a shape whose children are built, unless the shape is refused.
#[tactic(auto, unfolding(crate::specs::Build::finish))]
pub(crate) fn finish(
    walk: &mut Walk,
    id: ShapeId,
    shape: &Shape,
    sources: Items<NodeId>,
    children: Items<NodeId>,
) -> Result<NodeId, PlanError>
    ensures { Gives (finish id shape.now sources (record { walk = walk.old; nodes = children }))
        result walk.new }
{
    if let Some(operation) = refusal_of(shape) {
        return Err(PlanError::Alloc(AllocError {
            shape: id,
            operation,
        }));
    }
    let node = walk.put(Outline {
        shape: id,
        role: Role::Own,
        sources,
        children,
        converts: shape.convert.is_some(),
    })?;
    walk.mark(id, Mark::Done(node));
    Ok(node)
}

/// Why the shape can't be planned, if it can't.
fn refusal_of(shape: &Shape) -> Option<PlanFault>
    ensures { result ≡ refusal_of shape.now }
{
    let Def::Other = shape.def else {
        return None;
    };
    if shape.inner.is_none() {
        return Some(PlanFault::Unsupported);
    }
    if shape.convert.is_some() || has_proxy(&shape.proxy, &shape.format_proxies) || shape.metadata {
        return None;
    }
    Some(PlanFault::NeedsTryFrom)
}

/// Whether there is a proxy, of whatever format.
pub(crate) fn has_proxy(proxy: &Option<ProxyDef>, format_proxies: &Items<FormatProxy>) -> bool
    ensures { result ≡ not (is_nil (proxies_of proxy.now format_proxies.now)) }
{
    match (proxy, format_proxies.as_slice()) {
        (None, []) => false,
        (None, [_, ..]) | (Some(_), _) => true,
    }
}

/// The shapes that stand in for another, in the order in which they are built.
pub(crate) fn sources_of(
    alloc: Global,
    proxy: &Option<ProxyDef>,
    format_proxies: &Items<FormatProxy>,
) -> Result<Items<ShapeId>, OutOfMemory>
    ensures { IfOk result (λ sources. sources
        ≡ map (λ (proxy : Proxy). proxy.source) (proxies_of proxy.now format_proxies.now)) }
{
    let mut sources = Items::new(alloc);
    if let Some(proxy) = proxy {
        sources.push(proxy.source)?;
    }
    for formatted in format_proxies.as_slice() {
        sources.push(formatted.proxy.source)?;
    }
    Ok(sources)
}

/// What an opaque or undefined shape is built from.
pub(crate) fn built_from(shape: &Shape) -> Option<ShapeId>
    ensures { option_to_list result ≡ built_from shape.now }
{
    if shape.convert.is_some() {
        shape.builder
    } else {
        None
    }
}
