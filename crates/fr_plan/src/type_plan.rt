//! The plan of a type.
ghost use Rattle.std.specs.Prelude.{◌≡◌, ℕ, ◌<◌, ◌≤◌, ◌+◌, [], length, replicate, slice_get, true, false, Some, IfOk, IfErr};
ghost use Rattle.fr_shape.specs.Checked.{IsChecked};
ghost use Rattle.fr_shape.specs.Look.{Table, IsIn, def_of, variants_of};
ghost use Rattle.fr_shape.specs.Plannable.{Reached};
ghost use Rattle.fr_shape.specs.Invariants.{HasNoInvariant};
ghost use Rattle.fr_shape.specs.declared.shape.ShapeId.{ShapeId as Id};
ghost use Rattle.fr_rules.specs.Pools.{part_of};
ghost use Rattle.fr_rules.specs.VariantLookups.{variant_named};
ghost use Rattle.fr_plan.specs.Build.{planned};
ghost use Rattle.fr_plan.specs.Fields.{has_validators};
ghost use Rattle.fr_plan.specs.Invariants.{HasInvariant, has_invariant, have_invariants};
ghost use Rattle.fr_plan.specs.Names.{declared_field, variant_told_by};
ghost use Rattle.fr_plan.specs.Results.{IsMeant};
ghost use Rattle.fr_plan.specs.declared.outlines.Mark.{Mark as TheMark};

use crate::node_building::build_shape;
use crate::nodes::{NodeId, TypePlanNode};
use crate::outlines::{Mark, Outline, Walk};
use crate::plan_lists::PlanLists;
use crate::plans::{FieldPlan, FieldRange, ValidatorRange, VariantPlanMeta, VariantRange};
use crate::shape_fields::{
    ShapeFields, all_kept, are_validated, find_declared, find_named, find_told_by,
};
use crate::telling::nodes_of;
use fr_arena::{Arena, Idx, SliceRange};
use fr_rules::{LookupPool, PrecomputedValidator};
use fr_shape::{OutOfMemory, PlanError, ShapeId, ShapeTable};
use std::alloc::Global;
use std::marker::Model;

/// The plan of a type: the nodes of its shape and of all that this is made of, in the order in
/// which they are built.
#[derive(Drop)]
pub struct TypePlanCore {
    pub(crate) nodes: Arena<TypePlanNode>,
    pub(crate) root: NodeId,
    pub(crate) lists: PlanLists,
    pub(crate) walk: Walk,
    pub(crate) shape_fields: Arena<ShapeFields>,
    /// Whether the shape of any node has an invariant.
    pub(crate) has_invariants: bool,
}

impl Model for TypePlanCore {
    ghost use Rattle.fr_plan.specs.TypePlan.{Plan};

    ghost Value = { Plan };

    ghost view = { λ core. record { nodes = core.nodes; root = core.root; lists = core.lists; walk = core.walk; shape_fields = core.shape_fields; has_invariants = core.has_invariants } };

    ghost use Rattle.std.specs.Prelude.{◌<◌, length};

    ghost invariant = { λ core. core.root.0 < length core.nodes };
}

impl TypePlanCore {
    ghost use Rattle.fr_plan.specs.TypePlan.{IsPlanOf};
    ghost use Rattle.fr_plan.specs.Lookups.{node_at};

    /// The plan of the shape of this number.
    pub fn from_shape(alloc: Global, table: &ShapeTable, id: ShapeId) -> Result<Self, PlanError>
        requires checked { IsChecked table.now }
        requires there { IsIn table.now id.0 }
        ensures plan { IfOk result (IsPlanOf table.now id) }
        ensures refused { IfErr result (IsMeant (planned table.now id)) }
    {
        let mut walk = match start(alloc, table.len()) {
            Ok(walk) => walk,
            Err(OutOfMemory) => return Err(PlanError::OutOfMemory),
        };
        let depth = walk.marks.len() + 1;
        let root = match build_shape(alloc, table, &mut walk, depth, id) {
            Ok(root) => root,
            Err(refused) => return Err(refused),
        };
        let Ok(shape_fields) = all_kept(alloc, table, &walk.marks) else {
            return Err(PlanError::OutOfMemory);
        };
        let has_invariants = have_invariants(table, &walk.nodes);
        let mut lists = PlanLists::new(alloc);
        match nodes_of(alloc, table, &walk.nodes, &mut lists) {
            Ok(nodes) => Ok(TypePlanCore {
                nodes,
                root,
                lists,
                walk,
                shape_fields,
                has_invariants,
            }),
            Err(OutOfMemory) => Err(PlanError::OutOfMemory),
        }
    }

    /// The root's node.
    pub fn root(&self) -> &TypePlanNode
        ensures root { node_at self.now self.now.root ≡ Some result.now }
    {
        self.nodes.get(self.root.idx())
    }

    /// The number of the root's node, which was built last.
    pub fn root_id(&self) -> NodeId
        ensures root { result ≡ self.now.root }
        ensures inside { result.0 < length self.now.nodes }
    {
        self.root
    }

    /// The node of this number.
    pub fn node(&self, idx: NodeId) -> &TypePlanNode
        requires inside { idx.0 < length self.now.nodes }
        ensures node { node_at self.now idx ≡ Some result.now }
    {
        self.nodes.get(idx.idx())
    }

    /// The field of this number, among the fields of all nodes.
    pub fn field(&self, idx: Idx<FieldPlan>) -> &FieldPlan
        requires inside { idx < length self.now.lists.fields }
        ensures field { slice_get self.now.lists.fields idx ≡ Some result.now }
    {
        self.lists.fields.get(idx)
    }

    /// The variant of this number, among the variants of all nodes.
    pub fn variant(&self, idx: Idx<VariantPlanMeta>) -> &VariantPlanMeta
        requires inside { idx < length self.now.lists.variants }
        ensures variant { slice_get self.now.lists.variants idx ≡ Some result.now }
    {
        self.lists.variants.get(idx)
    }

    /// The fields of a range.
    pub fn fields(&self, r: FieldRange) -> &[FieldPlan]
        requires inside { r.start + r.len ≤ length self.now.lists.fields }
        ensures fields { result.now ≡ part_of self.now.lists.fields r }
    {
        self.lists.fields.get_slice(r)
    }

    /// The variants of a range.
    pub fn variants(&self, r: VariantRange) -> &[VariantPlanMeta]
        requires inside { r.start + r.len ≤ length self.now.lists.variants }
        ensures variants { result.now ≡ part_of self.now.lists.variants r }
    {
        self.lists.variants.get_slice(r)
    }

    /// The validators of a range.
    pub fn validators(&self, r: ValidatorRange) -> &[PrecomputedValidator]
        requires inside { r.start + r.len ≤ length self.now.lists.validators }
        ensures validators { result.now ≡ part_of self.now.lists.validators r }
    {
        self.lists.validators.get_slice(r)
    }

    /// The pool in which the lookups of the plan are found.
    pub fn lookups(&self) -> &LookupPool
        ensures pool { result.now ≡ self.now.lists.lookups }
    {
        &self.lists.lookups
    }

    /// The number of the first field that is declared under this name, of a struct or of an enum's
    /// variant of this number.
    ///
    /// The names stand in the table from which the plan was made. It compares them O(log n) times
    /// among n fields. A field isn't found here by the name that it goes by instead.
    pub fn declared_field(
        &self,
        table: &ShapeTable,
        shape: ShapeId,
        variant: Option<u32>,
        name: &str,
    ) -> Option<u32>
        ensures first { (root : Id) → IsChecked table.now → IsIn table.now root.0
            → IsPlanOf table.now root self.now → Reached table.now root.0 shape.0
            → result ≡ declared_field (def_of table.now shape.0) variant name.now }
    {
        find_declared(table, &self.shape_fields, shape, variant, name)
    }

    /// The number of the first variant of an enum that goes by this name and isn't marked `other`;
    /// none of another shape.
    ///
    /// The names stand in the table from which the plan was made. It compares them O(log n) times
    /// among n variants.
    pub fn variant_named(&self, table: &ShapeTable, shape: ShapeId, name: &str) -> Option<u32>
        ensures first { (root : Id) → IsChecked table.now → IsIn table.now root.0
            → IsPlanOf table.now root self.now → Reached table.now root.0 shape.0
            → result ≡ variant_named name.now (variants_of (def_of table.now shape.0)) }
    {
        find_named(table, &self.shape_fields, shape, name)
    }

    /// The number of the first variant of an enum that has this discriminant; none of another
    /// shape.
    ///
    /// The discriminants stand in the table from which the plan was made. It compares them O(log n)
    /// times among n variants.
    pub fn variant_told_by(
        &self,
        table: &ShapeTable,
        shape: ShapeId,
        discriminant: i64,
    ) -> Option<u32>
        ensures first { (root : Id) → IsChecked table.now → IsIn table.now root.0
            → IsPlanOf table.now root self.now → Reached table.now root.0 shape.0
            → result ≡ variant_told_by discriminant (variants_of (def_of table.now shape.0)) }
    {
        find_told_by(table, &self.shape_fields, shape, discriminant)
    }

    /// Whether a field of the struct, or of the enum's variant of this number, has a validator. It
    /// takes the same time however many there are.
    pub fn has_validators(&self, shape: ShapeId, variant: Option<u32>) -> bool
        ensures some { (table : Table) (root : Id) → IsChecked table → IsIn table root.0
            → IsPlanOf table root self.now → Reached table root.0 shape.0
            → result ≡ has_validators (def_of table shape.0) variant }
    {
        are_validated(&self.shape_fields, shape, variant)
    }

    /// Whether the root reaches a shape with an invariant. It was asked once, for the plan.
    pub fn has_invariants(&self) -> bool
        ensures none { (table : Table) (root : Id) → IsChecked table → IsIn table root.0
            → IsPlanOf table root self.now → result ≡ false → HasNoInvariant table root.0 }
        ensures some { (table : Table) (root : Id) → IsChecked table → IsIn table root.0
            → IsPlanOf table root self.now → result ≡ true → HasInvariant table root.0 }
    {
        self.has_invariants
    }

    /// How many nodes there are.
    pub fn node_count(&self) -> usize
        ensures count { result ≡ length self.now.nodes }
    {
        self.nodes.len()
    }
}

/// Whether the shape of a node has an invariant.
fn has_invariant(table: &ShapeTable, outline: &Outline) -> bool
    ensures { result ≡ has_invariant table.now outline.now }
{
    match table.get(outline.shape) {
        Some(shape) => shape.invariant.is_some(),
        None => false,
    }
}

/// Whether that of any of these nodes has one.
fn any_has_invariant(table: &ShapeTable, outlines: &[Outline]) -> bool
    ensures { result ≡ have_invariants table.now outlines.now }
{
    outlines.iter().any(|outline| has_invariant(table, outline))
}

/// The same of all nodes of a plan.
fn have_invariants(table: &ShapeTable, outlines: &Arena<Outline>) -> bool
    ensures { result ≡ have_invariants table.now outlines.now }
{
    let all = SliceRange::new(0, outlines.len() as u32);
    any_has_invariant(table, outlines.get_slice(all))
}

/// The walk before it starts: no node is there, and no shape was met.
fn start(alloc: Global, shapes: usize) -> Result<Walk, OutOfMemory>
    ensures { IfOk result (λ walk. walk
        ≡ record { nodes = []; marks = replicate shapes TheMark.Unseen }) }
{
    let mut marks = Arena::new(alloc);
    for _shape in 0..shapes {
        if marks.len() >= u32::MAX as usize {
            return Err(OutOfMemory);
        }
        let Ok(_) = marks.alloc(Mark::Unseen) else {
            return Err(OutOfMemory);
        };
    }
    Ok(Walk {
        nodes: Arena::new(alloc),
        marks,
    })
}
