//! Finding fields and variants by their names, and the variant that is selected.
ghost use Rattle.fr_work.specs.Common.{Call, Decides, List, Sees, Site, Tree, def_of, field_found, shape_at, variant_named, variant_told_by, variants_of, ℕ};
ghost use Rattle.std.specs.Prelude.{Option, ◌≡◌};
ghost use Rattle.fr_shape.specs.declared.shape.VariantDef.{VariantDef as Variant};
ghost use Rattle.fr_work.specs.SelectingCalls.{Selects};

use crate::work::Work;
use fr_moves::{Change, Move};
use fr_plan::{law_plan_complete, law_plan_lookups, law_plan_reach};
use fr_refusals::{choose, enum_of};
use fr_shape::{Expected, Operation, ReflectErrorKind, ShapeId, ShapeTable};

/// What was found among the variants of a place of this shape is selected, or why it can't be.
pub fn select<'k>(
    table: &ShapeTable,
    shape: ShapeId,
    found: Option<u32>,
    unknown: Operation,
) -> Result<Move<'k>, ReflectErrorKind>
    ensures decides { (site : Site) (seen : Tree) → Sees site table.now shape seen
        → (call : Call) (find : List Variant → Option ℕ) → Selects site call find unknown
        → found ≡ find (variants_of (def_of site.shapes (shape_at site)))
        → Decides site call result }
{
    let Some(described) = enum_of(table, shape) else {
        let (expected, actual) = (Expected::Enum, shape);
        return Err(ReflectErrorKind::WasNotA { expected, actual });
    };
    match choose(described, found, unknown) {
        Ok(chosen) => Ok(Move::Stay(Change::Select(chosen))),
        Err(operation) => Err(ReflectErrorKind::OperationFailed { shape, operation }),
    }
}

impl<'t> Work<'t> {
    /// The number of the first field that is declared under this name, in a struct or in the
    /// variant that is selected, at the place of this shape at which the builder works.
    pub fn field_named(&self, shape: ShapeId, variant: Option<u32>, name: &str) -> Option<usize>
        requires { shape.0 ≡ shape_at self.now }
        ensures number { result
            ≡ field_found name.now (def_of self.now.shapes (shape_at self.now)) variant }
    {
        law_plan_complete();
        law_plan_lookups();
        law_plan_reach();
        let (plan, table) = (self.parts.plan.core(), self.parts.frames.table);
        match plan.declared_field(table, shape, variant, name) {
            Some(number) => Some(number as usize),
            None => None,
        }
    }

    /// The variant that goes by this name and isn't marked `other`, of the enum of this shape at
    /// which the builder works.
    pub fn variant_named(&self, shape: ShapeId, name: &str) -> Option<u32>
        requires { shape.0 ≡ shape_at self.now }
        ensures number { result
            ≡ variant_named name.now (variants_of (def_of self.now.shapes (shape_at self.now))) }
    {
        law_plan_complete();
        law_plan_lookups();
        law_plan_reach();
        let (plan, table) = (self.parts.plan.core(), self.parts.frames.table);
        plan.variant_named(table, shape, name)
    }

    /// The first variant that has this discriminant, of the enum of this shape at which the builder
    /// works.
    pub fn variant_told_by(&self, shape: ShapeId, discriminant: i64) -> Option<u32>
        requires { shape.0 ≡ shape_at self.now }
        ensures number { result ≡ variant_told_by discriminant
            (variants_of (def_of self.now.shapes (shape_at self.now))) }
    {
        law_plan_complete();
        law_plan_lookups();
        law_plan_reach();
        let (plan, table) = (self.parts.plan.core(), self.parts.frames.table);
        plan.variant_told_by(table, shape, discriminant)
    }
}
