//! Laws of plans: each is the contract of a function that does nothing.
ghost use Rattle.fr_plan.specs.LookupLaws.{BackReferencesResolve, LookupPathsAgree, LookupsAgree};
ghost use Rattle.fr_plan.specs.PartLaws.{PlansHaveOwnNodes, PlansHaveTheirParts};
ghost use Rattle.fr_plan.specs.PathLaws.{PathsAgree};
ghost use Rattle.fr_plan.specs.PlanLaws.{PlansAreComplete};
ghost use Rattle.fr_plan.specs.ReachLaws.{NodesAreReached, ReachedHaveNodes};
ghost use Rattle.fr_plan.specs.RefusalLaws.{RefusesFirst, PlansPlannable};
ghost use Rattle.fr_plan.specs.SizeLaws.{PlansAreSmall, PlainPlansAreSmall};

/// What is planned over a checked table is whole: each back reference leads to its shape's own
/// node, and nodes are linked as the table says.
pub fn law_plan_complete()
    ensures complete { PlansAreComplete }
{}

/// A plan is refused exactly where a shape that its root reaches can't be planned, with the first
/// refusal in the order in which nodes are built.
pub fn law_first_refusal()
    ensures first { RefusesFirst }
    ensures plannable { PlansPlannable }
{}

/// For every path of child numbers from the root of a plan over a checked table, the node that it
/// leads to has the shape that the table gives for it, and there is none exactly where the table
/// gives none.
pub fn law_plan_paths()
    ensures agree { PathsAgree }
{}

/// Over a checked table a plan has at most as many nodes as reachable shapes, their references, and
/// their fields with proxies together.
pub fn law_plan_size()
    ensures small { PlansAreSmall }
    ensures plain { PlainPlansAreSmall }
{}

/// Over a checked table each node of a plan stands for one of the same shape that doesn't refer
/// back, and each lookup gives a node of the shape that the table has there, and none exactly where
/// the table has none.
pub fn law_plan_lookups()
    ensures resolve { BackReferencesResolve }
    ensures agree { LookupsAgree }
    ensures paths { LookupPathsAgree }
{}

/// Over a checked table a plan has nodes of shapes that its root reaches alone, and each shape that
/// the root reaches has its own node.
pub fn law_plan_reach()
    ensures reached { NodesAreReached }
    ensures nodes { ReachedHaveNodes }
{}

/// Over a checked table a plan has all that it lends: ranges of fields, variants and validators
/// that are read of it lie inside its lists, lookups are of its pool, and nodes are its own. So
/// they can be handed to `fields`, `variants`, `validators`, `node` and `FieldLookup::find`.
pub fn law_plan_parts()
    ensures parts { PlansHaveTheirParts }
    ensures own { PlansHaveOwnNodes }
{}
