//! What the planning of a document comes to.
use fr_doc::DocFault;
use fr_plan::TypePlanCore;
use fr_shape::{AllocError, ShapeTable};

/// A fault of the document; the plan of its root, with the table that names the shapes of its
/// nodes; or the first shape that can't be planned.
#[derive(Drop)]
pub enum PlanAnswer {
    Fault(DocFault),
    Planned(ShapeTable, TypePlanCore),
    Refused(AllocError),
}

impl PlanAnswer {
    ghost use Rattle.std.specs.Prelude.{◌≡◌};
    ghost use Rattle.fr_script.specs.Answers.{plan_outcome};
    ghost use Rattle.fr_script.specs.Reports.{status_of};

    /// 0 for a plan, 1 where there is none, 2 for a fault.
    pub fn status(&self) -> u8
        ensures status { result ≡ status_of (plan_outcome self.now) }
    {
        match self {
            PlanAnswer::Planned(..) => 0,
            PlanAnswer::Refused(_) => 1,
            PlanAnswer::Fault(_) => 2,
        }
    }
}
