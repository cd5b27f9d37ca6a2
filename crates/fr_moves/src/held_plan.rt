//! The plan that a builder goes by.
ghost use Rattle.std.specs.Prelude.{◌≡◌};
ghost use Rattle.fr_moves.specs.Common.{plan_in};

use fr_plan::TypePlanCore;

/// A plan that was lent to the builder, or one that it made for itself.
#[derive(Drop)]
pub enum HeldPlan<'t> {
    Lent(&'t TypePlanCore),
    Own(Box<TypePlanCore>),
}

impl<'t> HeldPlan<'t> {
    /// The plan, whoever owns it.
    pub fn core(&self) -> &TypePlanCore
        ensures plan { result.now ≡ plan_in self.now }
    {
        match self {
            HeldPlan::Lent(plan) => plan,
            HeldPlan::Own(plan) => plan,
        }
    }
}
