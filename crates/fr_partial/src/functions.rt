//! The calls that call a function of the user's: one that makes the value of a place, and one that
//! goes on with the builder.
ghost use Rattle.std.specs.Prelude.{◌+◌, ◌==◌, ◌≡◌, Result};
ghost use Rattle.fr_partial.specs.Common.{ReflectErrorKind as Kind, Room, fits, holds, occurs, true};
ghost use Rattle.fr_partial.specs.Builder.{here};
ghost use Rattle.fr_partial.specs.Given.{FitsIfGiven, IsGiven, IsTakenIf, given_occurs};
ghost use Rattle.fr_shape.specs.ShapedValue.{ShapedValue};

use crate::{Partial, ReflectError};
use fr_shape::{Hooks, Ledger, ReflectErrorKind, Shaped, release};

impl<'t, H: Hooks> Partial<'t, H> {
    /// Calls the function, and puts the value that it returns at the place, in the stead of all that
    /// was put there and beneath it. A refusal that the function returns is told as it is. A value
    /// of another shape than the place's is refused, also at a dynamic place and at a `str`.
    pub fn set_from_function<F: FnOnce() -> Result<Shaped, ReflectErrorKind>>(
        self,
        f: F,
        ledger: &mut Ledger,
    ) -> Result<Partial<'t, H>, ReflectError>
        requires callable { F.pre f }
        requires fits { (given : Result ShapedValue Kind) → F.post f given
            → FitsIfGiven self.shapes given }
        requires room { (given : Result ShapedValue Kind) → F.post f given
            → Room (λ t. holds self t + given_occurs given t) ledger.old }
        ensures given { (given : Result ShapedValue Kind) × F.post f given
            × IsGiven (H.means self.entry.hooks) self.entry given result ledger.old ledger.new }
    {
        match f() {
            Ok(value) => self.take(value, ledger),
            Err(kind) => Err(self.refuse(kind, ledger)),
        }
    }

    /// Puts a value of the place's own shape there. Any other is refused.
    #[tactic(auto, using(crate::proofs::GivenLaws::not_copied))]
    fn take(self, value: Shaped, ledger: &mut Ledger) -> Result<Partial<'t, H>, ReflectError>
        requires fits { fits self.shapes value.shape value.value ≡ true }
        requires room { Room (λ t. holds self t + occurs value.value t) ledger.old }
        ensures taken { IsTakenIf (here self.entry == value.shape) (H.means self.entry.hooks)
            self.entry value result ledger.old ledger.new }
    {
        let (expected, actual) = (self.shape(), value.shape());
        if expected == actual {
            self.set_shape(value, ledger)
        } else {
            release(value.into_value(), ledger);
            let kind = ReflectErrorKind::WrongShape { expected, actual };
            Err(self.refuse(kind, ledger))
        }
    }

    /// Goes on with the builder as the function does.
    pub fn with<F: FnOnce(Partial<'t, H>) -> Result<Partial<'t, H>, E>, E>(
        self,
        f: F,
    ) -> Result<Partial<'t, H>, E>
        requires callable { F.pre f self }
        ensures returned { F.post f self.entry result }
    {
        f(self)
    }
}
