//! What a document comes to.
use crate::building::ScriptError;
use fr_doc::DocFault;
use fr_partial::Built;
use fr_shape::Items;

/// A fault of the document, or what its script came to with the tokens that were released,
/// ascending.
#[derive(Drop)]
pub enum Answer {
    Fault(DocFault),
    Built(Built, Items<u32>),
    Refused(ScriptError, Items<u32>),
}

impl Answer {
    ghost use Rattle.std.specs.Prelude.{◌≡◌};
    ghost use Rattle.fr_script.specs.Answers.{outcome_view};
    ghost use Rattle.fr_script.specs.Reports.{status_of};

    /// 0 for a value, 1 for a refusal, 2 for a fault.
    pub fn status(&self) -> u8
        ensures status { result ≡ status_of (outcome_view self.now) }
    {
        match self {
            Answer::Built(..) => 0,
            Answer::Refused(..) => 1,
            Answer::Fault(_) => 2,
        }
    }
}
