//! Laws of documents and of generated scripts: each is the contract of a function that does nothing.
ghost use Rattle.std.specs.Prelude.{◌≡◌, List, [], ℕ, None, Some, Ok};
ghost use Rattle.fr_model.specs.Commands.{Call};
ghost use Rattle.fr_model.specs.Scripts.{IsValid};
ghost use Rattle.fr_shape.specs.Look.{Table};
ghost use Rattle.fr_script.specs.declared.subcommand.Subcommand.{Subcommand};
ghost use Rattle.fr_script.specs.DocumentFacts.{IsInOrder, Succeeds};
ghost use Rattle.fr_script.specs.Documents.{Document, document_of, first_invalid};
ghost use Rattle.fr_script.specs.FirstInvalid.{IsFirstInvalid};
ghost use Rattle.fr_script.specs.Reports.{outcome_of, status_of};
ghost use Rattle.fr_script.specs.Summaries.{GeneratedMakesAValue};

use fr_plan::law_first_refusal;

/// The first command that isn't valid: where there is none the script may be handed to the builder,
/// and else it may up to that command.
pub fn law_valid_scripts()
    ensures valid { (table : Table) (ledger : List ℕ) (script : List Call)
        → first_invalid table ledger [] 0 script ≡ None → IsValid table script ledger }
    ensures invalid { (table : Table) (ledger : List ℕ) (script : List Call) (n : ℕ)
        → first_invalid table ledger [] 0 script ≡ Some n → IsFirstInvalid table script ledger n }
{}

/// A document without faults is in order.
pub fn law_documents_in_order()
    ensures in_order { (bytes : List ℕ) (document : Document)
        → document_of bytes ≡ Ok document → IsInOrder document }
{}

/// A document whose script runs to a value, or whose root can be planned, has the status 0.
pub fn law_successes()
    ensures succeeds { (subcommand : Subcommand) (bytes : List ℕ)
        → Succeeds subcommand (document_of bytes)
        → status_of (outcome_of subcommand bytes) ≡ 0 }
{
    law_first_refusal();
}

/// Whatever number of steps a script is generated of, its journal completes to a value.
pub fn law_generated_scripts()
    ensures makes_a_value { GeneratedMakesAValue }
{}
