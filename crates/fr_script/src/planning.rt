//! A document from its bytes to the plan of its root.
ghost use Rattle.std.specs.Prelude.{◌≡◌, IfOk};
ghost use Rattle.fr_script.specs.Answers.{IsPlanAnswer, IsPlanned, plan_outcome};
ghost use Rattle.fr_script.specs.DocumentFacts.{IsInOrder};
ghost use Rattle.fr_script.specs.Documents.{document_of};
ghost use Rattle.fr_script.specs.Reading.{document_view};
ghost use Rattle.fr_script.specs.Reports.{outcome_of, outcome_of_plan, plan_of};
ghost use Rattle.fr_script.specs.declared.subcommand.Subcommand.{Subcommand as TheSubcommand};

use crate::document::{Document, read_document};
use crate::document_laws::law_documents_in_order;
use crate::plan_answer::PlanAnswer;
use fr_doc::ReadError;
use fr_plan::TypePlanCore;
use fr_shape::{OutOfMemory, PlanError};
use std::alloc::Global;

/// Reads a document and plans its root. The answer is the document's first fault; or its own table,
/// with the plan of its root; or the first shape that can't be planned, and why.
pub fn plan_document(alloc: Global, bytes: &[u8]) -> Result<PlanAnswer, OutOfMemory>
    ensures answer { IfOk result (IsPlanAnswer (document_of bytes.now)) }
    ensures outcome { IfOk result (λ answer.
        plan_outcome answer ≡ outcome_of TheSubcommand.Plan bytes.now) }
{
    match read_document(alloc, bytes) {
        Ok(document) => {
            law_documents_in_order();
            plan_root(alloc, document)
        }
        Err(ReadError::Fault(fault)) => Ok(PlanAnswer::Fault(fault)),
        Err(ReadError::Memory) => Err(OutOfMemory),
    }
}

/// Plans a document's root.
pub(crate) fn plan_root(alloc: Global, document: Document) -> Result<PlanAnswer, OutOfMemory>
    requires { IsInOrder (document_view document) }
    ensures planned { IfOk result (IsPlanned (document_view document)) }
    ensures outcome { IfOk result (λ answer. plan_outcome answer
        ≡ outcome_of_plan document.table (plan_of (document_view document))) }
{
    let Document { table, root, .. } = document;
    match TypePlanCore::from_shape(alloc, &table, root) {
        Ok(plan) => Ok(PlanAnswer::Planned(table, plan)),
        Err(PlanError::Alloc(error)) => Ok(PlanAnswer::Refused(error)),
        Err(PlanError::OutOfMemory) => Err(OutOfMemory),
    }
}
