//! A document from its bytes to what it comes to.
ghost use Rattle.std.specs.Prelude.{◌≡◌, Ok, string_bytes, IfOk, OnOk};
ghost use Rattle.fr_script.specs.Answers.{outcome_view};
ghost use Rattle.fr_script.specs.DocumentFacts.{IsInOrder};
ghost use Rattle.fr_script.specs.Documents.{document_of};
ghost use Rattle.fr_script.specs.Headline.{KeepsPromise, IsMadeByCalls, IsPromised};
ghost use Rattle.fr_script.specs.Outcomes.{is_want_of_memory};
ghost use Rattle.fr_script.specs.Reading.{document_view};
ghost use Rattle.fr_script.specs.declared.subcommand.Subcommand.{Subcommand as TheSubcommand};
ghost use Rattle.fr_script.specs.Reports.{outcome_of, outcome_of_document, outcome_of_run, report_of, report_of_document, run_of, status_of};

use crate::answering::Answer;
use crate::building::{ScriptError, build_script};
use crate::document::{Document, read_document, read_with_tree};
use crate::document_laws::law_documents_in_order;
use crate::plan_report::plan_report_of;
use crate::planning::plan_root;
use crate::released::released_tokens;
use crate::report::{report_of, report_of_fault};
use crate::subcommand::Subcommand;
use fr_doc::{DocHooks, ReadError};
use fr_shape::{Ledger, OutOfMemory, ReflectErrorKind, ShapeTable};
use serde_json::Value as Json;
use std::alloc::Global;

/// Reads a document, runs its script over a new ledger, and returns what came of it.
pub fn answer(alloc: Global, bytes: &[u8]) -> Result<Answer, OutOfMemory>
    ensures outcome { IfOk result (λ answer.
        outcome_view answer ≡ outcome_of TheSubcommand.Build bytes.now) }
    ensures promise { IfOk result (λ answer.
        KeepsPromise (document_of bytes.now) (outcome_view answer)) }
    ensures calls { IfOk result (IsMadeByCalls (document_of bytes.now)) }
{
    match read_document(alloc, bytes) {
        Ok(document) => {
            law_documents_in_order();
            let (_, answer) = answer_document(alloc, document)?;
            Ok(answer)
        }
        Err(ReadError::Fault(fault)) => Ok(Answer::Fault(fault)),
        Err(ReadError::Memory) => Err(OutOfMemory),
    }
}

/// Runs a document's script over a new ledger. Its table comes back with the answer.
fn answer_document(alloc: Global, document: Document) -> Result<(ShapeTable, Answer), OutOfMemory>
    requires { IsInOrder (document_view document) }
    ensures table { IfOk result (λ answered. answered.0 ≡ document.table) }
    ensures outcome { IfOk result (λ answered. outcome_view answered.1
        ≡ outcome_of_run (document_view document) (run_of (document_view document))) }
    ensures promise { IfOk result (λ answered.
        KeepsPromise (Ok (document_view document)) (outcome_view answered.1)) }
    ensures calls { IfOk result (λ answered.
        IsMadeByCalls (Ok (document_view document)) answered.1) }
{
    let Document {
        table,
        root,
        tokens,
        script,
    } = document;
    let Ok(mut ledger) = Ledger::new(alloc, tokens) else {
        return Err(OutOfMemory);
    };
    match build_script(alloc, &table, root, &DocHooks, script, &mut ledger) {
        Ok(built) => match released_tokens(alloc, &ledger) {
            Ok(released) => Ok((table, Answer::Built(built, released))),
            Err(refused) => Err(refused),
        },
        Err(error) => {
            if is_want_of_memory(&error.kind) {
                return Err(OutOfMemory);
            }
            match released_tokens(alloc, &ledger) {
                Ok(released) => Ok((table, Answer::Refused(error, released))),
                Err(refused) => Err(refused),
            }
        }
    }
}

/// Whether a refusal is that no memory was left.
pub(crate) fn is_want_of_memory(kind: &ReflectErrorKind) -> bool
    ensures { result ≡ is_want_of_memory kind.now }
{
    matches!(kind, ReflectErrorKind::OutOfMemory)
}

/// The status and the whole report on a document, and the tree that the document was read from.
///
/// Whoever has it lets the tree go last, or leaves it to the system. Any earlier that costs more:
/// what is freed in many small parts is joined as soon as a large part is asked for or freed.
#[derive(Drop)]
pub struct Response {
    pub status: u8,
    pub text: String,
    pub tree: Option<Json>,
}

/// The status and the whole report on a document, under a subcommand.
pub fn respond(alloc: Global, subcommand: Subcommand, bytes: &[u8]) -> Result<Response, OutOfMemory>
    ensures status { IfOk result (λ response.
        response.status ≡ status_of (outcome_of subcommand bytes.now)) }
    ensures text { IfOk result (λ response.
        string_bytes response.text ≡ report_of subcommand bytes.now) }
    ensures promise { OnOk result (IsPromised subcommand bytes.now) }
{
    match read_with_tree(alloc, bytes) {
        Ok((document, tree)) => {
            law_documents_in_order();
            let (status, text) = match subcommand {
                Subcommand::Build => respond_to_build(alloc, document)?,
                Subcommand::Plan => respond_to_plan(alloc, document)?,
            };
            Ok(Response {
                status,
                text,
                tree: Some(tree),
            })
        }
        Err(ReadError::Fault(fault)) => match report_of_fault(alloc, &fault) {
            Ok(text) => Ok(Response {
                status: 2,
                text,
                tree: None,
            }),
            Err(_) => Err(OutOfMemory),
        },
        Err(ReadError::Memory) => Err(OutOfMemory),
    }
}

/// The same on one without faults, under `build`.
fn respond_to_build(alloc: Global, document: Document) -> Result<(u8, String), OutOfMemory>
    requires { IsInOrder (document_view document) }
    ensures status { IfOk result (λ response. response.0
        ≡ status_of (outcome_of_document TheSubcommand.Build (Ok (document_view document)))) }
    ensures text { IfOk result (λ response. string_bytes response.1
        ≡ report_of_document TheSubcommand.Build (Ok (document_view document))) }
    ensures promise { OnOk result (KeepsPromise (Ok (document_view document))
        (outcome_of_document TheSubcommand.Build (Ok (document_view document)))) }
{
    let root = document.root;
    let (table, answer) = answer_document(alloc, document)?;
    match report_of(alloc, &table, root, &answer) {
        Ok(text) => Ok((answer.status(), text)),
        Err(_) => Err(OutOfMemory),
    }
}

/// The same under `plan`.
fn respond_to_plan(alloc: Global, document: Document) -> Result<(u8, String), OutOfMemory>
    requires { IsInOrder (document_view document) }
    ensures status { IfOk result (λ response. response.0
        ≡ status_of (outcome_of_document TheSubcommand.Plan (Ok (document_view document)))) }
    ensures text { IfOk result (λ response. string_bytes response.1
        ≡ report_of_document TheSubcommand.Plan (Ok (document_view document))) }
{
    let answer = plan_root(alloc, document)?;
    match plan_report_of(alloc, &answer) {
        Ok(text) => Ok((answer.status(), text)),
        Err(_) => Err(OutOfMemory),
    }
}
