//! A whole run of the program, from its words and its input to its report and its status.
ghost use Rattle.std.specs.Prelude.{◌≡◌, ◌⊎◌, ◌≤◌, ℕ, drop, Some, None, IfSome};
ghost use Rattle.std.specs.Io.KnownBytes.{append_known};
ghost use Rattle.std.specs.Option.{option_map};
ghost use Rattle.fr_doc.specs.Causes.{Rose, LosesAtMost, TakesBeginning};
ghost use Rattle.fr_script.specs.DocumentFacts.{Succeeds};
ghost use Rattle.fr_script.specs.Documents.{document_of};
ghost use Rattle.fr_script.specs.Headline.{KeepsPromise};
ghost use Rattle.fr_script.specs.Reports.{outcome_of, report_of};
ghost use Rattle.fr_script.specs.Runs.{asked, usage_line, Tells};
ghost use Rattle.fr_script.specs.Steps.{steps_asked};
ghost use Rattle.fr_script.specs.Summaries.{summary_of};
ghost use Rattle.fr_script.specs.declared.subcommand.Subcommand.{Subcommand as TheSubcommand};

use crate::document_laws::law_successes;
use crate::generating::STEP_LIMIT;
use crate::serving::{Response, respond};
use crate::steps::find_steps;
use crate::subcommand::Subcommand;
use crate::summary::summary_of;
use fr_doc::{INPUT_LIMIT, InputFault, Sink, Source, read_input, write_report};
use std::alloc::Global;
use std::mem::forget;

const USAGE: &str = "usage: build | plan | gen N\n";

/// Does what the words ask: `build` reads a document to its end and reports what it comes to,
/// `plan` reads one and reports the plan of its root, and `gen` with a number of steps reads
/// nothing, runs the script that is generated for them, and reports a summary.
///
/// The status is 0 for a value, a plan or a summary, 1 where there is none, 2 for a faulty document, 3 for
/// other words, 4 where the source failed, 5 where the sink failed, and 6 where it is out of
/// memory.
///
/// It is the whole work of a process, so it leaves the tree of the document to the system, which
/// takes a process's memory back as a whole. Where work goes on after a document, `answer` frees
/// what it read.
pub fn run<S: Source, K: Sink>(alloc: Global, words: &[String], source: &mut S, sink: &mut K) -> u8
    ensures range { result ≤ 6 }

    // One of the words, where the source tells what it has left: the outcome of all those bytes is
    // reported.
    ensures reported { (subcommand : TheSubcommand) → asked words.now ≡ Some subcommand → result ≤ 3
        → IfSome (S.left source.old) (λ bytes.
        Tells subcommand bytes result (K.taken sink.old) (K.taken sink.new)) }
    ensures promised { asked words.now ≡ Some TheSubcommand.Build → result ≤ 3
        → IfSome (S.left source.old) (λ bytes.
        KeepsPromise (document_of bytes) (outcome_of TheSubcommand.Build bytes)) }
    ensures reads { LosesAtMost INPUT_LIMIT (S.left source.old) (S.left source.new) }

    // A number of steps: the summary is written.
    ensures generates { (count : ℕ) → steps_asked words.now ≡ Some count
        → (result ≡ 0) ⊎ ((result ≡ 5) ⊎ (result ≡ 6)) }
    ensures summary { (count : ℕ) → steps_asked words.now ≡ Some count → result ≡ 0
        → K.taken sink.new ≡ append_known (K.taken sink.old) (summary_of count) }
    ensures summary_beginning { (count : ℕ) → steps_asked words.now ≡ Some count → result ≡ 5
        → TakesBeginning (K.taken sink.old) (K.taken sink.new) (summary_of count) }

    // Other words: the usage line is written. Without a document nothing is read.
    ensures words { asked words.now ≡ None → steps_asked words.now ≡ None
        → (result ≡ 3) ⊎ (result ≡ 5) }
    ensures usage { result ≡ 3 → asked words.now ≡ None }
    ensures no_steps { result ≡ 3 → steps_asked words.now ≡ None }
    ensures usage_line { result ≡ 3
        → K.taken sink.new ≡ append_known (K.taken sink.old) usage_line }
    ensures unread { asked words.now ≡ None → source.new ≡ source.old }

    // The devices' faults, and out of memory.
    ensures complete { ¬ Rose (S.faults source.old) (S.faults source.new)
        → ¬ Rose (K.faults sink.old) (K.faults sink.new) → (result ≤ 3) ⊎ (result ≡ 6) }
    ensures succeeds { (subcommand : TheSubcommand) → asked words.now ≡ Some subcommand
        → ¬ Rose (S.faults source.old) (S.faults source.new)
        → ¬ Rose (K.faults sink.old) (K.faults sink.new)
        → IfSome (S.left source.old) (λ bytes. Succeeds subcommand (document_of bytes)
        → (result ≡ 0) ⊎ (result ≡ 6)) }
    ensures read_fault { result ≡ 4 → Rose (S.faults source.old) (S.faults source.new) }
    ensures write_fault { result ≡ 5 → Rose (K.faults sink.old) (K.faults sink.new) }
    ensures unwritten { (result ≡ 4) ⊎ (result ≡ 6) → sink.new ≡ sink.old }
    ensures beginning { (subcommand : TheSubcommand) → asked words.now ≡ Some subcommand
        → result ≡ 5
        → IfSome (S.left source.old) (λ bytes. TakesBeginning (K.taken sink.old)
        (K.taken sink.new) (report_of subcommand bytes)) }
    ensures usage_beginning { result ≡ 5 → asked words.now ≡ None → steps_asked words.now ≡ None
        → TakesBeginning (K.taken sink.old) (K.taken sink.new) usage_line }
{
    law_successes();
    let Some(subcommand) = find_subcommand(words) else {
        return match find_steps(words) {
            Some(count) => run_generated(alloc, count, sink),
            None => write_usage(sink),
        };
    };
    let bytes = match read_input(alloc, source) {
        Ok(bytes) => bytes,
        Err(InputFault::Failed) => return 4,
        Err(InputFault::OutOfMemory) => return 6,
    };
    let Ok(response) = respond(alloc, subcommand, bytes.as_slice()) else {
        return 6;
    };
    let Response { status, text, tree } = response;
    forget(tree);
    match write_report(sink, text.as_bytes()) {
        Ok(()) => status,
        Err(_) => 5,
    }
}

/// Writes the line for other words.
fn write_usage<K: Sink>(sink: &mut K) -> u8
    ensures range { (result ≡ 3) ⊎ (result ≡ 5) }
    ensures line { result ≡ 3 → K.taken sink.new ≡ append_known (K.taken sink.old) usage_line }
    ensures fault { result ≡ 5 → Rose (K.faults sink.old) (K.faults sink.new) }
    ensures beginning { result ≡ 5
        → TakesBeginning (K.taken sink.old) (K.taken sink.new) usage_line }
{
    match write_report(sink, USAGE.as_bytes()) {
        Ok(()) => 3,
        Err(_) => 5,
    }
}

/// Runs the script of so many steps, and writes its summary.
fn run_generated<K: Sink>(alloc: Global, count: u32, sink: &mut K) -> u8
    requires { count ≤ STEP_LIMIT }
    ensures range { (result ≡ 0) ⊎ ((result ≡ 5) ⊎ (result ≡ 6)) }
    ensures summary { result ≡ 0
        → K.taken sink.new ≡ append_known (K.taken sink.old) (summary_of count) }
    ensures fault { result ≡ 5 → Rose (K.faults sink.old) (K.faults sink.new) }
    ensures beginning { result ≡ 5
        → TakesBeginning (K.taken sink.old) (K.taken sink.new) (summary_of count) }
    ensures unwritten { result ≡ 6 → sink.new ≡ sink.old }
{
    let Ok(text) = summary_of(alloc, count) else {
        return 6;
    };
    match write_report(sink, text.as_bytes()) {
        Ok(()) => 0,
        Err(_) => 5,
    }
}

/// The subcommand that is asked for, if it is the only one and is known.
fn find_subcommand(words: &[String]) -> Option<Subcommand>
    ensures { result ≡ asked words.now }
{
    match words {
        [subcommand] => match subcommand.as_str() {
            "build" => Some(Subcommand::Build),
            "plan" => Some(Subcommand::Plan),
            _ => None,
        },
        _ => None,
    }
}
