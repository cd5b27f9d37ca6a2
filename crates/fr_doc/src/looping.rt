//! The loops that read a whole input and write a whole report.
ghost use Rattle.std.specs.Prelude.{◌≡◌, ◌<◌, ◌≤◌, ◌+◌, length, take, drop, vec_len, IfOk, IsErrOf, OnOk, OnErr, IfSome};
ghost use Rattle.std.specs.Option.{option_map};
ghost use Rattle.std.specs.Io.KnownBytes.{prepend_known, append_known, IsAtEnd};
ghost use Rattle.fr_doc.specs.Causes.{Rose, HasCause, LosesAtMost, TakesBeginning};

use super::device::{Failed, Sink, Source};
use fr_shape::Items;
use std::alloc::{AllocError, Global};

/// The most bytes of a document.
pub const DOCUMENT_LIMIT: usize = 8_388_608;

/// The most bytes that are read of an input: one more than a document may have, which shows that it
/// is too long.
pub const INPUT_LIMIT: usize = DOCUMENT_LIMIT + 1;

/// The most bytes of one call of a source.
const PIECE_LIMIT: usize = 65_536;

/// Why an input wasn't read.
#[derive(Clone, Copy, PartialEq, Eq)]
pub enum InputFault {
    /// The source failed.
    Failed,
    /// There was no room for the bytes.
    OutOfMemory,
}

impl From<Failed> for InputFault {
    ghost use Rattle.fr_doc.specs.declared.looping.InputFault.{InputFault};
    ghost use Rattle.std.specs.Prelude.{◌≡◌};

    ghost from_gives = { λ _ fault. fault ≡ InputFault.Failed };

    fn from(_: Failed) -> Self {
        InputFault::Failed
    }
}

impl From<AllocError> for InputFault {
    ghost use Rattle.fr_doc.specs.declared.looping.InputFault.{InputFault};
    ghost use Rattle.std.specs.Prelude.{◌≡◌};

    ghost from_gives = { λ _ fault. fault ≡ InputFault.OutOfMemory };

    fn from(_: AllocError) -> Self {
        InputFault::OutOfMemory
    }
}

/// Reads a source to its end, or to `INPUT_LIMIT` bytes where it has more. The bytes that were read
/// before an error are lost.
pub fn read_input<S: Source>(alloc: Global, source: &mut S) -> Result<Items<u8>, InputFault>
    // Where the source tells its bytes.
    ensures bytes { IfOk result (λ bytes.
        IfSome (S.left source.old) (λ left. bytes ≡ take INPUT_LIMIT left)) }
    ensures rest { OnOk result
        (S.left source.new ≡ option_map (drop INPUT_LIMIT) (S.left source.old)) }
    ensures err { OnErr result (LosesAtMost INPUT_LIMIT (S.left source.old) (S.left source.new)) }

    // At any source.
    ensures limit { IfOk result (λ bytes. length bytes ≤ INPUT_LIMIT) }
    ensures never_falls { S.faults source.old ≤ S.faults source.new }
    ensures cause { IsErrOf result InputFault.Failed →
        Rose (S.faults source.old) (S.faults source.new) }
{
    read_up_to(alloc, source, INPUT_LIMIT)
}

// What `read_input` does, at any limit.
fn read_up_to<S: Source>(
    alloc: Global,
    source: &mut S,
    limit: usize,
) -> Result<Items<u8>, InputFault>
    ensures bytes { IfOk result (λ bytes.
        IfSome (S.left source.old) (λ left. bytes ≡ take limit left)) }
    ensures rest { OnOk result (S.left source.new ≡ option_map (drop limit) (S.left source.old)) }
    ensures err { OnErr result (LosesAtMost limit (S.left source.old) (S.left source.new)) }
    ensures limit { IfOk result (λ bytes. length bytes ≤ limit) }
    ensures never_falls { S.faults source.old ≤ S.faults source.new }
    ensures cause { IsErrOf result InputFault.Failed →
        Rose (S.faults source.old) (S.faults source.new) }
{
    let mut buffer = buffer_of(alloc, PIECE_LIMIT)?;
    let buffer = buffer.as_mut_slice();
    let mut bytes = Vec::new(alloc);
    while bytes.len() < limit {
        let most = buffer.len().min(limit - bytes.len());
        if read_piece(source, &mut buffer[..most], &mut bytes)? == 0 {
            return Ok(Items::from_vec(bytes));
        }
    }
    Ok(Items::from_vec(bytes))
}

// Reads one piece, puts it behind the bytes that were read before, and returns how long it is. 0 is
// the end of the source.
fn read_piece<S: Source>(
    source: &mut S,
    piece: &mut [u8],
    bytes: &mut Vec<u8>,
) -> Result<usize, InputFault>
    requires { 0 < length piece.old }
    ensures at_most { IfOk result (λ n. n ≤ length piece.old) }
    ensures len { IfOk result (λ n. vec_len bytes.new ≡ vec_len bytes.old + n) }
    // What was read and what is left are together what they were.
    ensures together { OnOk result (prepend_known bytes.new.items (S.left source.new)
        ≡ prepend_known bytes.old.items (S.left source.old)) }
    ensures end { IfOk result (λ n. n ≡ 0 → IsAtEnd (S.left source.new)) }
    ensures err { OnErr result
        (LosesAtMost (length piece.old) (S.left source.old) (S.left source.new)) }
    ensures never_falls { S.faults source.old ≤ S.faults source.new }
    ensures cause { IsErrOf result InputFault.Failed →
        Rose (S.faults source.old) (S.faults source.new) }
{
    let n = source.read(piece)?;
    bytes.extend_from_slice(&piece[..n])?;
    Ok(n)
}

// A buffer of so many bytes.
fn buffer_of(alloc: Global, len: usize) -> Result<Vec<u8>, AllocError>
    ensures { IfOk result (λ buffer. vec_len buffer ≡ len) }
{
    vec![in alloc; 0; len]
}

/// Writes a whole report. Where the sink fails, it has taken a beginning of it.
pub fn write_report<K: Sink>(sink: &mut K, report: &[u8]) -> Result<(), Failed>
    ensures ok { OnOk result (K.taken sink.new ≡ append_known (K.taken sink.old) report.now) }
    ensures err { OnErr result (TakesBeginning (K.taken sink.old) (K.taken sink.new) report.now) }
    ensures never_falls { K.faults sink.old ≤ K.faults sink.new }
    ensures cause { HasCause (K.faults sink.old) (K.faults sink.new) result }
{
    let mut rest = report;
    while !rest.is_empty() {
        let n = sink.write(rest)?;
        rest = &rest[n..];
    }
    Ok(())
}
