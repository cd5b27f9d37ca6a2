//! Bytes that move from one piece to another.
ghost use Rattle.std.specs.Prelude.{◌≡◌, length, min, take};

/// Copies bytes from the front of one piece to the front of the other, as many as both have and at
/// most `most`, and returns how many.
pub(crate) fn copy_front(most: usize, from: &[u8], into: &mut [u8]) -> usize
    ensures count { result ≡ min most (min (length into.old) (length from.now)) }
    ensures copied { take result into.new ≡ take result from.now }
{
    let n = most.min(into.len()).min(from.len());
    into[..n].copy_from_slice(&from[..n]);
    n
}
