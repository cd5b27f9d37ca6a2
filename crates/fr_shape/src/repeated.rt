//! The first of some keys that an earlier one equals, by a set of the earlier ones.
ghost use Rattle.std.specs.Prelude.{◌≡◌, true, IfOk, MatchOption};
ghost use Rattle.fr_shape.specs.Distinct.{distinct, IsFirstRepeated};

use crate::OutOfMemory;
use std::alloc::Global;
use std::collections::BTreeSet;

/// The first key that equals an earlier one, by its index.
pub(crate) fn first_repeated<K: Ord + Copy + Drop>(
    alloc: Global,
    keys: &[K],
) -> Result<Option<usize>, OutOfMemory>
    ensures { IfOk result (λ found.
        MatchOption found (distinct K.eq keys.now ≡ true) (IsFirstRepeated K.eq keys.now)) }
{
    let mut earlier = BTreeSet::new(alloc);
    for i in 0..keys.len() {
        if !earlier.insert(keys[i])? {
            return Ok(Some(i));
        }
    }
    Ok(None)
}

/// Whether no two keys are equal.
pub(crate) fn are_distinct<K: Ord + Copy + Drop>(
    alloc: Global,
    keys: &[K],
) -> Result<bool, OutOfMemory>
    ensures { IfOk result (λ apart. apart ≡ distinct K.eq keys.now) }
{
    Ok(first_repeated(alloc, keys)?.is_none())
}

/// Whether so many items are worth a set: few are sooner compared pair by pair.
pub(crate) fn is_long(count: usize) -> bool {
    count > 8
}
