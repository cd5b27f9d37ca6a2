//! The tokens that a run released.
ghost use Rattle.std.specs.Prelude.{◌≡◌, IfOk};
ghost use Rattle.fr_script.specs.Tokens.{counted_once};

use fr_shape::{Items, Ledger, OutOfMemory};
use std::alloc::Global;

/// The tokens whose count is 1, ascending.
pub fn released_tokens(alloc: Global, ledger: &Ledger) -> Result<Items<u32>, OutOfMemory>
    ensures { IfOk result (λ tokens. tokens ≡ counted_once 0 ledger.now) }
{
    let mut tokens = Items::new(alloc);
    for t in 0..ledger.len() {
        if ledger.count(t) == 1 && tokens.push(t).is_err() {
            return Err(OutOfMemory);
        }
    }
    Ok(tokens)
}
