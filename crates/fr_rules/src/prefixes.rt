//! The first bytes of a name as one number, by which long lookups are split.
ghost use Rattle.std.specs.Prelude.{◌≡◌, ◌≤◌};
ghost use Rattle.fr_rules.specs.Prefixes.{prefix_of, prefix_len_of};

use crate::FieldLookupEntry;

/// How many bytes the prefixes of the entries' names have.
pub(crate) fn prefix_len_of(entries: &[FieldLookupEntry]) -> usize
    ensures { result ≡ prefix_len_of entries.now }
{
    let long = entries.iter().filter(|entry| entry.name.len() >= 8).count();
    if long > entries.len() / 2 { 8 } else { 4 }
}

/// The first `prefix_len` bytes of a name, the lowest first.
pub(crate) fn prefix_of(prefix_len: usize, name: &str) -> u64
    requires { prefix_len ≤ 8 }
    ensures { result ≡ prefix_of prefix_len name.now }
{
    let name = name.as_bytes();
    let len = name.len().min(prefix_len);
    let mut bytes = [0; 8];
    bytes[..len].copy_from_slice(&name[..len]);
    u64::from_le_bytes(bytes)
}
