//! Hooks of one's own, to copy: what each of their numbers means, that they are lawful, and the
//! methods that do what is meant.
#![tactic(auto)]

mod own_hooks;

pub use own_hooks::OwnHooks;
