//! What a run may be asked to do with a document.

/// `Build` runs a document's script, `Plan` plans the document's root.
#[derive(Clone, Copy, PartialEq, Eq)]
pub enum Subcommand {
    Build,
    Plan,
}
