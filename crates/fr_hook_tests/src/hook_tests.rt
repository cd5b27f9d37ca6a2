//! Documents with hooks, each run from its text to its report, and scripts by hooks of one's own.
mod conversion_documents;
mod conversion_places;
mod documents;
mod hook_documents;
mod own_conversions;
mod own_scripts;
mod parse_documents;
mod sample_documents;
