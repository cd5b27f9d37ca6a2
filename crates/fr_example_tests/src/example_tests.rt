//! What each example returns, and what a user of it sees where something is wrong.
mod forms;
mod loader;
mod records;
mod servers;
mod texts;
