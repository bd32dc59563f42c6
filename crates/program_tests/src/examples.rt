//! The examples of docs/LIBRARY.md, which calls the crates of the bench from Rattle.
mod kernel;
mod store;
mod texts;
