//! The run before some edits beside the run after them: of a session as its steps stand or settled,
//! or of a workload.
#![tactic(auto)]

mod alike;
mod columns;
mod comparison;
mod event_kind;
mod gains;
mod known;
pub mod laws;
mod left;
mod made;
mod pair;
mod place_pair;
mod printed;
mod refusals;
mod row_words;
mod rows;
mod run_reader;
mod shared;
mod shown;
mod side_by_side;

pub use columns::{Side, columns_of, law_of_columns};
pub use comparison::{compare, compare_with_itself};
pub use known::push_known;
pub use left::push_left_lines;
pub use pair::RunPair;
pub use refusals::{has_refusal, refused_places};
pub use rows::Row;
