//! Where in a JSON text a value stands that a path or the number of a token names, by line and
//! column, and the words in which people are told of it.
#![tactic(auto)]

mod doubled;
mod location;
mod path;
mod quoted;
mod search;
mod starts;

pub use doubled::doubled_line;
pub use location::TextLocation;
pub use search::{location_of_path, location_of_token};
