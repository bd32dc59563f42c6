//! JSON documents as serde_json reads them, kept as the flat tape of the kit's `json`.
//!
//! What a text stands for is what serde_json's own reading of it gives. A document takes 24 bytes a
//! token, where serde_json's tree takes some 28 bytes a byte of text.
#![tactic(auto)]

mod document;
mod doubled;
mod gathered;
mod item;
mod items;
mod object;
mod range;
mod seen;

pub use document::{Document, Refused};
pub use doubled::Doubled;
pub use gathered::{Gathered, Member};
pub use item::Item;
pub use items::Items;
pub use json::Scratch;
pub use object::Object;
