// The field of 2^128 elements and GHASH over it. A hash key is prepared once, as a table, and every hash is GHASH's
// definition at that key. No place that is read depends on the hash key or on what is hashed.
#![tactic(auto)]

mod element;
mod field;
mod hash;
mod laws;
mod quad;
mod table;

pub use crate::element::Element;
pub use crate::field::product;
pub use crate::hash::{hash_block, hash_padded};
pub use crate::laws::product_laws;
pub use crate::table::Table;
