//! The schema of a graph: the names of its object types, and its association types with their
//! inverses and bounds.
//!
//! Contracts see the object types as the list of their names, the association types as the list of
//! the lines that they were read from, and a schema as these two.
//!
//! What it promises. A schema is read exactly where its lists keep the rules, else refused at the first place
//! that breaks one; the inverse of the inverse is the type itself; bounds are 1 to 6,000; names are found exactly
//! where they stand, by a map; each list has 1 to 64 entries, and is seen in its order.
//!
//! The contracts that say so: `Schema::read`, `Schema::inverse`, `Schema::bound`, `Schema::atype`,
//! `Schema::otype`, `Schema::otype_name`, `ObjectTypes::as_slice`, `AssocTypes::as_slice`.
#![tactic(auto)]

pub mod assocs;
pub mod lines;
mod names;
pub mod objects;
pub mod refusal;
pub mod schema;

pub use assocs::AssocTypes;
pub use lines::{AssocLine, MAX_BOUND};
pub use objects::ObjectTypes;
pub use refusal::{SchemaField, SchemaRefusal};
pub use schema::Schema;
