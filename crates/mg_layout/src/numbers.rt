//! The numbers of fields, for the crates above.
pub use mg_fields::{eight_at, four_at};
