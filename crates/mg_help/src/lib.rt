//! What the program tells of itself: its help, its version, and the hint behind words that are not understood.
//!
//! [`page_asked`] says which words ask for a page. The program asks it before it runs a tool, so its exact
//! clause tells which words no tool sees. What the pages and the hints say is tested alone. The crate
//! stands on no other crate of the workspace.
#![tactic(auto)]

mod asking;
mod hints;
mod pages;

pub use asking::{Page, page_asked};
pub use hints::hint;
pub use pages::text_of;
