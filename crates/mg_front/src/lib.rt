//! Front-coded strings: a list of rising strings, each with a field of a fixed width, in which an
//! entry tells only how its string differs from the one before.
//!
//! Every fourth entry is whole, so that an entry is read from the whole one at or before it, with
//! at most three steps. The places of the whole entries stand in a part of their own, by which a
//! [`FrontReader`] finds a string among them before it reads the few entries behind one. A
//! [`FrontWalk`] needs no places and gives all entries in order.
//!
//! The code is that of Witten, Moffat and Bell, *Managing Gigabytes*, chapter 4.
#![tactic(auto)]

mod entry;
mod held;
mod laws;
mod put;
mod reader;
mod walk;
mod writer;

pub use entry::FrontEntry;
pub use laws::fronts_stay;
pub use put::shared;
pub use reader::FrontReader;
pub use walk::FrontWalk;
pub use writer::FrontWriter;
