//! The devices of the system: files, standard input and standard output.
//!
//! This crate is the whole edge between the program and the system, and all that is trusted of it:
//! that a call of the system does what the trait of `mg_dev` says of a device that tells nothing.
//! What it does on real files and streams is tested. Only the program and the tests use it.
#![tactic(auto)]

mod host_io;
mod host_sink;
mod host_source;
mod host_store;

pub use host_sink::HostSink;
pub use host_source::HostSource;
pub use host_store::HostStore;
