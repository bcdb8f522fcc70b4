//! Devices in memory: files, a source and a sink that tell what they hold, so that contracts over
//! them are exact.
//!
//! There are two of each. A `SureStore`, `SureSource` or `SureSink` never fails; only memory may be
//! wanting. The calls of a `MemStore`, `MemSource` or `MemSink` fail where a test planned it.
#![tactic(auto)]

mod failure_plan;
mod mem_sink;
mod mem_source;
mod mem_store;
mod shelf;
mod sure_sink;
mod sure_source;
mod sure_store;

pub use mem_sink::MemSink;
pub use mem_source::MemSource;
pub use mem_store::MemStore;
pub use sure_sink::SureSink;
pub use sure_source::SureSource;
pub use sure_store::SureStore;
