//! The devices of the program: where bytes come from, where they go, and the files between; and
//! why a run stops.
//!
//! The rest of the program is generic over three traits, `Source`, `Sink` and `Store`, and meets
//! the system nowhere else. Each has meanings that contracts alone see: what it holds, and how
//! often it failed, lacked memory or read a part. What it holds is optional. A device in memory
//! tells it, so contracts above are exact over such a device; a device of the system tells
//! nothing, since no proof knows what a file has, and the same contracts then say what holds
//! whatever the system does. The counts are there so that each refusal has a cause: `Failed`
//! comes only where the device counted a failure.
//!
//! The devices themselves stand in two crates beside this one: `mg_host` has those of the system,
//! which are trusted and only tested; `mg_mem` has those in memory.
#![tactic(auto)]

mod bad;
mod device;
mod fault;
mod fault_line;
mod file_ref;
mod laws;
mod part;
mod part_err;
mod reads;
mod show_err;
mod sink;
mod source;
mod status;
mod store;
mod what;

pub use bad::Bad;
pub use device::{Failed, PutErr};
pub use fault::Fault;
pub use fault_line::{Piece, put_fault_line, put_pieces};
pub use file_ref::FileRef;
pub use laws::names_apart;
pub use part::Part;
pub use part_err::PartErr;
pub use reads::count_read;
pub use show_err::{ShowErr, refused_put};
pub use sink::Sink;
pub use source::Source;
pub use status::Status;
pub use store::Store;
pub use what::What;
