//! Bits of a file, through pages: feeds, a bit reader, and writers of bits and bytes.
//!
//! A [`Feed`] gives the bytes of a file one at a time and keeps the page that it read last, so that
//! what stands above reads bit by bit and still asks its device for each page once. A reading call
//! says which pages it may read: those on which the bits asked for lie, less the first where it is
//! held. So counts of reads add up over calls.
#![tactic(auto)]

mod bit_err;
mod bit_reader;
mod bit_writer;
mod code_err;
mod feed;
mod kept_bits;
mod laws;
mod page_feed;
mod page_writer;
mod refusals;
mod slice_feed;
mod small_feed;
mod window;

pub use bit_err::BitErr;
pub use bit_reader::BitReader;
pub use bit_writer::BitWriter;
pub use code_err::CodeErr;
pub use feed::Feed;
pub use laws::{bits_tell_bytes, held_pages_stay, written_bits_stay};
pub use page_feed::PageFeed;
pub use page_writer::PageWriter;
pub use refusals::refused;
pub use slice_feed::{NoDev, SliceFeed};
pub use small_feed::SmallFeed;
