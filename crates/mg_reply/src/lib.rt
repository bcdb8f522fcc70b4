//! Sessions: the lines of an input, the commands among them, the texts of replies, and the loop that
//! answers one line after another.
//!
//! What is unusual: a session is written once, over anything that answers a query line from a device
//! ([`Answerer`]) and for both ways in which lines are heard ([`Hearing`]), so a scan of plain
//! documents, a search of a built set and sessions without commands are the same loop.
//! [`serve_lines`] promises the whole output from the replies by which the answerer answers, where
//! there are such: files that stand for nothing have none. Input and output are buffered: a
//! [`LineReader`] keeps what is past a line's end, and a [`Pending`] lets texts wait for the sink.
//!
//! The session's lines, commands and texts are this program's own; the kinds of query that it
//! answers are those of Witten, Moffat and Bell, *Managing Gigabytes*, chapter 4.
#![tactic(auto)]

mod command;
mod hit;
mod input_buffer;
mod line;
mod pending;
mod reader;
mod serve;
mod text;

pub use command::read_command;
pub use hit::{Shown, pass_hit, pass_shown, shows};
pub use mg_defs::{Command, Hearing, Mode, Settings};
pub use pending::Pending;
pub use reader::{LineErr, LineEvent, LineReader};
pub use serve::{Answerer, ServeErr, fault_of, serve_lines};
pub use text::{
    answer_refused, put_close, put_count, put_refusal, put_row, put_shown, put_too_long, put_wrong,
};
