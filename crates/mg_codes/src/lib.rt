//! The unary, gamma, short and Golomb codes of numbers, both ways.
//!
//! A reader of a code has a limit, and answers the value whose code stands at its place, that the
//! file ends within a code, or that no code up to the limit can stand there. It decides this as
//! early as it can: it reads a bit only while the bits before it are the front of a code that it
//! would take, and so touches no page on which an accepted code doesn't lie. (Managing Gigabytes,
//! chapter 3.)
#![tactic(auto)]

mod gamma;
mod golomb;
mod held;
mod refusals;
mod remainder;
mod round_trip;
mod short;
mod unary;

pub use gamma::{get_gamma, put_gamma};
pub use golomb::{get_golomb, put_golomb};
pub use round_trip::what_was_put_is_got;
pub use short::{get_short, put_short};
pub use unary::{get_unary, put_unary};
