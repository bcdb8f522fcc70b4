//! The names of two sets.
ghost use Rattle.std.specs.Prelude.{◌≢◌};

/// The base of the set that is read, and that of the set that is made of it: another one.
#[derive(Clone, Copy)]
pub(crate) struct Bases<'a> {
    pub(crate) name: &'a str,
    pub(crate) new: &'a str,
    ghost apart: { new.now ≢ name.now },
}
