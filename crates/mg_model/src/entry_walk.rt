//! Entries that are given one after the other.
//!
//! What reads the pieces of a part takes whatever walks over its entries: it sees no more of it than
//! this trait tells.
ghost use Rattle.std.specs.Prelude.{List};
ghost use Rattle.mg_defs.specs.Front.{Entry};
ghost use Rattle.mg_dev.specs.Moments.{Between};
ghost use Rattle.mg_front.specs.Walk.{Gave, Stepped, Walking};

use mg_dev::{PartErr, Store};
use mg_front::{FrontEntry, FrontWalk};

/// A walk over the entries of a part, in their order.
pub trait EntryWalk<S: Store> {
    /// What contracts see of it.
    ghost walking: { Self → Walking };

    /// The next entry; false after the last.
    fn next_entry(&mut self, store: &mut S, out: &mut FrontEntry) -> Result<bool, PartErr>
        requires { (es : List Entry) × Gave (walking self.old) (S.files store.old) es }
        ensures { Between S.files S.reads S.faults store.old store.new
            (Stepped (walking self.old) (walking self.new) out.new result) };
}

impl<'a, S: Store> EntryWalk<S> for FrontWalk<'a, S> {
    ghost walking = { λ w. w };

    fn next_entry(&mut self, store: &mut S, out: &mut FrontEntry) -> Result<bool, PartErr> {
        self.next(store, out)
    }
}
