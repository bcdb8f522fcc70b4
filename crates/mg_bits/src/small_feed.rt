//! A feed over a file, through a lent slot of 64 bytes.
ghost use Rattle.std.specs.Prelude.{◌≡◌, ◌≤◌, Option, None, IsSome, take};
ghost use Rattle.std.proofs.Common.{rules};
ghost use Rattle.mg_dev.specs.Files.{Files, bytes_at};
ghost use Rattle.mg_dev.specs.Names.{full_name};
ghost use Rattle.mg_bits.specs.Feed.{over_file, of_store};
ghost use Rattle.mg_bits.specs.FeedLaws.{same_page};
ghost use Rattle.mg_bits.specs.Pages.{IsFirst, IsPageIn};

use crate::Feed;
use crate::window::{Window, byte_in, window_byte, word_in};
use mg_dev::{Failed, FileRef, Store};
use std::marker::PhantomData;

/// A feed over one file of a store, which keeps 64 bytes of it in a lent slot, and so takes no
/// memory: as many can stand side by side as there are slots.
#[derive(Drop)]
pub struct SmallFeed<'a, 'b, S> {
    file: FileRef<'a>,
    slot: &'b mut [u8; 64],
    window: Window,
    of: PhantomData<S>,
    ghost within: { window.count ≤ 64 },
    ghost first: { IsFirst window.held 64 window.first window.count },
}

impl<'a, 'b, S: Store> SmallFeed<'a, 'b, S> {
    /// A feed that holds no page.
    pub fn new(file: FileRef<'a>, slot: &'b mut [u8; 64]) -> Self
        ensures feeding { ⟦<SmallFeed<'a, 'b, S> as Feed>⟧.feeding result
            ≡ over_file (full_name file.entry.base.now file.entry.part) file.entry.part 64 None 0 }
        ensures fits { (files : Option Files) → ⟦<SmallFeed<'a, 'b, S> as Feed>⟧.fits result files }
    {
        SmallFeed {
            file,
            slot,
            window: Window::empty(),
            of: PhantomData,
        }
    }
}

impl<'a, 'b, S: Store> Feed for SmallFeed<'a, 'b, S> {
    type Dev = S;

    ghost device = { λ d. of_store (S.files d) (S.faults d) (S.reads d) };

    ghost feeding = { λ s. over_file (full_name s.file.base.now s.file.part) s.file.part 64 s.window.held s.window.reads };

    ghost fits = { λ s files. IsSome files →
        IsPageIn 64 s.window.held (take s.window.count s.slot.now) (bytes_at files (full_name s.file.base.now s.file.part)) };

    #[inline]
    fn byte(&mut self, dev: &mut S, at: u64) -> Result<Option<u8>, Failed> {
        let file = self.file;
        let mut window = self.window;
        let slot = &mut *self.slot;
        let answer = window_byte(dev, &file, slot, &mut window, at / 64, (at % 64) as usize);
        self.window = window;
        answer
    }

    #[inline]
    fn held_byte(&self, at: u64) -> Option<u8> {
        if !self.window.has(at) {
            return None;
        }
        let index = (at - self.window.first) as usize;
        byte_in(&self.slot[..self.window.count], index)
    }

    #[inline]
    fn word(&self, at: u64) -> Option<u64> {
        if !self.window.has(at) {
            return None;
        }
        let index = (at - self.window.first) as usize;
        word_in(&self.slot[..self.window.count], index)
    }

    ghost whole_pages = { λ s. Prim.search rules };

    ghost fits_source = { λ s f g same fit. same_page 64 s.window.held (take s.window.count s.slot.now) (full_name s.file.base.now s.file.part) f g same fit };
}
