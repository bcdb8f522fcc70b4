//! What a reader of a text is made of.
ghost use Rattle.std.specs.Prelude.{◌≡◌, IfOk};
ghost use Rattle.mg_dev.specs.declared.part.Part.TheVariants as part;
ghost use Rattle.mg_text.specs.Reading.{IsFeedOf};

use crate::show_buffer::ShowBuffer;
use mg_bits::PageFeed;
use mg_dev::{FileRef, Part, Store};
use std::alloc::{AllocError, Global};

/// The feeds of Text and of Places, the buffer that documents gather in, and the model that they are
/// decoded by. The model is a type parameter: so who drops it has none of its parts to drop.
#[derive(Drop)]
pub(crate) struct ReaderParts<'a, S: Store, M: Drop> {
    pub(crate) text: PageFeed<'a, S>,
    pub(crate) places: PageFeed<'a, S>,
    pub(crate) buffer: ShowBuffer,
    pub(crate) model: M,
}

/// A feed of a part under a base.
fn feed_of<'a, S: Store>(
    alloc: Global,
    base: &'a str,
    part: Part,
) -> Result<PageFeed<'a, S>, AllocError>
    ensures { IfOk result (λ feed. IsFeedOf feed base.entry.now part) }
{
    PageFeed::new(alloc, FileRef { base, part })
}

impl<'a, S: Store, M: Drop> ReaderParts<'a, S, M> {
    /// Those of the text under a base, with this model.
    pub(crate) fn new(alloc: Global, base: &'a str, model: M) -> Result<Self, AllocError>
        ensures text { IfOk result (λ parts. IsFeedOf parts.text base.entry.now part.Text) }
        ensures places { IfOk result (λ parts. IsFeedOf parts.places base.entry.now part.Places) }
        ensures model { IfOk result (λ parts. parts.model ≡ model) }
    {
        Ok(ReaderParts {
            text: feed_of(alloc, base, Part::Text)?,
            places: feed_of(alloc, base, Part::Places)?,
            buffer: ShowBuffer::new(alloc, 0)?,
            model,
        })
    }
}
