//! The size of a part against the one that it is to have.
ghost use Rattle.mg_dev.specs.Files.{SameReads, file_bytes};
ghost use Rattle.mg_dev.specs.Moments.{Between};
ghost use Rattle.mg_layout.specs.Compares.{Compares};
ghost use Rattle.mg_layout.specs.Sizes.{AnswersSize};

use mg_dev::{Bad, FileRef, PartErr, Store};

/// Refuses a part of another size than wanted. A missing part has no bytes.
pub fn expect_size<S: Store>(store: &mut S, file: FileRef<'_>, wanted: u64) -> Result<(), PartErr>
    ensures { Between S.files S.reads S.faults store.old store.new
        (Compares (λ files. AnswersSize file.entry.part wanted (file_bytes file.entry files))
        SameReads result) }
{
    let found = match store.size(&file) {
        Ok(size) => size.unwrap_or(0),
        Err(_) => return Err(PartErr::Device),
    };
    if found == wanted {
        return Ok(());
    }
    Err(PartErr::Bad(Bad {
        part: file.part,
        at: 0,
        low: wanted,
        high: wanted,
        found,
    }))
}
