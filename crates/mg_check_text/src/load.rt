//! The codes and the text of a set whose head is known.
ghost use Rattle.std.specs.Prelude.{IfOk};
ghost use Rattle.mg_dev.specs.Moments.{Between};
ghost use Rattle.mg_defs.specs.Heads.{IsWithin};
ghost use Rattle.mg_defs.specs.Means.{IsModel, StandForNone};
ghost use Rattle.mg_layout.specs.HeadAnswers.{fields_of};
ghost use Rattle.mg_layout.specs.Stands.{parts_at};
ghost use Rattle.mg_text.specs.Reading.{IsTextReader, TextFits};
ghost use Rattle.mg_check_text.specs.Checking.{HasHead, IsLoaded};
ghost use Rattle.mg_check_parts.specs.Refusals.{OnBad};
ghost use Rattle.mg_check_parts.specs.Looks.{LooksAtSet};

use mg_dev::{PartErr, Store};
use mg_layout::Head;
use mg_model::{Stream, TextModel};
use mg_text::TextReader;
use std::alloc::Global;

// A law of models: their codes are those of a model.
fn codes_keep(model: &TextModel)
    ensures { IsModel model.now }
{
    let _words = model.canon(Stream::Words);
    let _others = model.canon(Stream::Others);
}

/// Loads the reader of the text by its head, and refuses sizes and codes that are those of no set with this head.
pub fn load_text<'a, S: Store>(
    alloc: Global,
    store: &mut S,
    base: &'a str,
    head: &Head,
) -> Result<TextReader<'a, S>, PartErr>
    requires within { IsWithin (fields_of head.now) }
    ensures fits { IfOk result (λ r. TextFits r (S.files store.new)) }
    ensures reader { IfOk result (λ r. IsTextReader r base.entry.now head.now) }
    ensures model { IfOk result (λ r. IsModel r.code) }
    ensures told { HasHead (S.files store.old) base.entry.now head.now →
        IfOk result (λ r. IsLoaded (S.files store.old) base.entry.now head.now r) }
    ensures none { HasHead (S.files store.old) base.entry.now head.now →
        OnBad result (StandForNone (parts_at (S.files store.old) base.entry.now)) }
    ensures looks { Between S.files S.reads S.faults store.old store.new (LooksAtSet result) }
{
    let reader = match TextReader::load(alloc, store, base, head) {
        Ok(reader) => reader,
        Err(refusal) => return Err(refusal),
    };
    codes_keep(reader.model());
    Ok(reader)
}
