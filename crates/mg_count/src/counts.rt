//! What is met in a collection, counted.
ghost use Rattle.std.specs.Prelude.{◌≡◌, ◌<◌, ◌≤◌, ◌+◌, ◌-◌, ◌^◌, ◌++◌, ◌∷◌, List, [], length, IfErr, OnOk};
ghost use Rattle.mg_dev.specs.declared.fault.Fault.TheVariants.{Memory};
ghost use Rattle.mg_defs.specs.declared.Stream.{Stream as Streams};
ghost use Rattle.mg_defs.specs.Marks.{Mark, piece, start, stop};
ghost use Rattle.mg_defs.specs.Vocabulary.{counted, has_piece, total};
ghost use Rattle.mg_count.specs.Counting.{AreFew, IsCounted, PieceStops, StopsAt};
ghost use Rattle.mg_count.specs.Meeting.{marks_of, only_if};
ghost use Rattle.mg_count.specs.Whole.{fault_by};

use crate::met::Met;
use mg_dev::Fault;
use mg_laws::marks_add_up;
use mg_model::{Piece, Stream, Vocab, VocabErr};
use std::alloc::Global;
use std::marker::Model;

/// The most documents of a collection.
const MOST_DOCUMENTS: u32 = 1 << 24;

/// The pieces of both streams, and the pairs of each document.
///
/// After a refusal they are counts of nothing: no more is to be counted with them.
#[derive(Drop)]
pub(crate) struct Counts {
    words: Vocab,
    others: Vocab,
    pairs: Vec<u32>,
    pieces: u64,
    documents: u32,
}

impl Model for Counts {
    ghost use Rattle.mg_count.specs.Counting.{Counting};

    ghost Value = { Counting };

    ghost view = { λ c. record { words = c.words; others = c.others; pairs = c.pairs.items; pieces = c.pieces; documents = c.documents } };
}

/// Counts a piece, of at most 255 bytes. It is one too many exactly where it is new among 2^22 others.
#[inline]
fn count_in(vocab: &mut Vocab, bytes: &Piece<'_>) -> Result<(), VocabErr>
    requires total { total vocab.old < 2 ^ 32 - 1 }
    requires short { length bytes.now ≤ 255 }
    ensures counted { OnOk result (vocab.new ≡ counted bytes.now vocab.old) }
    ensures few { OnOk result (length vocab.new ≤ 2 ^ 22) }
    ensures refused { IfErr result (λ refusal. (stream : Streams) →
        PieceStops stream vocab.old bytes.now (fault_by stream refusal)) }
{
    match vocab.count(bytes) {
        Ok(()) => {
            // For the proof: no vocabulary has more than 2^22 entries.
            let _ = vocab.len();
            Ok(())
        }
        Err(refusal) => Err(refusal),
    }
}

/// Why a piece of the stream is not counted, as a fault.
pub(crate) fn fault_of(stream: Stream, refusal: VocabErr) -> Fault
    ensures { result ≡ fault_by stream refusal }
{
    match refusal {
        VocabErr::TooMany => Fault::TooManyPieces { stream },
        VocabErr::Memory => Fault::Memory,
    }
}

impl Counts {
    /// Nothing is counted.
    pub(crate) fn new(alloc: Global) -> Self
        ensures { IsCounted result [] }
    {
        Counts {
            words: Vocab::new(alloc),
            others: Vocab::new(alloc),
            pairs: Vec::new(alloc),
            pieces: 0,
            documents: 0,
        }
    }

    /// Counts each of the four that is met.
    pub(crate) fn take(&mut self, met: &Met) -> Result<(), Fault>
        requires few { (before : List Mark) × IsCounted self.old before
            × AreFew (before ++ marks_of met.now) }
        ensures counted { OnOk result ((before : List Mark) → IsCounted self.old before →
            IsCounted self.new (before ++ marks_of met.now)) }
        ensures refused { IfErr result (λ fault. (before : List Mark) → IsCounted self.old before →
            StopsAt before (marks_of met.now) fault) }
    {
        if met.is_piece_alone() {
            return self.piece_if(true, met.kind(), met.piece());
        }
        self.take_each(met)
    }

    // The same, asking for each of the four.
    #[inline(never)]
    fn take_each(&mut self, met: &Met) -> Result<(), Fault>
        requires few { (before : List Mark) × IsCounted self.old before
            × AreFew (before ++ marks_of met.now) }
        ensures counted { OnOk result ((before : List Mark) → IsCounted self.old before →
            IsCounted self.new (before ++ marks_of met.now)) }
        ensures refused { IfErr result (λ fault. (before : List Mark) → IsCounted self.old before →
            StopsAt before (marks_of met.now) fault) }
    {
        marks_add_up();
        self.begin_if(met.begins())?;
        self.piece_if(met.has_piece(), met.kind(), met.piece())?;
        self.piece_if(met.has_other(), met.other_kind(), &[])?;
        self.end_if(met.ends())
    }

    /// Counts the start of a document, where one begins.
    fn begin_if(&mut self, begins: bool) -> Result<(), Fault>
        ensures counted { OnOk result ((met : List Mark) → IsCounted self.old met →
            IsCounted self.new (met ++ only_if begins start)) }
        ensures refused { IfErr result (λ fault. (met : List Mark) → IsCounted self.old met →
            StopsAt met (only_if begins start) fault) }
    {
        marks_add_up();
        if !begins {
            return Ok(());
        }
        if self.documents >= MOST_DOCUMENTS {
            return Err(Fault::TooManyDocuments);
        }
        self.documents += 1;
        self.pieces = 0;
        Ok(())
    }

    /// Counts a piece, where one is met.
    fn piece_if(&mut self, is_met: bool, stream: Stream, bytes: &[u8]) -> Result<(), Fault>
        requires short { length bytes.now ≤ 255 }
        requires few { (met : List Mark) × IsCounted self.old met
            × AreFew (met ++ only_if is_met (piece stream bytes.now)) }
        ensures counted { OnOk result ((met : List Mark) → IsCounted self.old met →
            IsCounted self.new (met ++ only_if is_met (piece stream bytes.now))) }
        ensures refused { IfErr result (λ fault. (met : List Mark) → IsCounted self.old met →
            StopsAt met (only_if is_met (piece stream bytes.now)) fault) }
    {
        if !is_met {
            return Ok(());
        }
        match self.add(stream, &Piece::alone(bytes)) {
            Ok(()) => Ok(()),
            Err(refusal) => Err(fault_of(stream, refusal)),
        }
    }

    /// Counts a piece. What it answers is small, so that a piece costs no room for a fault.
    #[inline]
    pub(crate) fn add(&mut self, stream: Stream, bytes: &Piece<'_>) -> Result<(), VocabErr>
        requires short { length bytes.now ≤ 255 }
        requires few { (met : List Mark) × IsCounted self.old met
            × AreFew (met ++ piece stream bytes.now ∷ []) }
        ensures counted { OnOk result ((met : List Mark) → IsCounted self.old met →
            IsCounted self.new (met ++ piece stream bytes.now ∷ [])) }
        ensures refused { IfErr result (λ refusal. (met : List Mark) → IsCounted self.old met →
            StopsAt met (piece stream bytes.now ∷ []) (fault_by stream refusal)) }
    {
        marks_add_up();
        self.pieces += 1;
        match stream {
            Stream::Words => count_in(&mut self.words, bytes),
            Stream::Others => count_in(&mut self.others, bytes),
        }
    }

    /// Keeps the number of a document's pairs, where one ends. Its pieces are twice as many.
    fn end_if(&mut self, ends: bool) -> Result<(), Fault>
        requires few { (met : List Mark) × IsCounted self.old met × AreFew met }
        ensures counted { OnOk result ((met : List Mark) → IsCounted self.old met →
            IsCounted self.new (met ++ only_if ends stop)) }
        ensures refused { IfErr result (λ fault. fault ≡ Memory) }
    {
        marks_add_up();
        if !ends {
            return Ok(());
        }
        self.pairs.push((self.pieces / 2) as u32)?;
        self.pieces = 0;
        Ok(())
    }

    /// The words, the others, and the pairs of each document.
    pub(crate) fn into_parts(self) -> (Vocab, Vocab, Vec<u32>)
        ensures words { result.0 ≡ self.words }
        ensures others { result.1 ≡ self.others }
        ensures pairs { result.2.items ≡ self.pairs }
    {
        let Counts {
            words,
            others,
            pairs,
            ..
        } = self;
        (words, others, pairs)
    }
}
