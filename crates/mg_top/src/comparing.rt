//! What a set and the collection's text tell, compared.
ghost use Rattle.std.specs.Prelude.{◌≡◌, ◌≤◌, true, length, IfErr, IfOk, Ok};
ghost use Rattle.mg_dev.specs.Each.{ForEach};
ghost use Rattle.mg_layout.specs.Stands.{Stands};
ghost use Rattle.mg_defs.specs.Generator.{made_session};
ghost use Rattle.mg_defs.specs.Replies.{session};
ghost use Rattle.mg_top.specs.Trials.{AsksBuilt, HoldsText, IsBuilt, Lacks, StopsLacking, replies_of, set_name};

use crate::trials::{SET, TEXT};
use mg_decode::decode;
use mg_dev::{Fault, Sink, Store};
use mg_gen::make_session;
use mg_mem::{SureSink, SureSource};
use mg_plain::scan;
use mg_session::serve;
use std::alloc::{AllocError, Global};

/// The most bytes that the questions are given at a time.
const STEP: usize = 4096;

/// Whether the set is decoded to these bytes.
pub(crate) fn is_decoded<S: Store>(alloc: Global, store: &mut S, text: &[u8]) -> Result<bool, Fault>
    requires stands { Stands (S.files store.old) set_name text.now }
    ensures same { IfOk result (λ same. same ≡ true) }
    ensures files { S.files store.new ≡ S.files store.old }
    ensures stops { StopsLacking result S.Store store.old store.new }
{
    let mut out = SureSink::new(alloc);
    match decode(alloc, store, SET, &mut out) {
        Ok(()) => Ok(out.bytes() == text),
        Err(fault) => Err(fault),
    }
}

/// The replies of the set.
fn served<S: Store>(alloc: Global, store: &mut S, questions: &[u8]) -> Result<SureSink, Fault>
    requires short { length questions.now ≤ 1670 }
    ensures replies { ForEach (IsBuilt (S.files store.old))
        (λ collection. HoldsText ⟦<SureSink as Sink>⟧.written result
        (session collection questions.now)) }
    ensures asks { AsksBuilt result S.Store store.old store.new }
{
    let mut input = match SureSource::new(alloc, questions, STEP) {
        Ok(input) => input,
        Err(AllocError) => return Err(Fault::Memory),
    };
    let mut out = SureSink::new(alloc);
    match serve(alloc, store, SET, &mut input, &mut out) {
        Ok(()) => Ok(out),
        Err(fault) => Err(fault),
    }
}

/// The replies of the collection's text.
fn scanned<S: Store>(alloc: Global, store: &mut S, questions: &[u8]) -> Result<SureSink, Fault>
    requires short { length questions.now ≤ 1670 }
    ensures replies { ForEach (IsBuilt (S.files store.old))
        (λ collection. HoldsText ⟦<SureSink as Sink>⟧.written result
        (session collection questions.now)) }
    ensures asks { AsksBuilt result S.Store store.old store.new }
{
    let mut input = match SureSource::new(alloc, questions, STEP) {
        Ok(input) => input,
        Err(AllocError) => return Err(Fault::Memory),
    };
    let mut out = SureSink::new(alloc);
    match scan(alloc, store, TEXT, &mut input, &mut out) {
        Ok(()) => Ok(out),
        Err(fault) => Err(fault),
    }
}

/// The questions of a trial.
fn made_questions(alloc: Global, seed: u64) -> Result<SureSink, Fault>
    ensures text { HoldsText ⟦<SureSink as Sink>⟧.written result (made_session seed) }
    ensures short { length (made_session seed) ≤ 1670 }
    ensures cause { IfErr result (Lacks ⊥) }
{
    let mut out = SureSink::new(alloc);
    match make_session(seed, &mut out) {
        Ok(()) => Ok(out),
        Err(_) => Err(Fault::Memory),
    }
}

/// The replies to the questions of a trial.
#[derive(Clone, Copy, Debug, PartialEq, Eq)]
pub(crate) struct Replies {
    /// The size of the set's replies.
    pub bytes: u64,
    /// Whether the text's replies are the same.
    pub are_same: bool,
}

/// Asks the questions of a trial of the set and of the collection's text.
pub(crate) fn ask_both<S: Store>(alloc: Global, store: &mut S, seed: u64) -> Result<Replies, Fault>
    ensures replies { ForEach (IsBuilt (S.files store.old))
        (λ collection. IfOk result (λ replies. replies ≡
        replies_of collection (made_session seed))) }
    ensures asks { AsksBuilt result S.Store store.old store.new }
{
    let questions = match made_questions(alloc, seed) {
        Ok(questions) => questions,
        Err(fault) => return Err(fault),
    };
    let from_set = match served(alloc, store, questions.bytes()) {
        Ok(replies) => replies,
        Err(fault) => return Err(fault),
    };
    let from_text = match scanned(alloc, store, questions.bytes()) {
        Ok(replies) => replies,
        Err(fault) => return Err(fault),
    };
    Ok(Replies {
        bytes: from_set.bytes().len() as u64,
        are_same: from_set.bytes() == from_text.bytes(),
    })
}
