//! The program: it makes the devices of the system, and ends with the status of the run.
//!
//! Words that ask for help or for the version are answered here, before the run, and words that the run
//! did not understand get a second line behind the fault's. So the clause of `mg_top::run` says nothing
//! of help, and a page is printed only where the run has nothing to do.
#![tactic(auto)]

use mg_dev::{Fault, Sink, Status, put_fault_line};
use mg_help::{Page, hint, page_asked, text_of};
use mg_host::{HostSink, HostSource, HostStore};
use std::process::ExitCode;
use std::{env, io};

/// The status where the system does not give the words or a device.
const NO_DEVICES: u8 = 18;

/// Prints a page; where that fails, its fault's line is told.
fn print_page<O: Sink, E: Sink>(page: Page, out: &mut O, err: &mut E) -> Status {
    match out.put(text_of(page).as_bytes()) {
        Ok(()) => Status::Done,
        Err(cause) => {
            let fault = Fault::of_output(cause);
            let _ = put_fault_line(err, &fault);
            Status::Stopped(fault)
        }
    }
}

/// Tells behind words that were not understood where help is; a failed write changes nothing.
fn tell_hint<E: Sink>(words: &[String], status: &Status, err: &mut E) {
    if matches!(status, Status::Stopped(Fault::Usage)) {
        let _ = err.put(hint(words).as_bytes());
    }
}

/// Carries out the words over the files and the input of the system.
fn run_words<O: Sink, E: Sink>(
    rt: &HostRuntime,
    words: &[String],
    out: &mut O,
    err: &mut E,
) -> io::Result<u8> {
    let alloc = rt.alloc();
    let mut store = HostStore::new(alloc, rt.clone()?);
    let mut input = HostSource::new(rt.stdin());
    let status = mg_top::run(alloc, words, &mut store, &mut input, out, err);
    tell_hint(words, &status, err);
    Ok(status.number())
}

fn try_main(rt: HostRuntime) -> io::Result<u8> {
    let words: Vec<String> = env::args(&rt)?.skip(1).collect(rt.alloc())?;
    let mut out = HostSink::new(rt.stdout());
    let mut err = HostSink::new(rt.stderr());
    match page_asked(&words) {
        Some(page) => Ok(print_page(page, &mut out, &mut err).number()),
        None => run_words(&rt, &words, &mut out, &mut err),
    }
}

fn main(rt: HostRuntime) -> ExitCode {
    match try_main(rt) {
        Ok(status) => ExitCode::from(status),
        Err(_) => ExitCode::from(NO_DEVICES),
    }
}
