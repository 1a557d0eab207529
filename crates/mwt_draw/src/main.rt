//! The program: how many words there are, the real streams, and the call that draws over them.
#![tactic(auto)]

use mwt_base::{Status, StdSink, StdSource};
use std::alloc::AllocError;
use std::env;
use std::io::ErrorKind;
use std::process::ExitCode;
use svg_picture::draw;

fn main(rt: HostRuntime) -> ExitCode {
    let alloc = rt.alloc();
    let Ok(words) = words(&rt) else {
        return ExitCode::from(Status::NoMemory.number());
    };
    let mut source = StdSource::new(rt.stdin());
    let mut sink = StdSink::new(rt.stdout());
    let status = draw(alloc, words, &mut source, &mut sink);
    ExitCode::from(status.number())
}

// How many words come after the program's name; one in place of all where one is not UTF-8.
fn words(rt: &(impl std::rt::Env + AllocGlobal)) -> Result<usize, AllocError> {
    match env::args(rt) {
        Ok(args) => Ok(args.skip(1).count()),
        Err(error) if error.kind() == ErrorKind::OutOfMemory => Err(AllocError),
        Err(_) => Ok(1),
    }
}
