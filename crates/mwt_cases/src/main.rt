//! Runs `mwt` over each case of its folder: a file that ends in `.case` and holds words, a status, an
//! input, and the text that is wanted. Where the first word is `draw` it draws, as the launcher does. It
//! prints the name of each case that failed, and how many passed.
#![tactic(auto)]

mod case;

use case::Case;
use mwt_base::{Bytes, OpenGate, SureSink, SureSource};
use mwt_tool::run_in_memory;
use std::rt::Files;
use std::thread::Threads;
use std::{fs, io};
use svg_picture::draw;

// Room for the text of an answer; what is longer fails its case.
const ROOM: usize = 1 << 20;

fn main(rt: HostRuntime) -> io::Result<()> {
    let names = names(&rt)?;
    let mut passed = 0usize;
    for name in &names {
        if passes(&rt, name.as_str())? {
            passed = passed.saturating_add(1);
        } else {
            println!(rt; "failed: {name}")?;
        }
    }
    let all = names.len();
    println!(rt; "{passed} of {all} cases passed")
}

// The names of the case files, in their order.
fn names(rt: &HostRuntime) -> io::Result<Vec<String>> {
    let mut names = Vec::new(rt.alloc());
    for entry in fs::read_dir(rt, ".")? {
        let entry = entry?;
        let name = entry.file_name();
        if name.ends_with(".case") {
            names.push(String::from_str(rt.alloc(), name)?)?;
        }
    }
    names.sort()?;
    Ok(names)
}

// Whether this case is well formed and answered as it wants.
fn passes(rt: &(impl Threads + Sync + Files + AllocGlobal), name: &str) -> io::Result<bool> {
    let text = fs::read(rt, name)?;
    let Some(case) = Case::of(&text) else {
        return Ok(false);
    };
    let alloc = rt.alloc();
    let words = case.words(alloc)?;
    let input = case.input(alloc)?;
    if input.len() >= 1 << 32 {
        return Ok(false);
    }
    let mut source = SureSource::new(Bytes::of(input), 1 << 12);
    let Ok(mut sink) = SureSink::new(alloc, ROOM) else {
        return Ok(false);
    };
    let status = match words.split_first() {
        Some((word, others)) if word.as_str() == "draw" => {
            draw(alloc, others.len(), &mut source, &mut sink)
        }
        _ => run_in_memory(rt, alloc, &words, &mut source, &mut sink, &OpenGate),
    };
    Ok(case.wants(status, sink.bytes()))
}
