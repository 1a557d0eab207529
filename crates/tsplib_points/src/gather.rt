// One pass over the lines of a file.
ghost use Rattle.std.specs.Prelude.{◌≡◌, ◌<◌, ◌^◌, [], true, false, Some, IfOk, IfErr, OnOk, length};
ghost use Rattle.std.specs.List.{list_all};
ghost use Rattle.tsplib_points.specs.declared.file.Refusal.{Refusal as refusal_type};
ghost use Rattle.tsplib_points.specs.Lines.{Line, lines, is_blank};
ghost use Rattle.tsplib_points.specs.Refusals.{first_failing};
ghost use Rattle.tsplib_points.specs.Gathering.{IsGathered};
ghost use Rattle.tsplib_points.specs.Passing.{IsPassed, GoesOver, StopsFor};

use crate::file::FileStop;
use crate::header::{Parts, Told};
use crate::lines::{Lines, is_blank_text};
use crate::node::{KeptNode, node};
use crate::reason::Reason;
use std::alloc::Global;
use std::collections::BTreeSet;

/// What a pass over the lines has found, where no line fails.
#[derive(Drop)]
pub struct Gathered {
    pub has_section: bool,
    pub dimension: Option<u32>,
    pub nodes: Vec<KeptNode>,
}

/// What is known of the lines that a pass has gone over, with the numbers of their nodes.
#[derive(Drop)]
pub struct LinePass {
    pub found: Gathered,
    pub has_end: bool,
    pub numbers: BTreeSet<u32>,
}

impl LinePass {
    fn new(alloc: Global) -> LinePass
        ensures { IsPassed result [] }
    {
        LinePass {
            found: Gathered {
                has_section: false,
                dimension: None,
                nodes: Vec::new(alloc),
            },
            has_end: false,
            numbers: BTreeSet::new(alloc),
        }
    }

    // Goes over a line of the header.
    fn header_line(&mut self, number: u32, text: &[u8]) -> Result<(), FileStop>
        requires some { list_all is_blank text.now ≡ false }
        requires open { self.old.has_end ≡ false }
        requires header { self.old.found.has_section ≡ false }
        ensures over { OnOk result (GoesOver self.old self.new (record { number = number; text = text.now })) }
        ensures fails { IfErr result (StopsFor self.old (record { number = number; text = text.now })) }
    {
        match Parts::of(text).told(self.found.dimension.is_some()) {
            Ok(Told::End) => self.has_end = true,
            Ok(Told::Section) => self.found.has_section = true,
            Ok(Told::Dimension(n)) => self.found.dimension = Some(n),
            Ok(Told::Nothing) => {}
            Err(why) => return Err(FileStop::Refused(why.at(number))),
        }
        Ok(())
    }

    // Goes over a line of the section.
    fn section_line(&mut self, number: u32, text: &[u8]) -> Result<(), FileStop>
        requires len { length text.now < 2 ^ 32 }
        requires some { list_all is_blank text.now ≡ false }
        requires open { self.old.has_end ≡ false }
        requires section { self.old.found.has_section ≡ true }
        ensures over { OnOk result (GoesOver self.old self.new (record { number = number; text = text.now })) }
        ensures fails { IfErr result (StopsFor self.old (record { number = number; text = text.now })) }
    {
        if Parts::of(text).is_end_mark() {
            self.has_end = true;
            return Ok(());
        }
        let kept = match node(number, text) {
            Ok(kept) => kept,
            Err(why) => return Err(FileStop::Refused(why.at(number))),
        };
        let is_new = self.numbers.insert(kept.number)?;
        if !is_new {
            return Err(FileStop::Refused(Reason::RepeatedId.at(number)));
        }
        self.found.nodes.push(kept)?;
        Ok(())
    }

    // Goes over a line.
    fn line(&mut self, number: u32, text: &[u8]) -> Result<(), FileStop>
        requires { length text.now < 2 ^ 32 }
        ensures over { OnOk result (GoesOver self.old self.new (record { number = number; text = text.now })) }
        ensures fails { IfErr result (StopsFor self.old (record { number = number; text = text.now })) }
    {
        if is_blank_text(text) {
            return Ok(());
        }
        if self.has_end {
            return Err(FileStop::Refused(Reason::AfterEnd.at(number)));
        }
        if self.found.has_section {
            self.section_line(number, text)
        } else {
            self.header_line(number, text)
        }
    }
}

/// Goes over all lines of a file, from the top, and gathers what they tell.
pub fn gather(alloc: Global, bytes: &[u8]) -> Result<Gathered, FileStop>
    requires { length bytes.now < 2 ^ 32 }
    ensures found { IfOk result (λ found. IsGathered bytes.now found) }
    ensures fails { IfErr result (λ stop. (why : refusal_type) → stop ≡ FileStop.Refused why →
        first_failing [] (lines bytes.now) ≡ Some why) }
{
    let mut pass = LinePass::new(alloc);
    let mut lines = Lines::of(bytes);
    let mut number = 0;
    while let Some(text) = lines.next() {
        number += 1;
        pass.line(number, text)?;
    }
    Ok(pass.found)
}
