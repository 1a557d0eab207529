// A case: words, a status, an input, and the text that is wanted.

use bstr::ByteSlice;
use mwt_base::Status;
use std::alloc::{AllocError, Global};

/// A case, as the parts of its file:
///
/// - a line `words`, with each word after a space;
/// - a line `status N`, with the exit status;
/// - a line `input`, and the lines of the input; or a line `input open`, where the input does not end
///   with a line feed;
/// - a line `output`, and after it the whole text that is wanted.
#[derive(Drop)]
pub struct Case<'a> {
    words: &'a [u8],
    status: &'a [u8],
    input: &'a [u8],
    output: &'a [u8],
}

impl<'a> Case<'a> {
    /// The case that a file holds, if it has the form of one.
    pub fn of(text: &'a [u8]) -> Option<Case<'a>> {
        let rest = text.strip_prefix(b"words".as_slice())?;
        let (words, rest) = rest.split_once_str(b"\nstatus ")?;
        let (status, rest) = rest.split_once_str(b"\ninput")?;
        let (input, output) = rest.split_once_str(b"\noutput\n")?;
        Some(Case {
            words,
            status,
            input,
            output,
        })
    }

    /// The words: what comes after each space.
    pub fn words(&self, alloc: Global) -> Result<Vec<String>, AllocError> {
        let mut words = Vec::new(alloc);
        for word in self.words.split_str(b" ").skip(1) {
            words.push(String::from_utf8_lossy(alloc, word)?)?;
        }
        Ok(words)
    }

    /// The bytes of the input.
    pub fn input(&self, alloc: Global) -> Result<Vec<u8>, AllocError> {
        if let Some(open) = self.input.strip_prefix(b" open\n".as_slice()) {
            return Vec::from_slice(alloc, open);
        }
        let Some(lines) = self.input.strip_prefix(b"\n".as_slice()) else {
            return Ok(Vec::new(alloc));
        };
        let mut input = Vec::from_slice(alloc, lines)?;
        input.push(b'\n')?;
        Ok(input)
    }

    /// Whether this answer is the one that is wanted.
    pub fn wants(&self, status: Status, text: &[u8]) -> bool {
        let digit = [b'0'.saturating_add(status.number())];
        self.status == digit.as_slice() && self.output == text
    }
}
