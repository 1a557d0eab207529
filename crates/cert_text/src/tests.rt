// Tests of the texts of reports. The texts and what they must give were worked out by another program from
// the rules.

mod reading;
mod refusals;
mod texts;

use crate::ReportStop;
use mwt_base::Bytes;
use std::alloc::Global;
use std::test::Fail;

pub fn bytes_of(alloc: Global, text: &str) -> Result<Bytes, Fail> {
    let bytes = Vec::from_slice(alloc, text.as_bytes())?;
    if bytes.len() >= 1 << 32 {
        return Err(Fail::from("too many bytes"));
    }
    Ok(Bytes::of(bytes))
}

pub fn failed(_: ReportStop) -> Fail {
    Fail::from("refused, or no memory")
}
