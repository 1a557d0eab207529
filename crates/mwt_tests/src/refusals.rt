// Inputs of any length. Other refusals are among the cases of `mwt_cases`.

use crate::helpers::Run;
use mwt_base::Status;
use std::alloc::{AllocError, Global};
use std::test::Fail;

fn blanks(alloc: Global, len: usize) -> Result<Vec<u8>, AllocError> {
    vec![in alloc; b' '; len]
}

#[test]
fn most_bytes(rt: HostRuntime) -> Result<(), Fail> {
    let alloc = rt.alloc();
    let rows = [
        (67_108_864, "refused 15 NoCoords\n"),
        (67_108_865, "refused 41 TooLong\n"),
    ];
    for (len, text) in rows {
        let run = Run::over(&rt, alloc, &["solve"], blanks(alloc, len)?)?;
        assert_eq!(rt; run.status, Status::Refused);
        assert_eq!(rt; run.text.as_str(), text);
    }
    Ok(())
}
