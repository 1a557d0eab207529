// Made point files. The coordinates are those of another program.

ghost use Rattle.std.specs.Prelude.{◌<◌, ◌≤◌};
ghost use Rattle.mwt_base.specs.Limits.{most_points};

use mwt_base::Bytes;
use mwt_tool::generate;
use std::alloc::Global;
use std::test::Fail;

fn made(alloc: Global, seed: u32, n: u32) -> Result<Bytes, Fail>
    requires seed { 0 < seed }
    requires least { 3 ≤ n }
    requires most { n ≤ most_points }
{
    generate(alloc, seed, n).map_err(|_| Fail::from("no memory"))
}

#[test]
fn three_points_of_seed_seven(rt: HostRuntime) -> Result<(), Fail> {
    let text = made(rt.alloc(), 7, 3)?;
    let wanted =
        "NAME : mwt-7-3\nTYPE : TSP\nDIMENSION : 3\nEDGE_WEIGHT_TYPE : EUC_2D\nNODE_COORD_SECTION\n1 715887 151641\n2 589587 626268\n3 178349 460256\nEOF\n";
    assert!(rt; text.as_slice() == wanted.as_bytes());
    Ok(())
}

#[test]
fn ends_of_the_ranges(rt: HostRuntime) -> Result<(), Fail> {
    let alloc = rt.alloc();
    let most = made(alloc, 1, 10_000)?;
    assert!(rt;
        most.as_slice()
            .ends_with(b"\n9999 242856 511231\n10000 205976 152911\nEOF\n")
    );
    let last = made(alloc, u32::MAX, 3)?;
    assert!(rt; last.as_slice().starts_with(b"NAME : mwt-4294967295-3\n"));
    assert!(rt;
        last.as_slice().ends_with(b"\n1 939409 172335\n2 266830 389529\n3 534348 465089\nEOF\n")
    );
    Ok(())
}
