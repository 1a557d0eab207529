// Tests of the cells of a grid.

use crate::helpers::points_of;
use point_grid::Grid;
use std::test::Fail;

// The corners of a square and its centre: one point in each corner of the three by three cells, and one
// in the middle.
#[test]
fn cells_of_a_square(rt: HostRuntime) -> Result<(), Fail> {
    let alloc = rt.alloc();
    let points = points_of(alloc, &[(0, 0), (4, 0), (4, 4), (0, 4), (2, 2)])?;
    let grid = Grid::new(alloc, &points).map_err(|_| Fail::from("no memory"))?;
    let side = grid.side();
    assert_eq!(rt; side, 3);
    let rows: [(u32, &[u32]); 9] = [
        (0, &[0]),
        (1, &[]),
        (2, &[3]),
        (3, &[]),
        (4, &[2]),
        (5, &[]),
        (6, &[1]),
        (7, &[]),
        (8, &[4]),
    ];
    for (c, numbers) in rows {
        assert!(rt; c < 9);
        assert_eq!(rt; grid.cell(c), numbers, "{c}");
    }
    Ok(())
}
