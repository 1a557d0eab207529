// What the tests share: files, points, hulls, eliminations, and runs of the top call.

ghost use Rattle.std.specs.Prelude.{IfOk};
ghost use Rattle.dual_checker.specs.Elimination.{IsElimination};
ghost use Rattle.exact_predicates.specs.declared.diamond.Diamond.TheVariants.{Off};
ghost use Rattle.exact_predicates.specs.Hull.{IsHull};
ghost use Rattle.exact_predicates.specs.Triangulation.{IsTriangulation};

use dual_checker::Elimination;
use exact_predicates::{Diamond, Hull, Point, PointList, Points, Tris};
use flip_finish::{Mesh, shorten};
use hull_sweep::{Start, sweep};
use lmt_network::Flags;
use mwt_base::{Bytes, MemSink, OpenGate, Status, SureSink, SureSource};
use mwt_tool::run_in_memory;
use std::alloc::{AllocError, Global};
use std::test::Fail;
use std::thread::Threads;

/// The corners of a convex pentagon, so that all ten pairs are edges. The diagonals 3 and 6 are locally
/// minimal between no two triangles, and 2 only between two of which one has the side 3. The diagonals 4
/// and 7 support each other. So a pass names 3, the next one 2, then one 6.
pub const FIVE: [(i64, i64); 5] = [(0, 0), (2, -2), (7, -3), (10, 0), (5, 1)];

/// The nodes of `make --seed 7 --points 20`, of whose 190 pairs each is an edge.
pub const TWENTY: [(i64, i64); 20] = [
    (715_887, 151_641),
    (589_587, 626_268),
    (178_349, 460_256),
    (551_315, 652_987),
    (666_710, 167_080),
    (878_071, 370_985),
    (1_035_070, 316_592),
    (527_007, 247_140),
    (648_611, 283_093),
    (492_580, 702_260),
    (383_566, 343_879),
    (760_928, 990_536),
    (672_829, 497_342),
    (427_226, 83_717),
    (813_160, 655_421),
    (850_309, 323_946),
    (971_168, 328_516),
    (651_265, 759_758),
    (357_965, 853_437),
    (10_238, 103_258),
];

pub fn words_of(alloc: Global, words: &[&str]) -> Result<Vec<String>, AllocError> {
    let mut all = Vec::new(alloc);
    for word in words {
        all.push(String::from_str(alloc, word)?)?;
    }
    Ok(all)
}

pub fn bytes_of(items: Vec<u8>) -> Result<Bytes, Fail> {
    if items.len() >= 1 << 32 {
        return Err(Fail::from("too many bytes"));
    }
    Ok(Bytes::of(items))
}

/// A sink that takes 16 bytes a call, and fails at the calls with these numbers.
pub fn mem_sink(alloc: Global, fail: Vec<u64>) -> Result<MemSink, Fail> {
    MemSink::new(alloc, 16, 4096, fail).map_err(|_| Fail::from("no memory"))
}

/// The plain file of these nodes.
pub fn plain_file(alloc: Global, nodes: &[(i64, i64)]) -> Result<Vec<u8>, Fail> {
    let count = nodes.len();
    let mut text = format!(in alloc; "NAME : r\nTYPE : TSP\nDIMENSION : {count}\n")?;
    text.push_str("EDGE_WEIGHT_TYPE : EUC_2D\nNODE_COORD_SECTION\n")?;
    for (k, (x, y)) in nodes.iter().enumerate() {
        let number = k.saturating_add(1);
        write!(text, "{number} {x} {y}\n")?;
    }
    text.push_str("EOF\n")?;
    Ok(text.into_bytes())
}

/// Points at these places, with ids from 1 on.
pub fn list_of(alloc: Global, places: &[(i64, i64)]) -> Result<PointList, Fail> {
    let mut list = Vec::new(alloc);
    let mut id = 0u32;
    for (x, y) in places {
        id = id.saturating_add(1);
        list.push(Point { id, x: *x, y: *y })?;
    }
    if list.len() >= 1 << 32 {
        return Err(Fail::from("too many points"));
    }
    Ok(PointList::of(list))
}

pub fn points_of(alloc: Global, places: &[(i64, i64)]) -> Result<Points, Fail> {
    Points::new(alloc, list_of(alloc, places)?).map_err(|_| Fail::from("no set of points"))
}

/// The hull of points, and their first triangulation.
pub fn swept(alloc: Global, points: &Points) -> Result<Start, Fail>
    ensures hull { IfOk result (λ start. IsHull points.now.points start.hull) }
    ensures tris { IfOk result (λ start. IsTriangulation points.now.points start.hull start.tris) }
{
    match sweep(alloc, points) {
        Ok(start) => Ok(start),
        Err(_) => Err(Fail::from("no memory")),
    }
}

/// The network of points and which of its edges are live, with the diamond test off.
pub fn eliminated(
    rt: &(impl Threads + Sync),
    alloc: Global,
    points: &Points,
    hull: &Hull,
) -> Result<Elimination, Fail>
    requires { IsHull points.now.points hull.now }
    ensures { IfOk result (λ e. IsElimination points.now.points hull.now Off e.net e.flags) }
{
    match Elimination::of(rt, alloc, points, hull, Diamond::Off) {
        Ok(elimination) => Ok(elimination),
        Err(_) => Err(Fail::from("stopped")),
    }
}

/// The numbers of an edge's ends.
pub type Ends = (u32, u32);

/// The ends of the live edges.
pub fn live_ends(alloc: Global, elimination: &Elimination) -> Result<Vec<Ends>, Fail> {
    let mut ends = Vec::new(alloc);
    let net = &elimination.net;
    for e in 0..net.edges().min(elimination.flags.len()) {
        if elimination.flags.live(e) {
            let edge = net.edge(e);
            ends.push((edge.a, edge.b))?;
        }
    }
    Ok(ends)
}

/// The network of these points, with the diamond test off, and its live edges by plain elimination.
pub fn eliminated_at<R: Threads + Sync>(
    rt: &R,
    alloc: Global,
    places: &[(i64, i64)],
) -> Result<Elimination, Fail> {
    let points = points_of(alloc, places)?;
    let hull = swept(alloc, &points)?.hull;
    eliminated(rt, alloc, &points, &hull)
}

/// The edges that are not live, ascending.
pub fn dead_of(alloc: Global, flags: &Flags) -> Result<Vec<u32>, AllocError> {
    let mut dead = Vec::new(alloc);
    for e in 0..flags.len() {
        if !flags.live(e) {
            dead.push(e)?;
        }
    }
    Ok(dead)
}

/// A triangulation that no flip makes shorter.
pub fn shortest(alloc: Global, points: &Points, hull: &Hull, tris: &Tris) -> Result<Tris, Fail>
    requires hull { IsHull points.now.points hull.now }
    requires tris { IsTriangulation points.now.points hull.now tris.now }
    ensures { IfOk result (λ tris. IsTriangulation points.now.points hull.now tris) }
{
    let Ok(mut mesh) = Mesh::from_tris(alloc, points, hull, tris) else {
        return Err(Fail::from("no memory"));
    };
    shorten(points, &mut mesh);
    match mesh.tris(alloc) {
        Ok(tris) => Ok(tris),
        Err(_) => Err(Fail::from("no memory")),
    }
}

/// What the top call answers and writes.
#[derive(Drop)]
pub struct Run {
    pub status: Status,
    pub text: String,
}

impl Run {
    /// Over a source and a sink in memory.
    pub fn over(
        rt: &(impl Threads + Sync),
        alloc: Global,
        words: &[&str],
        input: Vec<u8>,
    ) -> Result<Run, Fail> {
        let words = words_of(alloc, words)?;
        let mut source = SureSource::new(bytes_of(input)?, 1 << 20);
        let mut sink = SureSink::new(alloc, 1 << 16).map_err(|_| Fail::from("no memory"))?;
        let status = run_in_memory(rt, alloc, &words, &mut source, &mut sink, &OpenGate);
        let text = String::from_utf8_lossy(alloc, sink.bytes())?;
        Ok(Run { status, text })
    }
}
