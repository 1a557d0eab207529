// Prices by the definition: each slack is summed up anew from weights, prices and anchors, over all triangles.
ghost use Rattle.std.specs.Prelude.{◌≡◌, ◌<◌, length};
ghost use Rattle.std.specs.Option.{IfSome};

use crate::sets::has_side;
use exact_predicates::{Edges, Tri};
use lmt_network::{Flags, Network};
use std::alloc::{AllocError, Global};

/// The value of each edge, and the anchors of its left and of its right side.
pub type Rows = Vec<[i64; 3]>;

// The number of the edge between u and v.
fn between(net: &Network, u: u32, v: u32) -> Option<u32>
    ensures { IfSome result (λ e. e < length net.now.edges) }
{
    for e in 0..net.edges() {
        let edge = net.edge(e);
        if (edge.a == u && edge.b == v) || (edge.a == v && edge.b == u) {
            return Some(e);
        }
    }
    None
}

// The share of the side u to v, if its edge is live.
fn share(net: &Network, flags: &Flags, rows: &[[i64; 3]], u: u32, v: u32) -> Option<i64>
    requires { length flags.now ≡ length net.now.edges }
{
    let e = between(net, u, v)?;
    if !flags.live(e) {
        return None;
    }
    let [value, left, right] = *rows.get(e as usize)?;
    let weight = i64::try_from(net.weight(e)).ok()?;
    if net.is_hull(e) {
        Some(weight.saturating_sub(value))
    } else if u < v {
        Some(weight.saturating_sub(value).saturating_sub(left))
    } else {
        Some(value.saturating_sub(right))
    }
}

// The slack of the triangle, if it is live.
fn slack(net: &Network, flags: &Flags, rows: &[[i64; 3]], tri: &Tri) -> Option<i64>
    requires { length flags.now ≡ length net.now.edges }
{
    let ab = share(net, flags, rows, tri.a, tri.b)?;
    let bc = share(net, flags, rows, tri.b, tri.c)?;
    let ca = share(net, flags, rows, tri.c, tri.a)?;
    Some(ab.saturating_add(bc).saturating_add(ca))
}

// The least slack of the live triangles with the side u to v, or 0.
fn least(net: &Network, flags: &Flags, rows: &[[i64; 3]], u: u32, v: u32) -> i64
    requires { length flags.now ≡ length net.now.edges }
{
    let mut least = None;
    for t in 0..net.tris() {
        let tri = net.tri(t);
        if has_side(&tri, u, v) {
            if let Some(slack) = slack(net, flags, rows, &tri) {
                least = Some(least.map_or(slack, |m: i64| m.min(slack)));
            }
        }
    }
    least.unwrap_or(0)
}

// Half of each weight.
fn start(alloc: Global, net: &Network, flags: &Flags) -> Result<Rows, AllocError>
    requires { length flags.now ≡ length net.now.edges }
{
    let mut rows = Vec::new(alloc);
    for e in 0..net.edges() {
        let price = if flags.live(e) && !net.is_hull(e) {
            i64::try_from(net.weight(e) / 2).unwrap_or(0)
        } else {
            0
        };
        rows.push([price, 0, 0])?;
    }
    Ok(rows)
}

fn add(rows: &mut Rows, e: u32, column: usize, amount: i64) {
    if let Some(row) = rows.get_mut(e as usize) {
        if let Some(value) = row.get_mut(column) {
            *value = value.saturating_add(amount);
        }
    }
}

fn sweep(net: &Network, flags: &Flags, rows: &mut Rows)
    requires { length flags.now ≡ length net.now.edges }
{
    for e in 0..net.edges() {
        if flags.live(e) && !net.is_hull(e) {
            let edge = net.edge(e);
            let least = least(net, flags, rows, edge.b, edge.a);
            let value = rows.get(e as usize).map_or(0, |row| row[0]);
            let lowest = value.saturating_add(400_000_000_000_000_000);
            add(rows, e, 0, least.min(lowest).saturating_neg());
        }
    }
}

fn tighten(net: &Network, flags: &Flags, rows: &mut Rows, anchored: &Edges)
    requires { length flags.now ≡ length net.now.edges }
{
    let hull = net.hull();
    for i in 0..hull.len() {
        let next = if i + 1 < hull.len() {
            hull[i + 1]
        } else {
            hull[0]
        };
        if let Some(e) = between(net, hull[i], next) {
            let least = least(net, flags, rows, hull[i], next);
            add(rows, e, 0, least);
        }
    }
    for edge in anchored.as_slice() {
        if let Some(e) = between(net, edge.a, edge.b) {
            if !net.is_hull(e) {
                let left = least(net, flags, rows, edge.a, edge.b);
                add(rows, e, 1, left);
                let right = least(net, flags, rows, edge.b, edge.a);
                add(rows, e, 2, right);
            }
        }
    }
}

/// What the edges have after the start, so many sweeps, and tightening.
pub fn ascent(
    alloc: Global,
    net: &Network,
    flags: &Flags,
    anchored: &Edges,
    sweeps: u32,
) -> Result<Rows, AllocError>
    requires { length flags.now ≡ length net.now.edges }
{
    let mut rows = start(alloc, net, flags)?;
    for _ in 0..sweeps {
        sweep(net, flags, &mut rows);
    }
    tighten(net, flags, &mut rows, anchored);
    Ok(rows)
}
