// How far points reach, and where each stands in their picture.
ghost use Rattle.std.specs.Prelude.{◌≡◌, ◌*◌, ◌^◌, ◌<◌, ◌≤◌, ◌-ℤ◌, All, IfOk, length, map, unsigned_abs};
ghost use Rattle.std.specs.Int.{int_max, int_min};
ghost use Rattle.exact_predicates.specs.Plane.{IsInRange};

use exact_predicates::Point;
use std::alloc::{AllocError, Global};

/// The least rectangle that holds some points.
#[derive(Clone, Copy)]
pub struct Frame {
    pub left: i64,
    pub right: i64,
    pub low: i64,
    pub high: i64,
}

/// A place in a picture: how far to the right, and how far down.
#[derive(Clone, Copy)]
pub struct Spot {
    pub x: u64,
    pub y: u64,
}

// How far it is from one coordinate to another.
fn distance(from: i64, to: i64) -> u64
    requires from { unsigned_abs from ≤ 10 ^ 9 }
    requires to { unsigned_abs to ≤ 10 ^ 9 }
    ensures is { result ≡ unsigned_abs (to -ℤ from) }
    ensures bound { result ≤ 2 * 10 ^ 9 }
{
    (to - from).unsigned_abs()
}

// The lesser of two coordinates.
fn lesser(a: i64, b: i64) -> i64
    requires a { unsigned_abs a ≤ 10 ^ 9 }
    requires b { unsigned_abs b ≤ 10 ^ 9 }
    ensures is { result ≡ int_min a b }
    ensures in_range { unsigned_abs result ≤ 10 ^ 9 }
{
    a.min(b)
}

// The greater of two coordinates.
fn greater(a: i64, b: i64) -> i64
    requires a { unsigned_abs a ≤ 10 ^ 9 }
    requires b { unsigned_abs b ≤ 10 ^ 9 }
    ensures is { result ≡ int_max a b }
    ensures in_range { unsigned_abs result ≤ 10 ^ 9 }
{
    a.max(b)
}

impl Frame {
    ghost use Rattle.svg_picture.specs.Frames.{IsFrameInRange, extent, frame_at, frame_of, height, pixels, scaled, size, spot_in, width, with_point};

    /// The frame of some points.
    pub fn of(points: &[Point]) -> Frame
        requires some { 0 < length points.now }
        requires in_range { All IsInRange points.now }
        ensures is { result ≡ frame_of points.now }
        ensures in_range { IsFrameInRange result }
    {
        let mut frame = Frame::at(&points[0]);
        for p in points {
            frame = frame.with(p);
        }
        frame
    }

    fn at(p: &Point) -> Frame
        requires { IsInRange p.now }
        ensures is { result ≡ frame_at p.now }
        ensures in_range { IsFrameInRange result }
    {
        Frame {
            left: p.x,
            right: p.x,
            low: p.y,
            high: p.y,
        }
    }

    fn with(&self, p: &Point) -> Frame
        requires frame { IsFrameInRange self.now }
        requires point { IsInRange p.now }
        ensures is { result ≡ with_point self.now p.now }
        ensures in_range { IsFrameInRange result }
    {
        Frame {
            left: lesser(self.left, p.x),
            right: greater(self.right, p.x),
            low: lesser(self.low, p.y),
            high: greater(self.high, p.y),
        }
    }

    pub fn width(&self) -> u64
        requires { IsFrameInRange self.now }
        ensures is { result ≡ width self.now }
        ensures bound { result ≤ 2 * 10 ^ 9 }
    {
        distance(self.left, self.right)
    }

    pub fn height(&self) -> u64
        requires { IsFrameInRange self.now }
        ensures is { result ≡ height self.now }
        ensures bound { result ≤ 2 * 10 ^ 9 }
    {
        distance(self.low, self.high)
    }

    // The greater of the two, and at least 1.
    fn size(&self) -> u64
        requires { IsFrameInRange self.now }
        ensures is { result ≡ size self.now }
        ensures some { 0 < result }
        ensures bound { result ≤ 2 * 10 ^ 9 }
    {
        self.width().max(self.height()).max(1)
    }

    // A distance in the picture.
    fn scaled(&self, distance: u64) -> u64
        requires frame { IsFrameInRange self.now }
        requires distance { distance ≤ 2 * 10 ^ 9 }
        ensures is { result ≡ scaled self.now distance }
        ensures bound { result ≤ 2 * 10 ^ 15 }
    {
        1_000_000 * distance / self.size()
    }

    /// A side of the frame with a margin at both ends.
    pub fn extent(&self, side: u64) -> u64
        requires frame { IsFrameInRange self.now }
        requires side { side ≤ 2 * 10 ^ 9 }
        ensures { result ≡ extent self.now side }
    {
        self.scaled(side) + 100_000
    }

    /// The length of such a side on a screen, in pixels.
    pub fn pixels(&self, side: u64) -> u64
        requires frame { IsFrameInRange self.now }
        requires side { side ≤ 2 * 10 ^ 9 }
        ensures { result ≡ pixels self.now side }
    {
        self.extent(side) / 1250
    }

    // Where a point stands in the picture.
    fn spot(&self, p: &Point) -> Spot
        requires frame { IsFrameInRange self.now }
        requires point { IsInRange p.now }
        ensures { result ≡ spot_in self.now p.now }
    {
        let right = distance(self.left, p.x);
        let down = distance(p.y, self.high);
        Spot {
            x: 50_000 + self.scaled(right),
            y: 50_000 + self.scaled(down),
        }
    }

    /// Where each of some points stands.
    pub fn spots(&self, alloc: Global, points: &[Point]) -> Result<Vec<Spot>, AllocError>
        requires frame { IsFrameInRange self.now }
        requires in_range { All IsInRange points.now }
        ensures { IfOk result (λ spots. spots.items ≡ map (spot_in self.now) points.now) }
    {
        let mut spots = Vec::new(alloc);
        for p in points {
            spots.push(self.spot(p))?;
        }
        Ok(spots)
    }
}
