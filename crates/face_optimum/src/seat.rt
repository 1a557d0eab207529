// Where edges, sides and triangles sit: at places of a bounded face.

/// Two places of a bounded face, the lesser first.
#[derive(Clone, Copy)]
pub(crate) struct EdgeSeat {
    pub(crate) face: u32,
    pub(crate) first: u32,
    pub(crate) last: u32,
}

/// A place of a bounded face.
#[derive(Clone, Copy)]
pub(crate) struct SideSeat {
    pub(crate) face: u32,
    pub(crate) place: u32,
}

/// From one place of a bounded face to another.
#[derive(Clone, Copy)]
pub(crate) struct Link {
    pub(crate) face: u32,
    pub(crate) from: u32,
    pub(crate) to: u32,
}

/// Three places of a bounded face, ascending.
#[derive(Clone, Copy)]
pub(crate) struct TriSeat {
    pub(crate) face: u32,
    pub(crate) first: u32,
    pub(crate) middle: u32,
    pub(crate) last: u32,
}
