// Which worker gets which edge at first.
ghost use Rattle.std.specs.Prelude.{◌≡◌, ◌<◌};
ghost use Rattle.steal_workers.specs.Dealing.{dealt_to};

/// How the edges are dealt to the workers.
#[derive(Clone, Copy, Debug, PartialEq, Eq)]
pub enum Dealing {
    /// To each worker a block of edges that follow one another.
    Blocks,
    /// One edge to each worker in turn.
    Stripes,
}

impl Dealing {
    /// The worker, of so many, to whom the edge goes, of so many.
    pub fn worker(self, e: u32, edges: u32, workers: u32) -> u32
        requires inside { e < edges }
        requires some { 0 < workers }
        ensures value { result ≡ dealt_to self e edges workers }
        ensures below { result < workers }
    {
        match self {
            Dealing::Blocks => (e as u64 * workers as u64 / edges as u64) as u32,
            Dealing::Stripes => e % workers,
        }
    }
}
