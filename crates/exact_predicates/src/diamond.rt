// Whether the diamond test is made.

/// Whether edges are left out by the diamond test.
#[derive(Clone, Copy, Debug, PartialEq, Eq)]
pub enum Diamond {
    On,
    Off,
}
