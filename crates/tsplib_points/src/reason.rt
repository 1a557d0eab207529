// The rules of a point file, by the reasons for which a file is refused.
ghost use Rattle.std.specs.Prelude.{◌≡◌};
ghost use Rattle.tsplib_points.specs.Reasons.{code_of, refused_at, refused};

use crate::file::Refusal;

/// Why a file is refused: the rule that it breaks, with the code of its refusal.
#[derive(Clone, Copy)]
pub enum Reason {
    /// A header line has none of the forms, its keyword is unknown, or `DIMENSION` comes again.
    Header = 10,
    /// The first word of a `TYPE` is not `TSP`.
    FileType = 11,
    /// An `EDGE_WEIGHT_TYPE` is none of `EUC_2D`, `CEIL_2D` and `ATT`.
    WeightType = 12,
    /// A `NODE_COORD_TYPE` is not `TWOD_COORDS`.
    CoordType = 13,
    /// `DIMENSION` tells no number below 2^32, or is not there where the coordinates begin.
    Dimension = 14,
    /// There is no `NODE_COORD_SECTION`.
    NoCoords = 15,
    /// A line of the section is neither `EOF` nor of the form of a node line.
    CoordLine = 16,
    /// A coordinate times 10^6 is not whole.
    NotWhole = 17,
    /// A scaled coordinate is above 10^9 in size.
    TooLarge = 18,
    /// An earlier node line has the same node number.
    RepeatedId = 19,
    /// The number of node lines is not what `DIMENSION` tells.
    Count = 20,
    /// More than 10,000 points after merging.
    TooMany = 21,
    /// Fewer than 3 points after merging.
    TooFew = 22,
    /// All points lie on one line.
    Flat = 23,
    /// A line that is not blank comes after `EOF`.
    AfterEnd = 24,
}

impl Reason {
    fn code(self) -> u32
        ensures { result ≡ code_of self }
    {
        self as u32
    }

    /// The refusal for this reason at this line.
    pub fn at(self, line: u32) -> Refusal
        ensures { result ≡ refused_at line self }
    {
        Refusal {
            code: self.code(),
            line,
        }
    }

    /// The refusal for this reason, which speaks of the whole file.
    pub fn of_file(self) -> Refusal
        ensures { result ≡ refused self }
    {
        self.at(0)
    }
}
