// The lists of a report, row by row.
ghost use Rattle.std.specs.Prelude.{◌≡◌, [], ◌∷◌, List, ℕ, Bool, OnOk};
ghost use Rattle.cert_text.specs.Found.{Found as found_type};
ghost use Rattle.cert_text.specs.declared.limits.Limits.{Limits as limits_type};
ghost use Rattle.cert_text.specs.Cuts.{fields};
ghost use Rattle.cert_text.specs.Lines.{point_in, hull_in, edge_in, tri_in, live_in};
ghost use Rattle.cert_text.specs.Rows.{point_may_follow, hull_may_follow, edge_may_follow, live_may_follow, tri_precedes, tri_may_follow};
ghost use Rattle.cert_text.specs.Texts.{Grows, spaced, point_fields, hull_fields, edge_fields, tri_fields, live_fields};

use crate::found::Found;
use crate::limits::Limits;
use crate::lines::{edge_in, hull_in, point_in, tri_in};
use crate::prices::{live_in, write_prices};
use crate::report::PriceLine;
use crate::text::Text;
use exact_predicates::{Edge, Point, Tri};
use mwt_base::NoMemory;

/// A row of a list of a report.
pub trait Row: Copy {
    /// What a line says, by its fields.
    ghost says: { limits_type → List (List ℕ) → found_type Self };

    /// Whether a row may come after another.
    ghost may_follow: { Self → Self → Bool };

    /// The fields of its line.
    ghost spelling: { Self → List (List ℕ) };

    fn says(limits: Limits, line: &[u8]) -> Found<Self>
        ensures { result ≡ says limits (fields line.now) };

    fn may_follow(last: &Self, row: &Self) -> bool
        ensures { result ≡ may_follow last.now row.now };

    /// Appends its line.
    fn write(&self, text: &mut Text) -> Result<(), NoMemory>
        ensures { OnOk result (Grows text.old text.new (spaced (spelling self.now) ∷ [])) };
}

impl Row for Point {
    ghost says = { λ _. point_in };

    ghost may_follow = { point_may_follow };

    ghost spelling = { point_fields };

    fn says(_limits: Limits, line: &[u8]) -> Found<Self> {
        point_in(line)
    }

    fn may_follow(last: &Self, row: &Self) -> bool {
        last.x < row.x || last.x == row.x && last.y < row.y
    }

    fn write(&self, text: &mut Text) -> Result<(), NoMemory> {
        text.number(self.id)?;
        text.word(" ")?;
        text.signed(self.x)?;
        text.word(" ")?;
        text.signed(self.y)?;
        text.word("\n")
    }
}

impl Row for u32 {
    ghost says = { hull_in };

    ghost may_follow = { hull_may_follow };

    ghost spelling = { hull_fields };

    fn says(limits: Limits, line: &[u8]) -> Found<Self> {
        hull_in(limits, line)
    }

    fn may_follow(_last: &Self, _row: &Self) -> bool {
        true
    }

    fn write(&self, text: &mut Text) -> Result<(), NoMemory> {
        text.number(*self)?;
        text.word("\n")
    }
}

fn edge_may_follow(last: &Edge, edge: &Edge) -> bool
    ensures { result ≡ edge_may_follow last.now edge.now }
{
    last.a < edge.a || last.a == edge.a && last.b < edge.b
}

impl Row for Edge {
    ghost says = { edge_in };

    ghost may_follow = { edge_may_follow };

    ghost spelling = { edge_fields };

    fn says(limits: Limits, line: &[u8]) -> Found<Self> {
        edge_in(limits, line)
    }

    fn may_follow(last: &Self, row: &Self) -> bool {
        edge_may_follow(last, row)
    }

    fn write(&self, text: &mut Text) -> Result<(), NoMemory> {
        text.number(self.a)?;
        text.word(" ")?;
        text.number(self.b)?;
        text.word("\n")
    }
}

impl Row for PriceLine {
    ghost says = { live_in };

    ghost may_follow = { live_may_follow };

    ghost spelling = { live_fields };

    fn says(limits: Limits, line: &[u8]) -> Found<Self> {
        live_in(limits, line)
    }

    fn may_follow(last: &Self, row: &Self) -> bool {
        edge_may_follow(&last.edge, &row.edge)
    }

    fn write(&self, text: &mut Text) -> Result<(), NoMemory> {
        text.number(self.edge.a)?;
        text.word(" ")?;
        text.number(self.edge.b)?;
        write_prices(self, text)
    }
}

fn tri_precedes(s: &Tri, t: &Tri) -> bool
    ensures { result ≡ tri_precedes s.now t.now }
{
    s.a < t.a || s.a == t.a && (s.b < t.b || s.b == t.b && s.c < t.c)
}

impl Row for Tri {
    ghost says = { tri_in };

    ghost may_follow = { tri_may_follow };

    ghost spelling = { tri_fields };

    fn says(limits: Limits, line: &[u8]) -> Found<Self> {
        tri_in(limits, line)
    }

    fn may_follow(last: &Self, row: &Self) -> bool {
        !tri_precedes(row, last)
    }

    fn write(&self, text: &mut Text) -> Result<(), NoMemory> {
        text.number(self.a)?;
        text.word(" ")?;
        text.number(self.b)?;
        text.word(" ")?;
        text.number(self.c)?;
        text.word("\n")
    }
}
