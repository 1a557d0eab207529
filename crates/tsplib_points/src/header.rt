// The lines of a header.
ghost use Rattle.std.specs.Prelude.{◌≡◌, true, false, None, Some, IfOk, MatchResult};
ghost use Rattle.std.specs.List.{before_first};
ghost use Rattle.tsplib_points.specs.Lines.{is_blank};
ghost use Rattle.tsplib_points.specs.Header.{is_colon, parts_of, is_mark, is_entry, is_end_mark, is_section_mark, is_dimension_entry, is_passed_over, is_file_type, is_weight_type, is_coord_type, entry_reason, header_reason};
ghost use Rattle.tsplib_points.specs.Told.{Tells};

use crate::cuts::{cut_at, position_of, position_of_blank, trim};
use crate::numbers::small_number;
use crate::reason::Reason;
use std::marker::Model;

/// A line of the header, cut at its first colon.
#[derive(Drop)]
pub struct Parts<'a> {
    keyword: &'a [u8],
    value: &'a [u8],
    has_colon: bool,
}

impl<'a> Model for Parts<'a> {
    ghost use Rattle.tsplib_points.specs.Header.{Parts as HeaderParts};

    ghost Value = { HeaderParts };

    ghost view = { λ p. record { keyword = p.keyword.now; value = p.value.now; has_colon = p.has_colon } };
}

/// What a line of the header tells that meets its rule.
#[derive(Drop)]
pub enum Told {
    /// The file ends.
    End,
    /// The coordinates begin.
    Section,
    /// There are so many nodes.
    Dimension(u32),
    /// Nothing that the points depend on.
    Nothing,
}

// The reason where a rule is not kept.
fn unless(kept: bool, why: Reason) -> Result<(), Reason>
    ensures { MatchResult result (λ _. kept ≡ true) (λ broken. (kept ≡ false) × (broken ≡ why)) }
{
    if kept { Ok(()) } else { Err(why) }
}

impl<'a> Parts<'a> {
    #[tactic(auto, unfolding(crate::specs::Header::parts_of))]
    pub fn of(text: &'a [u8]) -> Parts<'a>
        ensures { result ≡ parts_of text.now }
    {
        let colon = position_of(text, b':');
        let (keyword, value) = cut_at(text, colon);
        Parts {
            keyword: trim(keyword),
            value: trim(value),
            has_colon: colon.is_some(),
        }
    }

    fn is_mark(&self, word: &[u8]) -> bool
        ensures { result ≡ is_mark word.now self.now }
    {
        self.keyword == word && self.value.is_empty()
    }

    fn is_entry(&self, word: &[u8]) -> bool
        ensures { result ≡ is_entry word.now self.now }
    {
        self.has_colon && self.keyword == word
    }

    #[tactic(auto, unfolding(crate::specs::Header::is_end_mark))]
    pub fn is_end_mark(&self) -> bool
        ensures { result ≡ is_end_mark self.now }
    {
        self.is_mark(b"EOF")
    }

    #[tactic(auto, unfolding(crate::specs::Header::is_passed_over))]
    fn is_passed_over(&self) -> bool
        ensures { result ≡ is_passed_over self.now }
    {
        self.is_entry(b"NAME")
            || self.is_entry(b"COMMENT")
            || self.is_entry(b"CAPACITY")
            || self.is_entry(b"DISPLAY_DATA_TYPE")
            || self.is_entry(b"EDGE_WEIGHT_FORMAT")
            || self.is_entry(b"EDGE_DATA_FORMAT")
    }

    #[tactic(auto, unfolding(crate::specs::Header::is_section_mark))]
    fn is_section_mark(&self) -> bool
        ensures { result ≡ is_section_mark self.now }
    {
        self.is_mark(b"NODE_COORD_SECTION")
    }

    #[tactic(auto, unfolding(crate::specs::Header::is_dimension_entry))]
    fn is_dimension_entry(&self) -> bool
        ensures { result ≡ is_dimension_entry self.now }
    {
        self.is_entry(b"DIMENSION")
    }

    // The first word of the value is the one type of file that is read.
    fn has_file_type(&self) -> bool
        ensures { result ≡ is_file_type self.now.value }
    {
        let (word, _) = cut_at(self.value, position_of_blank(self.value));
        word == b"TSP".as_slice()
    }

    fn has_weight_type(&self) -> bool
        ensures { result ≡ is_weight_type self.now.value }
    {
        self.value == b"EUC_2D".as_slice()
            || self.value == b"CEIL_2D".as_slice()
            || self.value == b"ATT".as_slice()
    }

    fn has_coord_type(&self) -> bool
        ensures { result ≡ is_coord_type self.now.value }
    {
        self.value == b"TWOD_COORDS".as_slice()
    }

    // Goes over an entry that is no `DIMENSION`.
    #[tactic(auto, unfolding(crate::specs::Header::entry_reason))]
    fn entry(&self) -> Result<(), Reason>
        ensures { MatchResult result (λ _. entry_reason self.now ≡ None)
            (λ why. entry_reason self.now ≡ Some why) }
    {
        if self.is_passed_over() {
            Ok(())
        } else if self.is_entry(b"TYPE") {
            unless(self.has_file_type(), Reason::FileType)
        } else if self.is_entry(b"EDGE_WEIGHT_TYPE") {
            unless(self.has_weight_type(), Reason::WeightType)
        } else if self.is_entry(b"NODE_COORD_TYPE") {
            unless(self.has_coord_type(), Reason::CoordType)
        } else {
            Err(Reason::Header)
        }
    }

    /// What the line tells, or why it fails, where it is known whether a `DIMENSION` came before.
    #[tactic(auto, unfolding(crate::specs::Header::header_reason))]
    pub fn told(&self, has_dimension: bool) -> Result<Told, Reason>
        ensures told { MatchResult result (λ told. Tells told self.now)
            (λ why. header_reason has_dimension self.now ≡ Some why) }
        ensures fine { IfOk result (λ _. header_reason has_dimension self.now ≡ None) }
    {
        if self.is_end_mark() {
            return Ok(Told::End);
        }
        if self.is_section_mark() {
            unless(has_dimension, Reason::Dimension)?;
            return Ok(Told::Section);
        }
        if !self.is_dimension_entry() {
            self.entry()?;
            return Ok(Told::Nothing);
        }
        if has_dimension {
            return Err(Reason::Header);
        }
        match small_number(self.value) {
            Some(n) => Ok(Told::Dimension(n)),
            None => Err(Reason::Dimension),
        }
    }
}
