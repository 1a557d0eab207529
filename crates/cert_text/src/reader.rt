// A text that is read line by line.
ghost use Rattle.std.specs.Prelude.{◌≡◌, ◌+◌, ◌<◌, ◌≤◌, ◌^◌, length, None, IfOk, OnOk, vec_len};
ghost use Rattle.mwt_base.specs.Limits.{most_amount};
ghost use Rattle.cert_text.specs.Reading.{Gives, line_at, judged, value_at, is_behind, row_at, rows_at, block_at, version_at, version_by};
ghost use Rattle.cert_text.specs.Lines.{count_in, diamond_in, method_in, length_in, amount_line_in, end_in};

use crate::fields::{cut, is_word};
use crate::found::{Flaw, Found};
use crate::limits::Limits;
use crate::refusal::{Reason, ReportStop};
use crate::report::Method;
use crate::rows::Row;
use crate::words::{amount_line_in, count_in, diamond_in, end_in, length_in, method_in};
use exact_predicates::Diamond;
use mwt_base::ItemList;
use std::alloc::Global;

/// What is left of a text, and the number of the line that begins there.
#[derive(Drop)]
pub struct Reader<'a> {
    pub number: u32,
    pub rest: &'a [u8],
    pub ghost room: { number + length rest.now < 2 ^ 32 },
}

/// What was found in a line, or why the line fails.
fn judged<T: Copy>(number: u32, found: Found<T>) -> Result<T, ReportStop>
    ensures { Gives (λ x. x) result (judged number found) }
{
    match found {
        Err(Flaw::NotSpelled) => Err(ReportStop::Refused(Reason::Line.at(number))),
        Err(Flaw::Outside) => Err(ReportStop::Refused(Reason::Range.at(number))),
        Ok(x) => Ok(x),
    }
}

// The version that the first line says.
fn version_by(line: &[u8]) -> Result<u32, ReportStop>
    ensures read { Gives (λ version. version) result (version_by line.now) }
    ensures len { OnOk result (length line.now ≡ 5) }
{
    if is_word(line, b"mwt 1") {
        Ok(1)
    } else if is_word(line, b"mwt 2") {
        Ok(2)
    } else {
        Err(ReportStop::Refused(Reason::Version.at(1)))
    }
}

impl<'a> Reader<'a> {
    ghost use Rattle.cert_text.specs.Places.{place};

    /// The version that the first line of a text says, and what is after it.
    #[tactic(auto, unfolding(crate::specs::Reading::line_at, crate::specs::Reading::version_at))]
    pub fn of(bytes: &'a [u8]) -> Result<(u32, Reader<'a>), ReportStop>
        requires { length bytes.now < 2 ^ 32 }
        ensures { Gives (λ x. (x.0, place x.1)) result (version_at bytes.now) }
    {
        let Some((line, rest)) = cut(bytes, b'\n') else {
            return Err(ReportStop::Refused(Reason::Truncated.at(1)));
        };
        let version = version_by(line)?;
        Ok((version, Reader { number: 2, rest }))
    }

    /// The next line.
    #[tactic(auto, unfolding(crate::specs::Reading::line_at))]
    pub fn line(&mut self) -> Result<&'a [u8], ReportStop>
        ensures { Gives (λ line. (line.now, place self.new)) result (line_at (place self.old)) }
    {
        match cut(self.rest, b'\n') {
            None => Err(ReportStop::Refused(Reason::Truncated.at(self.number))),
            Some((line, rest)) => {
                self.rest = rest;
                self.number += 1;
                Ok(line)
            }
        }
    }

    /// A line with a word and a number from `low` to below `end`.
    #[tactic(auto, unfolding(crate::specs::Reading::value_at))]
    pub fn count(&mut self, word: &[u8], low: u32, end: u64) -> Result<u32, ReportStop>
        requires { end ≤ 2 ^ 32 }
        ensures { Gives (λ n. (n, place self.new)) result (value_at (count_in word.now low end) (place self.old)) }
    {
        let number = self.number;
        let line = self.line()?;
        judged(number, count_in(word, low, end, line))
    }

    /// A line that says whether the diamond test is made.
    #[tactic(auto, unfolding(crate::specs::Reading::value_at))]
    pub fn diamond(&mut self) -> Result<Diamond, ReportStop>
        ensures { Gives (λ d. (d, place self.new)) result (value_at diamond_in (place self.old)) }
    {
        let number = self.number;
        let line = self.line()?;
        judged(number, diamond_in(line))
    }

    /// A line that says how the triangulation was found.
    #[tactic(auto, unfolding(crate::specs::Reading::value_at))]
    pub fn method(&mut self, version: u32) -> Result<Method, ReportStop>
        ensures { Gives (λ m. (m, place self.new)) result (value_at (method_in version) (place self.old)) }
    {
        let number = self.number;
        let line = self.line()?;
        judged(number, method_in(version, line))
    }

    /// A line with the two ends of an enclosure.
    #[tactic(auto, unfolding(crate::specs::Reading::value_at))]
    pub fn length(&mut self) -> Result<(u128, u128), ReportStop>
        ensures { Gives (λ ends. (ends, place self.new)) result (value_at length_in (place self.old)) }
    {
        let number = self.number;
        let line = self.line()?;
        judged(number, length_in(line))
    }

    /// A line with a word and an amount of at most this size.
    #[tactic(auto, unfolding(crate::specs::Reading::value_at))]
    pub fn amount(&mut self, word: &[u8], most: u128) -> Result<i128, ReportStop>
        requires { most ≤ most_amount }
        ensures { Gives (λ n. (n, place self.new)) result (value_at (amount_line_in word.now most) (place self.old)) }
    {
        let number = self.number;
        let line = self.line()?;
        judged(number, amount_line_in(word, most, line))
    }

    /// The last line.
    #[tactic(auto, unfolding(crate::specs::Reading::value_at))]
    pub fn end(&mut self) -> Result<(), ReportStop>
        ensures { Gives (λ u. (u, place self.new)) result (value_at end_in (place self.old)) }
    {
        let number = self.number;
        let line = self.line()?;
        judged(number, end_in(line))
    }

    // The next row of a list.
    #[tactic(auto, unfolding(crate::specs::Reading::value_at, crate::specs::Reading::row_at))]
    fn row<R: Row>(&mut self, limits: Limits, last: Option<R>) -> Result<R, ReportStop>
        ensures { Gives (λ row. (row, place self.new)) result
            (row_at (R.says limits) R.may_follow last (place self.old)) }
    {
        let number = self.number;
        let line = self.line()?;
        let row = judged(number, R::says(limits, line))?;
        if is_behind(last, row) {
            Ok(row)
        } else {
            Err(ReportStop::Refused(Reason::Order.at(number)))
        }
    }

    /// So many rows of a list.
    pub fn rows<R: Row>(
        &mut self,
        alloc: Global,
        limits: Limits,
        count: u32,
    ) -> Result<Vec<R>, ReportStop>
        ensures read { Gives (λ rows. (rows.items, place self.new)) result
            (rows_at (R.says limits) R.may_follow None count (place self.old)) }
        ensures len { IfOk result (λ rows. vec_len rows ≡ count) }
    {
        let mut rows = Vec::new(alloc);
        let mut last = None;
        for _ in 0..count {
            let row = self.row(limits, last)?;
            rows.push(row)?;
            last = Some(row);
        }
        Ok(rows)
    }

    /// A list: a line that says how many rows it has, and these.
    #[tactic(auto, unfolding(crate::specs::Reading::block_at))]
    pub fn block<R: Row>(
        &mut self,
        alloc: Global,
        limits: Limits,
        word: &[u8],
        low: u32,
        end: u64,
    ) -> Result<ItemList<R>, ReportStop>
        requires { end ≤ 2 ^ 32 }
        ensures { Gives (λ rows. (rows, place self.new)) result
            (block_at word.now low end (R.says limits) R.may_follow (place self.old)) }
    {
        let count = self.count(word, low, end)?;
        let rows = self.rows(alloc, limits, count)?;
        Ok(ItemList::of(rows))
    }
}

// Whether a row may come after the last one.
fn is_behind<R: Row>(last: Option<R>, row: R) -> bool
    ensures { result ≡ is_behind R.may_follow last row }
{
    match last {
        None => true,
        Some(last) => R::may_follow(&last, &row),
    }
}
