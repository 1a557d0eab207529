// The lines of a file, and the words of a line.
ghost use Rattle.std.specs.Prelude.{◌≡◌, ◌+◌, ◌<◌, ◌≤◌, [], ◌∷◌, length, IfSome, MatchOption};
ghost use Rattle.tsplib_points.specs.Lines.{is_blank, texts, without_return, words};
ghost use Rattle.std.specs.List.{list_all};

use crate::cuts::{cut_at, is_blank, position_of, position_of_blank, trim_front};

pub fn is_blank_text(text: &[u8]) -> bool
    ensures { result ≡ list_all is_blank text.now }
{
    text.iter().all(|b| is_blank(*b))
}

// A line without one CR at its end.
#[tactic(auto, unfolding(crate::specs::Lines::without_return))]
fn without_return(line: &[u8]) -> &[u8]
    ensures line { result.now ≡ without_return line.now }
    ensures len { length result.now ≤ length line.now }
{
    let n = line.len();
    if 0 < n && line[n - 1] == b'\r' {
        &line[..n - 1]
    } else {
        line
    }
}

/// The lines that are left of a file.
#[derive(Drop)]
pub struct Lines<'a> {
    rest: &'a [u8],
}

impl<'a> Lines<'a> {
    pub fn of(bytes: &'a [u8]) -> Lines<'a>
        ensures { result.rest.now ≡ bytes.now }
    {
        Lines { rest: bytes }
    }

    /// The next line, without its LF or CR LF.
    pub fn next(&mut self) -> Option<&'a [u8]>
        ensures line { MatchOption result (texts self.old.rest.now ≡ [])
            (λ line. texts self.old.rest.now ≡ line.now ∷ texts self.new.rest.now) }
        ensures len { IfSome result (λ line. length line.now ≤ length self.old.rest.now) }
        ensures shorter { IfSome result (λ line. length self.new.rest.now < length self.old.rest.now) }
    {
        if self.rest.is_empty() {
            return None;
        }
        let (line, rest) = cut_at(self.rest, position_of(self.rest, b'\n'));
        self.rest = rest;
        Some(without_return(line))
    }
}

/// The words that are left of a line.
#[derive(Drop)]
pub struct Words<'a> {
    rest: &'a [u8],
}

impl<'a> Words<'a> {
    pub fn of(text: &'a [u8]) -> Words<'a>
        ensures { result.rest.now ≡ text.now }
    {
        Words { rest: text }
    }

    /// The next word.
    pub fn next(&mut self) -> Option<&'a [u8]>
        ensures word { MatchOption result (words self.old.rest.now ≡ [])
            (λ word. words self.old.rest.now ≡ word.now ∷ words self.new.rest.now) }
        ensures len { IfSome result (λ word. length word.now ≤ length self.old.rest.now) }
        ensures rest { length self.new.rest.now ≤ length self.old.rest.now }
    {
        let text = trim_front(self.rest);
        if text.is_empty() {
            return None;
        }
        let (word, rest) = cut_at(text, position_of_blank(text));
        self.rest = rest;
        Some(word)
    }
}
