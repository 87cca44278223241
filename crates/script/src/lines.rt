// The lines of a script, one after the other.
ghost use Rattle.std.specs.Prelude.{◌≡◌, ◌≤◌, length};

use super::read::first_line;
use super::{Line, parse};

// A line that is none that a script may have; the first line has number 1.
#[derive(Clone, Copy, PartialEq, Eq)]
pub struct WrongLine {
    pub number: u64,
}

#[derive(Clone, Copy)]
pub struct Lines<'a> {
    pub text: &'a [u8],
    // where the next line begins
    pub at: usize,
    // how many lines come before that
    pub number: u64,
    ghost within: { at ≤ length text.now },
    ghost counted: { number ≤ at },
}

impl<'a> Lines<'a> {
    pub fn new(text: &'a [u8]) -> Lines<'a>
        ensures text { result.text.now ≡ text.now }
        ensures start { (result.at ≡ 0) × (result.number ≡ 0) }
    {
        Lines {
            text,
            at: 0,
            number: 0,
        }
    }
}

impl Iterator for Lines<'_> {
    ghost use Rattle.script.specs.Scripts.{ReadsNext, lines_left};

    type Item = Result<Line, WrongLine>;

    ghost next_gives = { ReadsNext };

    ghost remaining = { lines_left };

    fn next(&mut self) -> Option<Result<Line, WrongLine>> {
        let rest = &self.text[self.at..];
        if rest.is_empty() {
            return None;
        }
        let (line, taken) = first_line(rest);
        self.at += taken;
        self.number += 1;
        let number = self.number;
        Some(parse(line).ok_or(WrongLine { number }))
    }
}
