// The lines of a script, and the lines that are printed.
#![tactic(auto)]

ghost use Rattle.std.specs.Prelude.{◌≡◌, MatchOption, ◌≢◌};
ghost use Rattle.script.specs.Text.{text_of, Valid};
ghost use Rattle.script.specs.Law.{ComesBack};

mod lines;
mod page;
mod read;
mod sense;
mod words;

use heal::{Answer, Call};
pub use lines::{Lines, WrongLine};
pub use page::{Full, Page};
use read::cut;
use sense::line_of;

// One line of a script.
#[derive(Clone, Copy)]
pub enum Line {
    // a program asks
    Ask(u32, Call),
    Key(u32),
    Rounds(u32),
    On,
    // the server, which thing it asks from here on, after it's done or before (a bool, as `Call::Open` has one, whose text is fixed: both are
    // a mark of two in a script, read and printed alike)
    Fall(u32, u32, bool),
    // seed and rate
    Falls(u32, u32),
    New,
}

// One line that is printed.
#[derive(Clone, Copy)]
pub enum Report {
    Told(u32, Answer),
    Shown(u64, u64),
    Began(u32),
    Stopped(u32),
    Busy(u32),
    Gone(u32),
    Wrong(u64),
    GaveUp,
}

// The inverse of the printer: the valid line that has this text.
pub fn parse(text: &[u8]) -> Option<Line>
    ensures { MatchOption result ((l : Line) → Valid l → text.now ≢ text_of l) (λ l. Valid l × (text.now ≡ text_of l)) }
{
    line_of(&cut(text)?)
}

// The law: no two valid lines have one text, so a line that is printed and parsed again is the same line.
pub fn lines_come_back() -> u8
    ensures { ComesBack }
{
    0
}
