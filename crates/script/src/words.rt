// The words that lines are made of: numbers and keywords.
ghost use Rattle.std.specs.Prelude.{◌≡◌, ◌≤◌, ◌∷◌, length};
ghost use Rattle.script.specs.declared.words.Token.TheVariants.{Number};
ghost use Rattle.script.specs.Words.{keyword_text, call_words, line_words, answer_words, report_words};

use super::{Line, Report};
use Token::{Asked, Number, Word};
use arrayvec::ArrayVec;
use heal::{Answer, Call};

#[derive(Clone, Copy)]
pub enum Keyword {
    // what a program asks
    Spawn,
    Exit,
    Wait,
    Kill,
    Open,
    Close,
    Read,
    Write,
    Remove,
    Take,
    Leave,
    Say,
    Hear,
    // what a line without a program begins with
    Key,
    Round,
    On,
    Fall,
    Falls,
    New,
    // how a file is opened, and when a server falls
    W,
    R,
    After,
    Before,
    // what only reports have
    Pid,
    Handle,
    Ended,
    Word,
    No,
    Done,
    Screen,
    Begin,
    Stop,
    Busy,
    Gone,
    Line,
    Gave,
    Up,
}

// One word of a line.
#[derive(Clone, Copy)]
pub enum Token {
    Number(u64),
    // a number that a question mark follows
    Asked(u64),
    Word(Keyword),
}

impl Keyword {
    pub const ALL: [Keyword; 37] = [
        Keyword::Spawn,
        Keyword::Exit,
        Keyword::Wait,
        Keyword::Kill,
        Keyword::Open,
        Keyword::Close,
        Keyword::Read,
        Keyword::Write,
        Keyword::Remove,
        Keyword::Take,
        Keyword::Leave,
        Keyword::Say,
        Keyword::Hear,
        Keyword::Key,
        Keyword::Round,
        Keyword::On,
        Keyword::Fall,
        Keyword::Falls,
        Keyword::New,
        Keyword::W,
        Keyword::R,
        Keyword::After,
        Keyword::Before,
        Keyword::Pid,
        Keyword::Handle,
        Keyword::Ended,
        Keyword::Word,
        Keyword::No,
        Keyword::Done,
        Keyword::Screen,
        Keyword::Begin,
        Keyword::Stop,
        Keyword::Busy,
        Keyword::Gone,
        Keyword::Line,
        Keyword::Gave,
        Keyword::Up,
    ];

    pub fn text(self) -> &'static [u8]
        ensures { result.now ≡ keyword_text self }
    {
        match self {
            Keyword::Spawn => b"spawn",
            Keyword::Exit => b"exit",
            Keyword::Wait => b"wait",
            Keyword::Kill => b"kill",
            Keyword::Open => b"open",
            Keyword::Close => b"close",
            Keyword::Read => b"read",
            Keyword::Write => b"write",
            Keyword::Remove => b"remove",
            Keyword::Take => b"take",
            Keyword::Leave => b"leave",
            Keyword::Say => b"say",
            Keyword::Hear => b"hear",
            Keyword::Key => b"key",
            Keyword::Round => b"round",
            Keyword::On => b"on",
            Keyword::Fall => b"fall",
            Keyword::Falls => b"falls",
            Keyword::New => b"new",
            Keyword::W => b"w",
            Keyword::R => b"r",
            Keyword::After => b"after",
            Keyword::Before => b"before",
            Keyword::Pid => b"pid",
            Keyword::Handle => b"handle",
            Keyword::Ended => b"ended",
            Keyword::Word => b"word",
            Keyword::No => b"no",
            Keyword::Done => b"done",
            Keyword::Screen => b"screen",
            Keyword::Begin => b"begin",
            Keyword::Stop => b"stop",
            Keyword::Busy => b"busy",
            Keyword::Gone => b"gone",
            Keyword::Line => b"line",
            Keyword::Gave => b"gave",
            Keyword::Up => b"up",
        }
    }
}

// What stands where an `ArrayVec` has no word yet. (By hand: a derive takes a variant without fields, and there's none.)
impl Default for Token {
    fn default() -> Token {
        Number(0)
    }
}

// The words of a line.
pub type Words = ArrayVec<Token, 5>;

fn words(list: &[Token]) -> Words
    requires { length list.now ≤ 5 }
    ensures { result.items ≡ list.now }
{
    Words::try_from(list).unwrap()
}

// What program `pid` asks.
fn call_words(pid: u32, call: Call) -> Words
    ensures { result.items ≡ Number pid ∷ call_words call }
{
    let program = Number(pid as u64);
    match call {
        Call::Spawn(n) => words(&[program, Word(Keyword::Spawn), Number(n as u64)]),
        Call::Exit(n) => words(&[program, Word(Keyword::Exit), Number(n as u64)]),
        Call::Wait => words(&[program, Word(Keyword::Wait)]),
        Call::Kill(n) => words(&[program, Word(Keyword::Kill), Number(n as u64)]),
        Call::Open(n, true) => words(&[
            program,
            Word(Keyword::Open),
            Number(n as u64),
            Word(Keyword::W),
        ]),
        Call::Open(n, false) => words(&[
            program,
            Word(Keyword::Open),
            Number(n as u64),
            Word(Keyword::R),
        ]),
        Call::Close(n) => words(&[program, Word(Keyword::Close), Number(n as u64)]),
        Call::Read(h, n) => words(&[
            program,
            Word(Keyword::Read),
            Number(h as u64),
            Number(n as u64),
        ]),
        Call::Write(h, n, x) => words(&[
            program,
            Word(Keyword::Write),
            Number(h as u64),
            Number(n as u64),
            Number(x),
        ]),
        Call::Remove(n) => words(&[program, Word(Keyword::Remove), Number(n as u64)]),
        Call::Take => words(&[program, Word(Keyword::Take)]),
        Call::Leave => words(&[program, Word(Keyword::Leave)]),
        Call::Say(x) => words(&[program, Word(Keyword::Say), Number(x)]),
        Call::Hear => words(&[program, Word(Keyword::Hear)]),
    }
}

pub fn line_words(line: Line) -> Words
    ensures { result.items ≡ line_words line }
{
    match line {
        Line::Ask(pid, call) => call_words(pid, call),
        Line::Key(n) => words(&[Word(Keyword::Key), Number(n as u64)]),
        Line::Rounds(n) => words(&[Word(Keyword::Round), Number(n as u64)]),
        Line::On => words(&[Word(Keyword::On)]),
        Line::Fall(s, n, true) => words(&[
            Word(Keyword::Fall),
            Number(s as u64),
            Number(n as u64),
            Word(Keyword::After),
        ]),
        Line::Fall(s, n, false) => words(&[
            Word(Keyword::Fall),
            Number(s as u64),
            Number(n as u64),
            Word(Keyword::Before),
        ]),
        Line::Falls(s, n) => words(&[Word(Keyword::Falls), Number(s as u64), Number(n as u64)]),
        Line::New => words(&[Word(Keyword::New)]),
    }
}

// What program `pid` is told.
fn answer_words(pid: u32, answer: Answer) -> Words
    ensures { result.items ≡ Number pid ∷ answer_words answer }
{
    let program = Number(pid as u64);
    match answer {
        Answer::Done => words(&[program, Word(Keyword::Done)]),
        Answer::No(n) => words(&[program, Word(Keyword::No), Number(n as u64)]),
        Answer::Pid(n) => words(&[program, Word(Keyword::Pid), Number(n as u64)]),
        Answer::Ended(n, code) => words(&[
            program,
            Word(Keyword::Ended),
            Number(n as u64),
            Number(code as u64),
        ]),
        Answer::Handle(n) => words(&[program, Word(Keyword::Handle), Number(n as u64)]),
        Answer::Word(x) => words(&[program, Word(Keyword::Word), Number(x)]),
    }
}

pub fn report_words(report: Report) -> Words
    ensures { result.items ≡ report_words report }
{
    match report {
        Report::Told(pid, answer) => answer_words(pid, answer),
        Report::Shown(place, x) => words(&[Word(Keyword::Screen), Number(place), Number(x)]),
        Report::Began(pid) => words(&[Word(Keyword::Begin), Number(pid as u64)]),
        Report::Stopped(pid) => words(&[Word(Keyword::Stop), Number(pid as u64)]),
        Report::Busy(pid) => words(&[Number(pid as u64), Word(Keyword::Busy)]),
        Report::Gone(pid) => words(&[Number(pid as u64), Word(Keyword::Gone)]),
        Report::Wrong(n) => words(&[Word(Keyword::Line), Asked(n)]),
        Report::GaveUp => words(&[Word(Keyword::On), Word(Keyword::Gave), Word(Keyword::Up)]),
    }
}
