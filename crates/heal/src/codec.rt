// Calls and answers as words: one way in and one way back each. What the way in promises is the law, that back after in is the same.
ghost use Rattle.std.specs.Prelude.{◌≡◌, ℕ};
ghost use Rattle.heal.specs.Codec.{call_of, answer_of, clamped, number_of, answer_number_of, MeansCall, MeansAnswer, has_b, has_x, answer_has_a, answer_has_x};

use crate::{Answer, Call};

// What a call asks for. The numbers are the ones that are kept in cells.
#[derive(Clone, Copy, PartialEq, Eq)]
pub enum CallKind {
    Spawn = 1,
    Exit = 2,
    Wait = 3,
    Kill = 4,
    Open = 5,
    Close = 6,
    Read = 7,
    Write = 8,
    Remove = 9,
    Take = 10,
    Leave = 11,
    Say = 12,
    Hear = 13,
}

impl From<CallKind> for u64 {
    ghost from_gives = { λ kind n. n ≡ number_of kind };

    fn from(kind: CallKind) -> u64 {
        kind as u64
    }
}

// Any other number is the last kind.
impl From<u64> for CallKind {
    ghost from_gives = { MeansCall };

    #[tactic(auto, unfolding(crate::specs::Codec::call_of))]
    fn from(n: u64) -> CallKind {
        match n {
            1 => CallKind::Spawn,
            2 => CallKind::Exit,
            3 => CallKind::Wait,
            4 => CallKind::Kill,
            5 => CallKind::Open,
            6 => CallKind::Close,
            7 => CallKind::Read,
            8 => CallKind::Write,
            9 => CallKind::Remove,
            10 => CallKind::Take,
            11 => CallKind::Leave,
            12 => CallKind::Say,
            _ => CallKind::Hear,
        }
    }
}

impl CallKind {
    // whether calls of this kind have the word b; what they don't have needn't be read
    pub fn has_b(self) -> bool
        ensures { result ≡ has_b (number_of self) }
    {
        matches!(self, CallKind::Open | CallKind::Read | CallKind::Write)
    }

    // whether calls of this kind have the word x
    pub fn has_x(self) -> bool
        ensures { result ≡ has_x (number_of self) }
    {
        matches!(self, CallKind::Write | CallKind::Say)
    }
}

// The same two, of a kind by its number.
#[tactic(auto, using(crate::proofs::Numbered::kind_has_b))]
pub fn has_b(kind: u64) -> bool
    ensures { result ≡ has_b kind }
{
    CallKind::from(kind).has_b()
}

#[tactic(auto, using(crate::proofs::Numbered::kind_has_x))]
pub fn has_x(kind: u64) -> bool
    ensures { result ≡ has_x kind }
{
    CallKind::from(kind).has_x()
}

// What an answer tells.
#[derive(Clone, Copy, PartialEq, Eq)]
pub enum AnswerKind {
    Done,
    No,
    Pid,
    Ended,
    Handle,
    Word,
}

impl From<AnswerKind> for u64 {
    ghost from_gives = { λ kind n. n ≡ answer_number_of kind };

    fn from(kind: AnswerKind) -> u64 {
        kind as u64
    }
}

// Any other number is the first kind.
impl From<u64> for AnswerKind {
    ghost from_gives = { MeansAnswer };

    #[tactic(auto, unfolding(crate::specs::Codec::answer_of))]
    fn from(n: u64) -> AnswerKind {
        match n {
            1 => AnswerKind::No,
            2 => AnswerKind::Pid,
            3 => AnswerKind::Ended,
            4 => AnswerKind::Handle,
            5 => AnswerKind::Word,
            _ => AnswerKind::Done,
        }
    }
}

impl AnswerKind {
    // whether answers of this kind have the word a; what they don't have needn't be written
    pub fn has_a(self) -> bool
        ensures { result ≡ answer_has_a (answer_number_of self) }
    {
        !matches!(self, AnswerKind::Done | AnswerKind::Word)
    }

    // whether answers of this kind have the word x (a trait for it and the calls' `has_x` would be longer than both)
    pub fn has_x(self) -> bool
        ensures { result ≡ answer_has_x (answer_number_of self) }
    {
        matches!(self, AnswerKind::Ended | AnswerKind::Word)
    }
}

// A word that its kind doesn't have is nought.
#[derive(Clone, Copy)]
pub struct CallWords {
    pub kind: CallKind,
    pub a: u64,
    pub b: u64,
    pub x: u64,
}

impl From<Call> for CallWords {
    ghost from_gives = { λ c w. call_of (number_of w.kind) w.a w.b w.x ≡ c };

    #[tactic(auto, unfolding(crate::specs::Codec::call_of))]
    fn from(c: Call) -> CallWords {
        let (kind, a, b, x) = match c {
            Call::Spawn(n) => (CallKind::Spawn, n.into(), 0, 0),
            Call::Exit(n) => (CallKind::Exit, n.into(), 0, 0),
            Call::Wait => (CallKind::Wait, 0, 0, 0),
            Call::Kill(n) => (CallKind::Kill, n.into(), 0, 0),
            Call::Open(n, w) => (CallKind::Open, n.into(), w.into(), 0),
            Call::Close(h) => (CallKind::Close, h.into(), 0, 0),
            Call::Read(h, i) => (CallKind::Read, h.into(), i.into(), 0),
            Call::Write(h, i, x) => (CallKind::Write, h.into(), i.into(), x),
            Call::Remove(n) => (CallKind::Remove, n.into(), 0, 0),
            Call::Take => (CallKind::Take, 0, 0, 0),
            Call::Leave => (CallKind::Leave, 0, 0, 0),
            Call::Say(x) => (CallKind::Say, 0, 0, x),
            Call::Hear => (CallKind::Hear, 0, 0, 0),
        };
        CallWords { kind, a, b, x }
    }
}

impl From<CallWords> for Call {
    ghost from_gives = { λ w c. c ≡ call_of (number_of w.kind) w.a w.b w.x };

    #[tactic(auto, unfolding(crate::specs::Codec::call_of))]
    fn from(w: CallWords) -> Call {
        match w.kind {
            CallKind::Spawn => Call::Spawn(clamp(w.a)),
            CallKind::Exit => Call::Exit(clamp(w.a)),
            CallKind::Wait => Call::Wait,
            CallKind::Kill => Call::Kill(clamp(w.a)),
            CallKind::Open => Call::Open(clamp(w.a), w.b != 0),
            CallKind::Close => Call::Close(clamp(w.a)),
            CallKind::Read => Call::Read(clamp(w.a), clamp(w.b)),
            CallKind::Write => Call::Write(clamp(w.a), clamp(w.b), w.x),
            CallKind::Remove => Call::Remove(clamp(w.a)),
            CallKind::Take => Call::Take,
            CallKind::Leave => Call::Leave,
            CallKind::Say => Call::Say(w.x),
            CallKind::Hear => Call::Hear,
        }
    }
}

// A word that its kind doesn't have is nought.
#[derive(Clone, Copy)]
pub struct AnswerWords {
    pub kind: AnswerKind,
    pub a: u64,
    pub x: u64,
}

impl From<Answer> for AnswerWords {
    ghost from_gives = { λ a w. answer_of (answer_number_of w.kind) w.a w.x ≡ a };

    #[tactic(auto, unfolding(crate::specs::Codec::answer_of))]
    fn from(answer: Answer) -> AnswerWords {
        let (kind, a, x) = match answer {
            Answer::Done => (AnswerKind::Done, 0, 0),
            Answer::No(n) => (AnswerKind::No, n.into(), 0),
            Answer::Pid(n) => (AnswerKind::Pid, n.into(), 0),
            Answer::Ended(n, c) => (AnswerKind::Ended, n.into(), c.into()),
            Answer::Handle(n) => (AnswerKind::Handle, n.into(), 0),
            Answer::Word(x) => (AnswerKind::Word, 0, x),
        };
        AnswerWords { kind, a, x }
    }
}

impl From<AnswerWords> for Answer {
    ghost from_gives = { λ w a. a ≡ answer_of (answer_number_of w.kind) w.a w.x };

    #[tactic(auto, unfolding(crate::specs::Codec::answer_of))]
    fn from(w: AnswerWords) -> Answer {
        match w.kind {
            AnswerKind::Done => Answer::Done,
            AnswerKind::No => Answer::No(clamp(w.a)),
            AnswerKind::Pid => Answer::Pid(clamp(w.a)),
            AnswerKind::Ended => Answer::Ended(clamp(w.a), clamp(w.x)),
            AnswerKind::Handle => Answer::Handle(clamp(w.a)),
            AnswerKind::Word => Answer::Word(w.x),
        }
    }
}

// A word from memory that doesn't fit is nought: what is encoded always fits.
pub fn clamp(x: u64) -> u32
    ensures { result ≡ clamped x }
{
    u32::try_from(x).unwrap_or(0)
}
