// What a call at the sweep comes to.
ghost use Rattle.std.specs.Prelude.{◌≡◌, ◌≤◌, length};

use crate::transaction::Transaction;
use crate::{Answer, Down};

// Why a call is turned away, with the number that a program is told.
#[derive(Clone, Copy, PartialEq, Eq)]
pub enum Refusal {
    // 64 or more
    NoSuchName = 1,
    MissingFile = 2,
    NoSuchHandle = 4,
    // at the length or beyond, or at the end of what a file may have
    PastEnd = 5,
    ReadOnly = 6,
    FileInUse = 8,
    DeskNotOwn = 9,
    NoHandleLeft = 13,
    NotBuilt = 14,
}

// The moment of a call: what is written, all at once, and the answer that is owed from then on.
#[derive(Drop)]
pub struct Moment {
    pub answer: Answer,
    pub writes: Transaction,
}

// Why a call is not done.
#[derive(Clone, Copy, PartialEq, Eq)]
pub enum NotDone {
    // it is told so, and nothing is written
    Refused(Refusal),
    // it waits for others, and the next sweep looks at it again
    Waits,
    // the server has fallen
    Fell,
}

impl From<Refusal> for NotDone {
    ghost use Rattle.std.specs.Prelude.{◌≡◌};
    ghost use Rattle.heal.specs.declared.decision.NotDone.TheVariants.{Refused};

    ghost from_gives = { λ r s. s ≡ Refused r };

    fn from(refusal: Refusal) -> NotDone {
        NotDone::Refused(refusal)
    }
}

impl From<Down> for NotDone {
    ghost use Rattle.std.specs.Prelude.{◌≡◌};
    ghost use Rattle.heal.specs.declared.decision.NotDone.TheVariants.{Fell};

    ghost from_gives = { λ _ s. s ≡ Fell };

    fn from(_down: Down) -> NotDone {
        NotDone::Fell
    }
}

impl Moment {
    // The answer, with each of these cells written.
    pub fn new(answer: Answer, writes: &[(u32, u64)]) -> Moment
        requires { length writes.now ≤ 8 }
        ensures answer { result.answer ≡ answer }
        ensures writes { result.writes ≡ writes.now }
    {
        let mut t = Transaction::new();
        for &(cell, word) in writes {
            t.set(cell, word);
        }
        Moment { answer, writes: t }
    }
}

// A refusal is a moment too: nothing is written.
impl From<Refusal> for Moment {
    ghost use Rattle.std.specs.Prelude.{◌≡◌, []};
    ghost use Rattle.heal.specs.declared.Answer.TheVariants.{No};
    ghost use Rattle.heal.specs.Refusal.{refusal_code};

    ghost from_gives = { λ r m. (m.answer ≡ No (refusal_code r)) × (m.writes ≡ []) };

    fn from(refusal: Refusal) -> Moment {
        Moment {
            answer: Answer::No(refusal as u32),
            writes: Transaction::new(),
        }
    }
}
