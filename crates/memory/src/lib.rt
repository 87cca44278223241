// A kernel in memory: it falls only where its plan says, and between turns it does what the lines of a script say.
#![tactic(auto)]

mod asks;
mod lent;
mod lines;
mod machine;
mod mailbox;
mod notes;
mod plan;
mod program;
mod start;
mod steps;
mod turns;

use heal::{Answer, Call};
pub use lent::LentWords;
pub use machine::Machine;
pub use mailbox::Mailbox;
pub use plan::{Chance, Fall, Plan, When};
pub use program::{PendingCall, Program};
pub use start::{Store, clear};

// There's no room for it. (Each crate's error is its own: this one speaks of notes, falls and mailboxes, crate `script`'s of a page.)
#[derive(Clone, Copy, PartialEq, Eq)]
pub struct Full;

// What is noted. `Rounds(n)` is n rounds in a row; from `Busy` on nothing has happened that the house would see.
#[derive(Clone, Copy)]
pub enum Note {
    Asked(u32, Call),
    Told(u32, Answer),
    Began(u32),
    Stopped(u32),
    Shown(u64, u64),
    Typed(u64),
    Rounds(u64),
    Busy(u32),
    Gone(u32),
    Wrong(u64),
    GaveUp,
}

// How far the script is. `Anew`: it asks for a new machine; `Full`: there's no room for what comes next.
// Four states of one script, and none of them is nothing.
#[derive(Clone, Copy, PartialEq, Eq)]
pub enum State {
    Going,
    Ended,
    Anew,
    Full,
}
