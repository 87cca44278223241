// The messages that wait for a server.
ghost use Rattle.std.specs.Prelude.{◌≡◌, ◌<◌, [], ◌∷◌, ◌++◌, length};
ghost use Rattle.heal.specs.Kernel.{first_of, tail};

use heal::{Call, Msg};
use std::marker::Model;

// So many messages there's room for.
pub(crate) const CAPACITY: usize = 512;

// A ring, the oldest message first: the kit's ring is on the heap, which there's none of here, and a list would move 512 messages.
#[derive(Drop)]
pub struct Mailbox {
    pub ring: [Msg; CAPACITY],
    // where the oldest message is, and how many there are
    pub first: usize,
    pub len: usize,
}

impl Model for Mailbox {
    ghost use Rattle.std.specs.Prelude.{List, ◌<◌, ◌≤◌};
    ghost use Rattle.heal.specs.declared.Msg.{Msg};

    ghost Value = { List Msg };

    ghost use Rattle.memory.specs.Mail.{messages};

    ghost view = { λ b. messages b.ring b.first b.len };

    ghost invariant = { λ b. (b.first < 512) × (b.len ≤ 512) };
}

impl Mailbox {
    pub(crate) fn new() -> Mailbox
        ensures { result ≡ [] }
    {
        let none = Msg::Asks {
            pid: 0,
            number: 0,
            call: Call::Spawn(0),
        };
        Mailbox {
            ring: [none; CAPACITY],
            first: 0,
            len: 0,
        }
    }

    pub(crate) fn len(&self) -> usize
        ensures { result ≡ length self.now }
    {
        self.len
    }

    // The oldest message, which stays.
    pub(crate) fn first(&self) -> Option<Msg>
        ensures { result ≡ first_of self.now }
    {
        (self.len > 0).then_some(self.ring[self.first])
    }

    pub(crate) fn push(&mut self, m: Msg)
        requires { length self.old < 512 }
        ensures { self.new ≡ self.old ++ (m ∷ []) }
    {
        self.ring[(self.first + self.len) % CAPACITY] = m;
        self.len += 1;
    }

    // The oldest message, which is taken away.
    pub(crate) fn pop(&mut self) -> Option<Msg>
        ensures first { result ≡ first_of self.old }
        ensures rest { self.new ≡ tail self.old }
    {
        let first = self.first()?;
        self.first = (self.first + 1) % CAPACITY;
        self.len -= 1;
        Some(first)
    }
}
