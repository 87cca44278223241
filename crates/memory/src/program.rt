// What the kernel knows of a program.
ghost use Rattle.std.specs.Prelude.{◌≡◌};
ghost use Rattle.heal.specs.Kernel.{is_call};
ghost use Rattle.memory.specs.Programs.{pending_of, idle, calm_of, may_wait};

use heal::Call;

// A program's call that hasn't been told, with its number.
#[derive(Clone, Copy)]
pub struct PendingCall {
    pub number: u64,
    pub call: Call,
}

#[derive(Clone, Copy)]
pub struct Program {
    pub runs: bool,
    pub pending: Option<PendingCall>,
    // of its next call
    pub number: u64,
}

impl Program {
    pub(crate) fn is_idle(&self) -> bool
        ensures { result ≡ idle (pending_of self.now.pending) }
    {
        self.pending.is_none()
    }

    // Whether this call is the one that it waits for.
    #[tactic(auto, unfolding(heal::specs::Kernel::is_call))]
    pub(crate) fn waits_for(&self, number: u64) -> bool
        ensures { result ≡ is_call number (pending_of self.now.pending) }
    {
        self.pending.is_some_and(|pending| number == pending.number)
    }

    // Whether it waits for nothing that could still be told without more lines.
    pub(crate) fn is_calm(&self) -> bool
        ensures { result ≡ calm_of (pending_of self.now.pending) }
    {
        self.pending.map_or(true, |pending| may_wait(pending.call))
    }
}

// A call that may wait for ever: for a child that ends, for a key.
fn may_wait(call: Call) -> bool
    ensures { result ≡ may_wait call }
{
    matches!(call, Call::Wait | Call::Hear)
}
