// What the lines of a script do.
ghost use Rattle.std.specs.Prelude.{◌≡◌, ◌+◌, ◌<◌, true, false, if◌then◌else◌, is_ok, nat_lt};
ghost use Rattle.heal.specs.Kernel.{server_of, None'};
ghost use Rattle.script.specs.declared.Line.TheVariants as line;
ghost use Rattle.memory.specs.Beside.{Aside, BetweenTurns, Noted, SamePace};
ghost use Rattle.memory.specs.Memory.{kern_of, seen_of};
ghost use Rattle.memory.specs.Notes.{added};
ghost use Rattle.memory.specs.Lines.{Follows, goes, Heeded, Kept, Refused, WentTo};

use crate::mailbox::CAPACITY;
use crate::turns::ASKS;
use crate::{Full, Machine, Note, PendingCall, State, When};
use heal::{Call, Msg};
use script::{Line, WrongLine};
use std::ops::ControlFlow;

impl Machine<'_> {
    // There's no room for what is asked for: nothing is done, and all is over.
    fn refuse(&mut self) -> Full
        ensures refused { Refused self.old self.new }
        ensures pace { SamePace self.old self.new }
        ensures kept { Kept self.old self.new }
    {
        self.state = State::Full;
        Full
    }

    // Whether there's room for one note more beside those of a whole turn.
    fn has_room(&self) -> bool
        ensures { result ≡ nat_lt (self.now.noted + 4096) self.now.room }
    {
        self.room - self.noted > ASKS as usize
    }

    // A note, if there's room.
    pub(crate) fn note_if_room(&mut self, n: Note) -> Result<(), Full>
        ensures room { is_ok result ≡ nat_lt (self.old.noted + 4096) self.old.room }
        ensures done { is_ok result ≡ true → Noted n self.old self.new × Aside self.old self.new }
        ensures refused { is_ok result ≡ false → Refused self.old self.new }
        ensures kernel { kern_of self.new ≡ kern_of self.old }
        ensures events { seen_of self.new ≡ (if is_ok result then added n (seen_of self.old) else seen_of self.old) }
        ensures pace { SamePace self.old self.new }
        ensures kept { Kept self.old self.new }
    {
        if !self.has_room() {
            return Err(self.refuse());
        }
        self.note(n);
        Ok(())
    }

    // A call into the mailbox of its server, if there's room.
    fn enter(&mut self, pid: u32, call: Call) -> Result<(), Full>
        requires pid { pid < 64 }
        requires runs { (kern_of self.old).runs pid ≡ true }
        requires idle { (kern_of self.old).pending pid ≡ None' }
        ensures { Follows (line.Ask pid call) self.old (is_ok result) self.new }
    {
        let p = pid as usize;
        let to = server_of(call);
        let number = self.programs[p].number;
        let mailboxes = &self.mailboxes;
        let is_full = mailboxes[to as usize].len() >= CAPACITY;
        if number == u64::MAX || is_full || !self.has_room() {
            return Err(self.refuse());
        }
        let program = &mut self.programs[p];
        program.number = number + 1;
        program.pending = Some(PendingCall { number, call });
        self.note(Note::Asked(pid, call));
        self.put_in(to, Msg::Asks { pid, number, call });
        Ok(())
    }

    // A program asks, unless it doesn't run or waits for something.
    fn ask(&mut self, pid: u32, call: Call) -> Result<(), Full>
        ensures { Follows (line.Ask pid call) self.old (is_ok result) self.new }
    {
        if pid >= 64 {
            return self.note_if_room(Note::Gone(pid));
        }
        let program = self.programs[pid as usize];
        if !program.runs {
            return self.note_if_room(Note::Gone(pid));
        }
        if !program.is_idle() {
            return self.note_if_room(Note::Busy(pid));
        }
        self.enter(pid, call)
    }

    // A key is struck, if there's room; it's for server 2.
    #[tactic(auto, using(crate::proofs::Scripts::refused_between))]
    fn strike(&mut self, x: u32) -> Result<(), Full>
        ensures { Follows (line.Key x) self.old (is_ok result) self.new }
    {
        if !self.has_room() {
            return Err(self.refuse());
        }
        self.note(Note::Typed(x as u64));
        self.keys.push(x as u64);
        self.calm[2] = false;
        Ok(())
    }

    // A fall into the plan, if there's room; a server that isn't there asks nothing, so it never falls.
    #[tactic(auto, using(heal::specs::Kernel::rest, crate::proofs::Scripts::refused_between))]
    fn plan_to_fall(&mut self, server: u32, nth: u32, after: bool) -> Result<(), Full>
        ensures { Follows (line.Fall server nth after) self.old (is_ok result) self.new }
    {
        if server >= 3 {
            return Ok(());
        }
        let when = if after { When::After } else { When::Before };
        if self.plan.plan_fall(server, nth as u64, when).is_err() {
            return Err(self.refuse());
        }
        Ok(())
    }

    // What one line says; handed back is whether the next may be read at once.
    #[tactic(auto, using(heal::specs::Kernel::rest))]
    fn follow(&mut self, l: Line) -> Result<ControlFlow<()>, Full>
        ensures { Follows l self.old (goes result) self.new }
    {
        match l {
            Line::Ask(pid, call) => self.ask(pid, call)?,
            Line::Key(x) => self.strike(x)?,
            Line::Rounds(0) => {}
            Line::Rounds(n) => {
                self.resting = n as u64 - 1;
                return Ok(ControlFlow::Break(()));
            }
            Line::On => {
                self.settling = Some(1);
                return Ok(ControlFlow::Break(()));
            }
            Line::Fall(server, nth, after) => self.plan_to_fall(server, nth, after)?,
            Line::Falls(seed, rate) => self.plan.plan_chance(seed as u64, rate as u64),
            Line::New => {
                self.state = State::Anew;
                return Ok(ControlFlow::Break(()));
            }
        }
        Ok(ControlFlow::Continue(()))
    }

    // What is read; handed back is whether the next line may be read at once.
    fn heed(&mut self, read: Result<Line, WrongLine>) -> Result<ControlFlow<()>, Full>
        ensures heeded { Heeded (Some read) self.old (goes result) self.new }
        ensures between { BetweenTurns self.old self.new }
        ensures lines { self.new.lines ≡ self.old.lines }
    {
        match read {
            Ok(line) => self.follow(line),
            Err(wrong) => {
                self.note_if_room(Note::Wrong(wrong.number))?;
                Ok(ControlFlow::Continue(()))
            }
        }
    }

    // Lines until one that asks for rounds, or the end.
    pub(crate) fn read_lines(&mut self)
        ensures went { WentTo self.old self.new }
        ensures between { BetweenTurns self.old self.new }
    {
        while let Some(read) = self.lines.next() {
            let flow = self.heed(read).unwrap_or(ControlFlow::Break(()));
            if !flow.is_continue() {
                return;
            }
        }
        self.state = State::Ended;
    }
}

// Which server a call goes to: by number, as the kernel's traits speak of servers.
#[tactic(auto, unfolding(heal::specs::Kernel::server_of))]
fn server_of(call: Call) -> u32
    ensures { (result ≡ server_of call) × (result < 3) }
{
    match call {
        Call::Spawn(_) | Call::Exit(_) | Call::Wait | Call::Kill(_) => 0,
        Call::Open(_, _)
        | Call::Close(_)
        | Call::Read(_, _)
        | Call::Write(_, _, _)
        | Call::Remove(_) => 1,
        Call::Take | Call::Leave | Call::Say(_) | Call::Hear => 2,
    }
}
