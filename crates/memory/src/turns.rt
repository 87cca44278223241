// What no server sees: whose turn it is, and when lines are read.
ghost use Rattle.std.specs.Prelude.{◌≡◌, ◌+◌, ◌-◌, ◌%◌, ◌<◌, ◌≤◌, true, false, ◌⊎◌, ◌∷◌, if◌then◌else◌, ◌≢◌, T, IfSome, is_some};
ghost use Rattle.std.specs.List.{list_all};
ghost use Rattle.heal.specs.Kernel.{Round, at'};
ghost use Rattle.memory.specs.declared.Note.TheVariants.{Rounds, GaveUp};
ghost use Rattle.memory.specs.declared.State.TheVariants.{Going, Full};
ghost use Rattle.memory.specs.Beside.{BetweenTurns, Noted, Unnoted};
ghost use Rattle.memory.specs.Memory.{kern_of, seen_of};
ghost use Rattle.memory.specs.Notes.{note_at};
ghost use Rattle.memory.specs.Lines.{all_calm, settled, settles_on, runs_on, Begun, Kept, NoRoom};

use crate::{Machine, Note, State};
use heal::World;

// So many things a server may ask in its turn; each may be noted.
pub(crate) const ASKS: u32 = 4096;

// So many rounds are run at most until nothing changes.
const TRIES: u64 = 16777216;

impl Machine<'_> {
    fn servers_are_calm(&self) -> bool
        ensures { result ≡ list_all (λ b. b) self.now.calm }
    {
        self.calm.iter().all(|calm| *calm)
    }

    fn programs_are_calm(&self) -> bool
        ensures { result ≡ all_calm self.now.programs }
    {
        self.programs.iter().all(|program| program.is_calm())
    }

    // Whether every server is calm, and nobody waits for what is still to come.
    fn has_settled(&self) -> bool
        ensures { result ≡ settled self.now }
    {
        self.sum == 0 && self.servers_are_calm() && self.programs_are_calm()
    }

    // Whether rounds are still to run until nothing changes; so many have.
    #[tactic(auto, using(heal::specs::Kernel::rest))]
    fn settles(&mut self, tries: u64) -> bool
        ensures goes { result ≡ settles_on (Some tries) self.old }
        ensures settling { self.new.settling ≡ (if result then Some (tries + 1) else None) }
        ensures resting { self.new.resting ≡ self.old.resting }
        ensures stop { settled self.old ≡ false → 16777216 ≤ tries → Noted GaveUp self.old self.new ⊎ (self.new.state ≡ Full) }
        ensures between { BetweenTurns self.old self.new }
        ensures kept { Kept self.old self.new }
    {
        self.settling = None;
        if self.has_settled() {
            return false;
        }
        if tries >= TRIES {
            let _ = self.note_if_room(Note::GaveUp);
            return false;
        }
        self.settling = Some(tries + 1);
        true
    }

    // Whether rounds are still to run for the last line; this is then one of them.
    #[tactic(auto, using(heal::specs::Kernel::rest))]
    fn runs_on(&mut self) -> bool
        ensures goes { result ≡ runs_on self.old }
        ensures resting { self.new.resting ≡ self.old.resting - 1 }
        ensures settling { is_some self.new.settling ≡ (if result then is_some self.old.settling else false) }
        ensures between { BetweenTurns self.old self.new }
        ensures kept { Kept self.old self.new }
    {
        if self.resting > 0 {
            self.resting -= 1;
            return true;
        }
        match self.settling {
            Some(tries) => self.settles(tries),
            None => false,
        }
    }

    // The rounds of the last line, or the next lines.
    fn run_or_read(&mut self)
        ensures begun { Begun self.old self.new }
        ensures between { BetweenTurns self.old self.new }
    {
        if self.runs_on() {
            return;
        }
        if self.state == State::Going {
            self.read_lines();
        }
    }

    // How many rounds the last note stands for, if it is one of rounds.
    fn rounds_noted(&self) -> Option<u64>
        ensures { IfSome result (λ n. (0 < self.now.noted) × (note_at self.now.notes.now (self.now.noted - 1) ≡ Rounds n)) }
    {
        let last = self.noted.checked_sub(1)?;
        match self.note_at(last) {
            Note::Rounds(n) => Some(n),
            _ => None,
        }
    }
}

impl World for Machine<'_> {
    // A server has its turn, if the script goes on and there's room for what it may have noted. The turn before is over: who has put
    // other words into its cells isn't calm. Who has its turn is, until it does something.
    fn seat(&mut self, s: u32) -> bool
        ensures turn_of { ((T result → kern_of self.new ≡ at' s (kern_of self.old))) × (seen_of self.new ≡ seen_of self.old) }
        ensures seated { result ≡ true → (kern_of self.new ≡ at' s (kern_of self.old)) × (self.new.turn ≡ (s + 1) % 3) }
        ensures over { result ≡ false → (kern_of self.new ≡ kern_of self.old) × ((3 ≤ s) ⊎ ((self.old.state ≢ Going) ⊎ (self.old.room < self.old.noted + 4096))) }
        ensures unnoted { Unnoted self.old self.new }
    {
        if s >= 3 || self.state != State::Going {
            return false;
        }
        if self.room - self.noted < ASKS as usize {
            self.state = State::Full;
            return false;
        }
        let last = self.at as usize;
        self.calm[last] &= self.sum == 0;
        self.calm[s as usize] = true;
        self.sum = 0;
        self.at = s;
        self.left = ASKS;
        self.turn = (s + 1) % 3;
        true
    }

    fn renew(&mut self) {
        self.fell = false;
    }

    // Only as a round begins, and while the script goes on, anything is done.
    #[tactic(auto, using(heal::specs::Kernel::rest))]
    fn between(&mut self)
        ensures between { BetweenTurns self.old self.new }
        ensures begun { self.old.turn ≡ 0 → self.old.state ≡ Going → Begun self.old self.new }
        ensures turn { (self.old.turn ≢ 0) → self.new ≡ self.old }
        ensures over { (self.old.state ≢ Going) → self.new ≡ self.old }
    {
        if self.turn != 0 {
            return;
        }
        if self.state == State::Going {
            self.run_or_read();
        }
    }

    // One round more is noted.
    fn round(&mut self) -> bool
        ensures whole { (kern_of self.new ≡ kern_of self.old) × ((T result → seen_of self.new ≡ Round ∷ seen_of self.old)) }
        ensures seen { seen_of self.new ≡ (if result then Round ∷ seen_of self.old else seen_of self.old) }
        ensures full { result ≡ false → (self.new.state ≡ Full) × NoRoom self.old }
    {
        match self.rounds_noted() {
            Some(many) if many < u64::MAX => {
                self.write_note(self.noted - 1, Note::Rounds(many + 1));
                true
            }
            _ => self.note_if_room(Note::Rounds(1)).is_ok(),
        }
    }
}
