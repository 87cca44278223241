// The ten asks of a server: it falls over each just as the plan says. What they require is what the kernel's trait requires of them.
ghost use Rattle.std.specs.Prelude.{◌≡◌, ◌<◌, true, is_ok, Ok};
ghost use Rattle.std.specs.Fn.{FnOnceReturnsAtMut, FnOnceTakesAtMut};
ghost use Rattle.heal.specs.Kernel.{Does, first_of, key_at, taken, sent, kept, begun, begins, stopped, stops, answered, answers, showed, shows, has_room, cells_of, with_fell};
ghost use Rattle.memory.specs.Memory.{kern_of, seen_of};
ghost use Rattle.memory.specs.declared.machine.Machine.{Machine};
ghost use Rattle.memory.specs.Beside.{Changes};
ghost use Rattle.memory.specs.Planned.{AsPlanned, Ready, Asked};

use crate::{Machine, When};
use heal::{Answer, Desk, Down, Msg};

impl<'a> Machine<'a> {
    // The server falls.
    fn fall(&mut self) -> Down
        ensures { Changes (with_fell true (kern_of self.old)) (seen_of self.old) self.old self.new }
    {
        self.fell = true;
        self.calm[self.at as usize] = false;
        Down
    }

    // One thing more is asked: it's done, unless the server falls before it, or had fallen; it may fall after it.
    fn perform<T: Drop, F: FnOnce(&mut Machine<'a>) -> T>(&mut self, step: F) -> Result<T, Down>
        requires some { 0 < self.old.left }
        requires can { (m : Machine) → Ready self.old m → FnOnceTakesAtMut F.FnOnce step m }
        ensures { Asked (FnOnceReturnsAtMut F.FnOnce step) self.old result self.new }
    {
        let at = self.at;
        let fate = self.plan.fate(at);
        self.left -= 1;
        if self.fell {
            return Err(Down);
        }
        match fate {
            None => Ok(step(self)),
            Some(When::Before) => Err(self.fall()),
            Some(When::After) => {
                let _ = step(self);
                Err(self.fall())
            }
        }
    }
}

impl Desk for Machine<'_> {
    ghost kern = { kern_of };

    ghost seen = { seen_of };

    fn peek(&mut self) -> Result<Option<Msg>, Down>
        requires some { 0 < self.old.left }
        ensures does { ((is_ok result ≡ true → result ≡ Ok (first_of ((kern_of self.old).box (kern_of self.old).at)))) × (Does (kern_of self.old) (kern_of self.old) (seen_of self.old) (seen_of self.old) (is_ok result) (kern_of self.new) (seen_of self.new)) }
        ensures planned { AsPlanned self.old (kern_of self.old) (seen_of self.old) (is_ok result) self.new }
    {
        self.perform(|machine| machine.first_message())
    }

    fn take(&mut self) -> Result<(), Down>
        requires some { 0 < self.old.left }
        ensures does { Does (kern_of self.old) (taken (kern_of self.old)) (seen_of self.old) (seen_of self.old) (is_ok result) (kern_of self.new) (seen_of self.new) }
        ensures planned { AsPlanned self.old (taken (kern_of self.old)) (seen_of self.old) (is_ok result) self.new }
    {
        self.perform(|machine| machine.drop_first())
    }

    fn send(&mut self, to: u32, m: Msg) -> Result<bool, Down>
        requires some { 0 < self.old.left }
        requires server { to < 3 }
        ensures does { ((is_ok result ≡ true → result ≡ Ok (has_room to (kern_of self.old)))) × (Does (kern_of self.old) (sent to m (kern_of self.old)) (seen_of self.old) (seen_of self.old) (is_ok result) (kern_of self.new) (seen_of self.new)) }
        ensures planned { AsPlanned self.old (sent to m (kern_of self.old)) (seen_of self.old) (is_ok result) self.new }
    {
        self.perform(|machine| machine.deliver(to, m))
    }

    fn get(&mut self, cell: u32) -> Result<u64, Down>
        requires some { 0 < self.old.left }
        requires inside { cell < cells_of self.old.at }
        ensures does { ((is_ok result ≡ true → result ≡ Ok ((kern_of self.old).cell (kern_of self.old).at cell))) × (Does (kern_of self.old) (kern_of self.old) (seen_of self.old) (seen_of self.old) (is_ok result) (kern_of self.new) (seen_of self.new)) }
        ensures planned { AsPlanned self.old (kern_of self.old) (seen_of self.old) (is_ok result) self.new }
    {
        self.perform(|machine| machine.read_cell(cell))
    }

    fn put(&mut self, cell: u32, x: u64) -> Result<(), Down>
        requires some { 0 < self.old.left }
        requires inside { cell < cells_of self.old.at }
        ensures does { Does (kern_of self.old) (kept cell x (kern_of self.old)) (seen_of self.old) (seen_of self.old) (is_ok result) (kern_of self.new) (seen_of self.new) }
        ensures planned { AsPlanned self.old (kept cell x (kern_of self.old)) (seen_of self.old) (is_ok result) self.new }
    {
        self.perform(|machine| machine.write_cell(cell, x))
    }

    fn begin(&mut self, pid: u32) -> Result<(), Down>
        requires some { 0 < self.old.left }
        requires pid { pid < 64 }
        ensures does { Does (kern_of self.old) (begun pid (kern_of self.old)) (seen_of self.old) (begins pid (kern_of self.old) (seen_of self.old)) (is_ok result) (kern_of self.new) (seen_of self.new) }
        ensures planned { AsPlanned self.old (begun pid (kern_of self.old)) (begins pid (kern_of self.old) (seen_of self.old)) (is_ok result) self.new }
    {
        self.perform(|machine| machine.run(pid))
    }

    fn stop(&mut self, pid: u32) -> Result<(), Down>
        requires some { 0 < self.old.left }
        requires pid { pid < 64 }
        ensures does { Does (kern_of self.old) (stopped pid (kern_of self.old)) (seen_of self.old) (stops pid (kern_of self.old) (seen_of self.old)) (is_ok result) (kern_of self.new) (seen_of self.new) }
        ensures planned { AsPlanned self.old (stopped pid (kern_of self.old)) (stops pid (kern_of self.old) (seen_of self.old)) (is_ok result) self.new }
    {
        self.perform(|machine| machine.halt(pid))
    }

    fn answer(&mut self, pid: u32, number: u64, a: Answer) -> Result<(), Down>
        requires some { 0 < self.old.left }
        requires pid { pid < 64 }
        ensures does { Does (kern_of self.old) (answered pid number (kern_of self.old)) (seen_of self.old) (answers pid number a (kern_of self.old) (seen_of self.old)) (is_ok result) (kern_of self.new) (seen_of self.new) }
        ensures planned { AsPlanned self.old (answered pid number (kern_of self.old)) (answers pid number a (kern_of self.old) (seen_of self.old)) (is_ok result) self.new }
    {
        self.perform(|machine| machine.tell(pid, number, a))
    }

    fn show(&mut self, place: u64, x: u64) -> Result<(), Down>
        requires some { 0 < self.old.left }
        ensures does { Does (kern_of self.old) (showed place x (kern_of self.old)) (seen_of self.old) (shows place x (kern_of self.old) (seen_of self.old)) (is_ok result) (kern_of self.new) (seen_of self.new) }
        ensures planned { AsPlanned self.old (showed place x (kern_of self.old)) (shows place x (kern_of self.old) (seen_of self.old)) (is_ok result) self.new }
    {
        self.perform(|machine| machine.show_next(place, x))
    }

    fn key(&mut self, n: u64) -> Result<Option<u64>, Down>
        requires some { 0 < self.old.left }
        ensures does { ((is_ok result ≡ true → result ≡ Ok (key_at n (kern_of self.old).keys))) × (Does (kern_of self.old) (kern_of self.old) (seen_of self.old) (seen_of self.old) (is_ok result) (kern_of self.new) (seen_of self.new)) }
        ensures planned { AsPlanned self.old (kern_of self.old) (seen_of self.old) (is_ok result) self.new }
    {
        self.perform(|machine| machine.read_key(n))
    }
}
