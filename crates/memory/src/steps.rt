// What is asked of the kernel, done in its arrays. Whether a server falls over it is no matter here.
ghost use Rattle.std.specs.Prelude.{◌≡◌, ◌<◌, [], ◌∷◌, ◌++◌, length};
ghost use Rattle.heal.specs.Kernel.{first_of, key_at, taken, sent, kept, begun, begins, stopped, stops, answered, answers, showed, shows, has_room, cells_of, with_box, set as set_at};
ghost use Rattle.memory.specs.Memory.{kern_of, seen_of, base_of, box_of};
ghost use Rattle.memory.specs.Beside.{Changes, HasPlace, Unnoted};

use crate::{Machine, Note, Program};
use heal::{Answer, Msg};

// So many messages of servers a box takes.
const BOX: usize = 256;

// The traits speak of servers and of programs by number alone, so their bounds stand here as they stand there.
impl Machine<'_> {
    // (The mailboxes are taken as a slice first: what is in a field of the machine can't be lent by itself.)
    pub(crate) fn first_message(&self) -> Option<Msg>
        ensures { result ≡ first_of ((kern_of self.now).box self.now.at) }
    {
        let mailboxes = &self.mailboxes;
        mailboxes[self.at as usize].first()
    }

    pub(crate) fn drop_first(&mut self)
        ensures { Changes (taken (kern_of self.old)) (seen_of self.old) self.old self.new }
    {
        let at = self.at as usize;
        let mailboxes = &mut self.mailboxes;
        if mailboxes[at].pop().is_some() {
            self.calm[at] = false;
        }
    }

    // A message into a mailbox that isn't full. Who gets it isn't calm any more.
    pub(crate) fn put_in(&mut self, to: u32, m: Msg)
        requires server { to < 3 }
        requires room { length (box_of self.old.mailboxes to) < 512 }
        ensures changes { Changes (with_box (set_at to ((kern_of self.old).box to ++ (m ∷ [])) (kern_of self.old).box) (kern_of self.old)) (seen_of self.old) self.old self.new }
        ensures unnoted { Unnoted self.old self.new }
    {
        let mailboxes = &mut self.mailboxes;
        mailboxes[to as usize].push(m);
        self.calm[to as usize] = false;
    }

    // A server's message, if the box has fewer than 256; handed back is whether it had, which is the trait's answer to `send`.
    pub(crate) fn deliver(&mut self, to: u32, m: Msg) -> bool
        requires { to < 3 }
        ensures room { result ≡ has_room to (kern_of self.old) }
        ensures changes { Changes (sent to m (kern_of self.old)) (seen_of self.old) self.old self.new }
    {
        let mailboxes = &self.mailboxes;
        if mailboxes[to as usize].len() >= BOX {
            return false;
        }
        self.put_in(to, m);
        self.calm[self.at as usize] = false;
        true
    }

    #[tactic(auto, unfolding(crate::specs::Memory::cell_of))]
    pub(crate) fn read_cell(&self, cell: u32) -> u64
        requires { cell < cells_of self.now.at }
        ensures { result ≡ (kern_of self.now).cell self.now.at cell }
    {
        self.cells[base(self.at) + cell as usize]
    }

    pub(crate) fn write_cell(&mut self, cell: u32, x: u64)
        requires { cell < cells_of self.old.at }
        ensures { Changes (kept cell x (kern_of self.old)) (seen_of self.old) self.old self.new }
    {
        let i = base(self.at) + cell as usize;
        let old = mix(cell, self.cells[i]);
        self.sum = self.sum.wrapping_add(mix(cell, x)).wrapping_sub(old);
        self.cells[i] = x;
    }

    #[tactic(auto, unfolding(crate::specs::Memory::runs_of))]
    pub(crate) fn run(&mut self, pid: u32)
        requires pid { pid < 64 }
        requires room { HasPlace self.old }
        ensures { Changes (begun pid (kern_of self.old)) (begins pid (kern_of self.old) (seen_of self.old)) self.old self.new }
    {
        let p = pid as usize;
        if self.programs[p].runs {
            return;
        }
        self.programs[p].runs = true;
        self.calm[self.at as usize] = false;
        self.note(Note::Began(pid));
    }

    // What a stopped program had asked is told to nobody.
    #[tactic(auto, unfolding(crate::specs::Memory::runs_of))]
    pub(crate) fn halt(&mut self, pid: u32)
        requires pid { pid < 64 }
        requires room { HasPlace self.old }
        ensures { Changes (stopped pid (kern_of self.old)) (stops pid (kern_of self.old) (seen_of self.old)) self.old self.new }
    {
        let p = pid as usize;
        let program = self.programs[p];
        self.programs[p] = Program {
            runs: false,
            pending: None,
            ..program
        };
        self.calm[self.at as usize] &= !program.runs && program.is_idle();
        if program.runs {
            self.note(Note::Stopped(pid));
        }
    }

    #[tactic(auto, unfolding(crate::specs::Memory::waits_of))]
    pub(crate) fn tell(&mut self, pid: u32, number: u64, a: Answer)
        requires pid { pid < 64 }
        requires room { HasPlace self.old }
        ensures { Changes (answered pid number (kern_of self.old)) (answers pid number a (kern_of self.old) (seen_of self.old)) self.old self.new }
    {
        let p = pid as usize;
        let program = self.programs[p];
        if !program.waits_for(number) {
            return;
        }
        self.programs[p].pending = None;
        self.calm[self.at as usize] = false;
        self.note(Note::Told(pid, a));
    }

    pub(crate) fn show_next(&mut self, place: u64, x: u64)
        requires { HasPlace self.old }
        ensures { Changes (showed place x (kern_of self.old)) (shows place x (kern_of self.old) (seen_of self.old)) self.old self.new }
    {
        if place != self.screen.len as u64 {
            return;
        }
        self.note(Note::Shown(place, x));
        self.screen.push(x);
        self.calm[self.at as usize] = false;
    }

    pub(crate) fn read_key(&self, n: u64) -> Option<u64>
        ensures { result ≡ key_at n (kern_of self.now).keys }
    {
        self.keys.get(n as usize)
    }
}

// A cell and its word, well mixed: sums of these tell other cells apart but for a chance of 1 in 2^64. (By SplitMix64.)
fn mix(cell: u32, x: u64) -> u64 {
    let a = x.wrapping_add((cell as u64 + 1).wrapping_mul(0x9E3779B97F4A7C15));
    let b = (a ^ (a >> 30)).wrapping_mul(0xBF58476D1CE4E5B9);
    let c = (b ^ (b >> 27)).wrapping_mul(0x94D049BB133111EB);
    c ^ (c >> 31)
}

// Where the cells of a server begin: those of all three are lent as one slice.
fn base(s: u32) -> usize
    ensures { (result ≡ base_of s) × (result < 69633) }
{
    match s {
        0 => 0,
        1 => 4096,
        _ => 69632,
    }
}
