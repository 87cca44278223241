// The kernel as two traits, what a server may ask of it and what no server sees; three servers; and the days of the house.
#![tactic(auto)]

ghost use Rattle.std.specs.Prelude.{◌≡◌, ℕ, ◌+◌, ◌*◌, ◌<◌, ◌≤◌, true, false, T, List, [], ◌∷◌, length, is_ok, Ok};
ghost use Rattle.heal.specs.Kernel.{Kern, Event, Round, Does, Between, AtStart, at', counted, with_fell, has_room, cells_of, mine, sent, taken, kept, begun, stopped, answered, showed, answers, begins, stops, shows, first_of, key_at};
ghost use Rattle.heal.specs.House.{Explained};
ghost use Rattle.heal.specs.Promise.{can, OneWriter, FamilyStands, DeadHoldNothing, ScreenInOrder, CoreBuilt};
ghost use Rattle.heal.specs.Rows.{Hold, rows};

mod asks;
pub mod codec;
mod decision;
mod files;
mod handle;
mod journal;
mod programs;
mod ready;
mod screen;
mod server;
mod slots;
mod sweep;
mod transaction;
mod users;

pub use files::Files;
pub use programs::Programs;
pub use screen::Screen;
pub use server::Server;

// Files 0 to 63, of up to 256 words; handles 0 to 7; programs 1 to 63.
#[derive(Clone, Copy)]
pub enum Call {
    Spawn(u32),
    Exit(u32),
    Wait,
    Kill(u32),
    Open(u32, bool),
    Close(u32),
    Read(u32, u32),
    Write(u32, u32, u64),
    Remove(u32),
    Take,
    Leave,
    Say(u64),
    Hear,
}

#[derive(Clone, Copy)]
pub enum Answer {
    Done,
    No(u32),
    Pid(u32),
    Ended(u32, u32),
    Handle(u32),
    Word(u64),
}

// A program asks; or a server tells another something, in words of their own.
#[derive(Clone, Copy)]
pub enum Msg {
    Asks {
        pid: u32,
        number: u64,
        call: Call,
    },
    Tells {
        from: u32,
        kind: u32,
        a: u64,
        b: u64,
        c: u64,
    },
}

// The server has fallen: nothing that it knows is left but its cells and its box.
#[derive(Clone, Copy)]
pub struct Down;

// What a server may ask of the kernel, for itself; it may fall over each.
pub trait Desk {
    ghost kern: { Self → Kern };

    ghost seen: { Self → List Event };

    // the first message in its box, which stays there; and it's taken away
    fn peek(&mut self) -> Result<Option<Msg>, Down>
        requires { 0 < (kern self.old).left }
        ensures { ((is_ok result ≡ true → result ≡ Ok (first_of ((kern self.old).box (kern self.old).at)))) × (Does (kern self.old) (kern self.old) (seen self.old) (seen self.old) (is_ok result) (kern self.new) (seen self.new)) };

    fn take(&mut self) -> Result<(), Down>
        requires { 0 < (kern self.old).left }
        ensures { Does (kern self.old) (taken (kern self.old)) (seen self.old) (seen self.old) (is_ok result) (kern self.new) (seen self.new) };
    // into another's box, if that has fewer than 256 messages; handed back is whether it had
    fn send(&mut self, to: u32, m: Msg) -> Result<bool, Down>
        requires { (0 < (kern self.old).left) × (to < 3) }
        ensures { ((is_ok result ≡ true → result ≡ Ok (has_room to (kern self.old)))) × (Does (kern self.old) (sent to m (kern self.old)) (seen self.old) (seen self.old) (is_ok result) (kern self.new) (seen self.new)) };
    // its own cells: the files' server has 65,536 of them, the others 4,096
    fn get(&mut self, cell: u32) -> Result<u64, Down>
        requires { (0 < (kern self.old).left) × (cell < cells_of (kern self.old).at) }
        ensures { ((is_ok result ≡ true → result ≡ Ok ((kern self.old).cell (kern self.old).at cell))) × (Does (kern self.old) (kern self.old) (seen self.old) (seen self.old) (is_ok result) (kern self.new) (seen self.new)) };

    fn put(&mut self, cell: u32, x: u64) -> Result<(), Down>
        requires { (0 < (kern self.old).left) × (cell < cells_of (kern self.old).at) }
        ensures { Does (kern self.old) (kept cell x (kern self.old)) (seen self.old) (seen self.old) (is_ok result) (kern self.new) (seen self.new) };
    // a program runs, or doesn't any more: only for the server of programs
    fn begin(&mut self, pid: u32) -> Result<(), Down>
        requires { (0 < (kern self.old).left) × (((kern self.old).at ≡ 0) × ((pid < 64) × (Explained can (begins pid (kern self.old) (seen self.old))))) }
        ensures { Does (kern self.old) (begun pid (kern self.old)) (seen self.old) (begins pid (kern self.old) (seen self.old)) (is_ok result) (kern self.new) (seen self.new) };

    fn stop(&mut self, pid: u32) -> Result<(), Down>
        requires { (0 < (kern self.old).left) × (((kern self.old).at ≡ 0) × ((pid < 64) × (Explained can (stops pid (kern self.old) (seen self.old))))) }
        ensures { Does (kern self.old) (stopped pid (kern self.old)) (seen self.old) (stops pid (kern self.old) (seen self.old)) (is_ok result) (kern self.new) (seen self.new) };
    // A program is told, by the server that its call went to; it hears it only if that is the call that it waits for.
    fn answer(&mut self, pid: u32, number: u64, a: Answer) -> Result<(), Down>
        requires { (0 < (kern self.old).left) × ((pid < 64) × ((T (mine pid number (kern self.old))) × (Explained can (answers pid number a (kern self.old) (seen self.old))))) }
        ensures { Does (kern self.old) (answered pid number (kern self.old)) (seen self.old) (answers pid number a (kern self.old) (seen self.old)) (is_ok result) (kern self.new) (seen self.new) };
    // the next place of the screen; the key that was struck as the nth: only for the desk's server
    fn show(&mut self, place: u64, x: u64) -> Result<(), Down>
        requires { (0 < (kern self.old).left) × (((kern self.old).at ≡ 2) × (Explained can (shows place x (kern self.old) (seen self.old)))) }
        ensures { Does (kern self.old) (showed place x (kern self.old)) (seen self.old) (shows place x (kern self.old) (seen self.old)) (is_ok result) (kern self.new) (seen self.new) };

    fn key(&mut self, n: u64) -> Result<Option<u64>, Down>
        requires { (0 < (kern self.old).left) × ((kern self.old).at ≡ 2) }
        ensures { ((is_ok result ≡ true → result ≡ Ok (key_at n (kern self.old).keys))) × (Does (kern self.old) (kern self.old) (seen self.old) (seen self.old) (is_ok result) (kern self.new) (seen self.new)) };
}

// The rest of the world, which no server sees.
pub trait World: Desk {
    // Whose turn it is; who has had one, stands.
    // (Who notes what is seen in finite memory may say that there's no more room for a turn; then all is over.)
    fn seat(&mut self, s: u32) -> bool
        requires { (Self.kern self.old).fell ≡ false }
        ensures { ((T result → Self.kern self.new ≡ at' s (Self.kern self.old))) × (Self.seen self.new ≡ Self.seen self.old) };
    // it has fallen, and another takes its place
    fn renew(&mut self)
        requires { (Self.kern self.old).fell ≡ true }
        ensures { (Self.kern self.new ≡ with_fell false (Self.kern self.old)) × (Self.seen self.new ≡ Self.seen self.old) };
    // programs ask, keys are struck
    fn between(&mut self)
        ensures { Between (Self.kern self.old) (Self.seen self.old) (Self.kern self.new) (Self.seen self.new) };
    // each server had a turn, and none fell
    fn round(&mut self) -> bool
        requires { ((Self.kern self.old).fell ≡ false) × (Explained can (Round ∷ Self.seen self.old)) }
        ensures { (Self.kern self.new ≡ Self.kern self.old) × ((T result → Self.seen self.new ≡ Round ∷ Self.seen self.old)) };
}

// The main theorem: that this is proved. Whatever programs ask, whenever servers fall, and however often, all that is
// seen can be explained by one machine that never fell. (The function's text is fixed, so it counts by hand.)
pub fn days<W: Desk + World>(w: &mut W, many: u64)
    requires starts { AtStart (W.kern w.old) }
    requires unseen { W.seen w.old ≡ [] }
    requires few { many < 281474976710656 }
{
    let mut p = Programs::new();
    let mut f = Files::new();
    let mut s = Screen::new();
    let mut t: u64 = 0;
    while t < many {
        t += 1;
        let mut whole = true;
        w.between();
        if !w.seat(0) {
            return;
        }
        if let Err(Down) = p.turn(w) {
            w.renew();
            p = Programs::new();
            whole = false;
        }
        w.between();
        if !w.seat(1) {
            return;
        }
        if let Err(Down) = f.turn(w) {
            w.renew();
            f = Files::new();
            whole = false;
        }
        w.between();
        if !w.seat(2) {
            return;
        }
        if let Err(Down) = s.turn(w) {
            w.renew();
            s = Screen::new();
            whole = false;
        }
        if whole && !w.round() {
            return;
        }
    }
}

// What a server knows is small; what is more is its cells.
pub fn servers_are_small() -> bool
    ensures { T result }
{
    std::mem::size_of::<Programs>() <= 65536
        && std::mem::size_of::<Files>() <= 65536
        && std::mem::size_of::<Screen>() <= 65536
}

// What is built is never taken back.
pub fn core_built() -> u8
    ensures { CoreBuilt }
{
    0
}

// What is promised of the machine that never falls, each a theorem that a contract names. The screen's places are shown one
// after the other, each once.
pub fn screen_in_order() -> u8
    ensures { ScreenInOrder }
{
    0
}

// Who writes a file is the only one who has it open; and the dead hold nothing.
pub fn one_writer() -> u8
    ensures { (OneWriter) × (DeadHoldNothing) }
{
    0
}

// Every program has a living parent, and going up one comes to program 1.
pub fn family_stands() -> u8
    ensures { FamilyStands }
{
    0
}

// The rows of the table in specs/Rows: what program 1 is told on a machine that never falls.
pub fn rows_hold() -> u8
    ensures { Hold rows }
{
    0
}
