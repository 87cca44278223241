// Where servers fall: over the things that are planned, and over others by chance.
ghost use Rattle.std.specs.Prelude.{◌≡◌, ◌+◌, ◌/◌, ◌^◌, ◌<◌, length, is_ok, OnOk, OnErr, nat_lt, position};
ghost use Rattle.memory.specs.Plan.{stirred, by_chance, is_for, fate_of, Nobody, PlanAsked, PlanAdded, PlanChance};

use crate::Full;
use arrayvec::ArrayVec;

// Whether a server falls before what it asks is done, or after.
#[derive(Clone, Copy, Default, PartialEq, Eq)]
pub enum When {
    #[default]
    Before,
    After,
}

// A server falls over its `ask`th thing.
#[derive(Clone, Copy, Default)]
pub struct Fall {
    pub server: u32,
    pub ask: u64,
    pub when: When,
}

// A generator of numbers: over one thing in `rate` a server falls. A script says 0 for never, which is one
// test in `draw`; an `Option` would be made of the 0 first, and tested there all the same.
#[derive(Clone, Copy, Default)]
pub struct Chance {
    pub seed: u64,
    pub rate: u64,
}

impl Chance {
    // The generator goes on to its next number.
    fn stir(&mut self)
        ensures seed { self.new.seed ≡ stirred self.old.seed }
        ensures rate { self.new.rate ≡ self.old.rate }
    {
        self.seed = self
            .seed
            .wrapping_mul(6364136223846793005)
            .wrapping_add(1442695040888963407);
    }

    // Whether this number lets a server fall, by turns before and after.
    fn draw(&self) -> Option<When>
        ensures { result ≡ by_chance (self.now.seed / 2 ^ 33) self.now.rate }
    {
        let number = self.seed >> 33;
        if self.rate == 0 || number % self.rate != 0 {
            return None;
        }
        if number / self.rate % 2 == 0 {
            Some(When::Before)
        } else {
            Some(When::After)
        }
    }
}

#[derive(Drop)]
pub struct Plan {
    // how many things each server has asked
    pub asked: [u64; 3],
    pub falls: ArrayVec<Fall, 64>,
    pub chance: Chance,
}

impl Plan {
    // Nobody falls.
    pub fn new() -> Plan
        ensures { Nobody result }
    {
        Plan {
            asked: [0; 3],
            falls: ArrayVec::new(),
            chance: Chance::default(),
        }
    }

    // The place in the list of the first fall that is for this server's ask.
    fn place(&self, server: u32, ask: u64) -> Option<usize>
        ensures { result ≡ position (is_for server ask) self.now.falls.items }
    {
        self.falls
            .iter()
            .position(|fall| fall.server == server && fall.ask == ask)
    }

    // Server `at` asks one thing more: when it falls over it, if it does. What was planned for it is then taken out of the list.
    pub fn fate(&mut self, at: u32) -> Option<When>
        requires { at < 3 }
        ensures fate { result ≡ fate_of self.old at }
        ensures plan { PlanAsked self.old at self.new }
    {
        let ask = self.asked[at as usize].wrapping_add(1);
        self.asked[at as usize] = ask;
        self.chance.stir();
        match self.place(at, ask) {
            Some(place) => Some(self.falls.swap_remove(place).when),
            None => self.chance.draw(),
        }
    }

    // The server falls over the `nth` thing that it asks from here on; there's room for 64 such falls.
    pub fn plan_fall(&mut self, server: u32, nth: u64, when: When) -> Result<(), Full>
        requires { server < 3 }
        ensures room { is_ok result ≡ nat_lt (length self.old.falls.items) 64 }
        ensures added { OnOk result (PlanAdded self.old server nth when self.new) }
        ensures full { OnErr result (self.new ≡ self.old) }
    {
        let ask = self.asked[server as usize].wrapping_add(nth);
        self.falls
            .try_push(Fall { server, ask, when })
            .map_err(|_| Full)
    }

    // From here on chance goes by this seed and rate.
    pub fn plan_chance(&mut self, seed: u64, rate: u64)
        ensures { PlanChance self.old seed rate self.new }
    {
        self.chance = Chance { seed, rate };
    }
}
