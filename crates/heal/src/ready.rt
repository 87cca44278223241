// A set of programs, 0 to 63, in one word.
ghost use Rattle.std.specs.Prelude.{◌≡◌, ℕ, ◌<◌, not, ◌&&◌, ◌||◌, ◌==◌};
ghost use Rattle.heal.specs.Ready.{has, First};

#[derive(Clone, Copy)]
pub struct ReadySet {
    pub bits: u64,
}

impl ReadySet {
    pub fn contains(self, p: u32) -> bool
        requires { p < 64 }
        ensures { result ≡ has p self.bits }
    {
        (self.bits >> p) & 1 == 1
    }

    pub fn insert(self, p: u32) -> ReadySet
        requires { p < 64 }
        ensures { (q : ℕ) → has q result.bits ≡ has q self.bits || p == q }
    {
        ReadySet {
            bits: self.bits | (1 << p),
        }
    }

    pub fn remove(self, p: u32) -> ReadySet
        requires { p < 64 }
        ensures { (q : ℕ) → has q result.bits ≡ has q self.bits && not (p == q) }
    {
        ReadySet {
            bits: self.bits & !(1 << p),
        }
    }

    // the first from c on that is in it
    pub fn first_from(self, c: u32) -> Option<u32>
        ensures { First c self.bits result }
    {
        let rest = self.bits.checked_shr(c)?;
        if rest == 0 {
            return None;
        }
        Some(c + rest.trailing_zeros())
    }
}
