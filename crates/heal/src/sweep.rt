// Where the sweep over the slots is, and the number that says so in a server's cell.
// The sweep is over, or at this program's slot; or the call there had its moment, and the program is owed the answer.
#[derive(Clone, Copy, PartialEq, Eq)]
pub enum Sweep {
    Rests,
    At(u32),
    Owes(u32),
}

// A slot's number stands for itself, and from here on a number stands for an answer that is owed.
const OWING: u64 = 64;

// At this slot; or over, where there's none.
impl From<Option<u32>> for Sweep {
    ghost use Rattle.std.specs.Prelude.{◌≡◌};
    ghost use Rattle.heal.specs.Sweep.{slot_of};

    ghost from_gives = { λ next at. at ≡ slot_of next };

    fn from(next: Option<u32>) -> Sweep {
        match next {
            None => Sweep::Rests,
            Some(p) => Sweep::At(p),
        }
    }
}

impl From<u64> for Sweep {
    ghost use Rattle.std.specs.Prelude.{◌≡◌, ◌<◌};
    ghost use Rattle.heal.specs.Sweep.{sweep_of};

    ghost from_gives = { λ word at. word < 128 → at ≡ sweep_of word };

    // No cell of a server says 128 or more: by `%` a program's number comes out of any word.
    fn from(word: u64) -> Sweep {
        match word {
            0 => Sweep::Rests,
            1..OWING => Sweep::At(word as u32),
            _ => Sweep::Owes((word % OWING) as u32),
        }
    }
}

impl From<Sweep> for u64 {
    ghost use Rattle.std.specs.Prelude.{◌≡◌};
    ghost use Rattle.heal.specs.Sweep.{word_of};

    ghost from_gives = { λ at word. word ≡ word_of at };

    fn from(at: Sweep) -> u64 {
        match at {
            Sweep::Rests => 0,
            Sweep::At(p) => p as u64,
            Sweep::Owes(p) => OWING + p as u64,
        }
    }
}
