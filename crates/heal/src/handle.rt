// What a handle is on, and the word of its cell.
ghost use Rattle.std.specs.Prelude.{◌<◌};

// One of the 64 names of files.
#[derive(Clone, Copy)]
pub struct Name {
    pub number: u32,
    ghost small: { number < 64 },
}

impl Name {
    ghost use Rattle.heal.specs.Handles.{Names};

    pub fn new(number: u32) -> Option<Name>
        ensures { Names number result }
    {
        if number >= 64 {
            return None;
        }
        Some(Name { number })
    }
}

// A file that is open, to write or to read.
#[derive(Clone, Copy)]
pub struct Held {
    pub name: Name,
    pub writes: bool,
}

// 1 + 2 name + (1 if it writes); an empty handle's word is 0
impl From<Held> for u64 {
    ghost use Rattle.std.specs.Prelude.{◌≡◌, ◌+◌, ◌*◌, if◌then◌else◌};

    ghost from_gives = { λ held word. word ≡ 1 + 2 * held.name.number + (if held.writes then 1 else 0) };

    fn from(held: Held) -> u64 {
        1 + 2 * held.name.number as u64 + held.writes as u64
    }
}

impl Held {
    ghost use Rattle.std.specs.Prelude.{◌<◌};
    ghost use Rattle.heal.specs.Files.{name_in};
    ghost use Rattle.heal.specs.Handles.{Says};

    // a method, since the name in the word has to be one
    pub fn from_word(word: u64) -> Option<Held>
        requires { name_in word < 64 }
        ensures { Says word result }
    {
        let code = word.checked_sub(1)?;
        Some(Held {
            name: Name {
                number: (code / 2) as u32,
            },
            writes: code % 2 == 1,
        })
    }
}
