// Who has a file open, and the word of its cell.
ghost use Rattle.std.specs.Prelude.{◌≡◌, ◌-◌, ◌<◌, ◌^◌, if◌then◌else◌, nat_eq};
ghost use Rattle.heal.specs.Handles.{Counted, OpenedBy, Uses, users_word};

#[derive(Clone, Copy)]
pub enum Users {
    Nobody,
    Writer,
    // how many, at least one
    Readers(u64),
}

// 0, nobody; 1, a writer; else 1 + so many readers
impl From<u64> for Users {
    ghost use Rattle.heal.specs.Handles.{Uses};

    ghost from_gives = { Uses };

    fn from(word: u64) -> Users {
        match word {
            0 => Users::Nobody,
            1 => Users::Writer,
            more => Users::Readers(more - 1),
        }
    }
}

impl Users {
    // the number that says it (a method, since it has to fit)
    pub fn word(self) -> u64
        requires { users_word self < 2 ^ 64 }
        ensures { result ≡ users_word self }
    {
        match self {
            Users::Nobody => 0,
            Users::Writer => 1,
            Users::Readers(readers) => readers + 1,
        }
    }

    // With one more; none where a writer and others would have it open at once.
    pub fn opened(self, writes: bool) -> Option<Users>
        requires counted { Counted self }
        requires few { users_word self < 1000 }
        ensures { OpenedBy writes (users_word self) result }
    {
        match (self, writes) {
            (Users::Nobody, true) => Some(Users::Writer),
            (Users::Nobody, false) => Some(Users::Readers(1)),
            (Users::Readers(readers), false) => Some(Users::Readers(readers + 1)),
            (Users::Writer, _) | (Users::Readers(_), true) => None,
        }
    }

    // With one fewer.
    pub fn closed(self, writes: bool) -> Users
        ensures { users_word result ≡ (if writes then 0 else (if nat_eq (users_word self) 2 then 0 else users_word self - 1)) }
    {
        match self {
            Users::Readers(readers) if readers > 1 && !writes => Users::Readers(readers - 1),
            _ => Users::Nobody,
        }
    }
}
