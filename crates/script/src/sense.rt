// What words mean: the line that they are the words of.
ghost use Rattle.std.specs.Prelude.{◌≡◌, Some, None, if◌then◌else◌};
ghost use Rattle.script.specs.Senses.{small, call_of, line_of};

use super::Line;
use super::words::Keyword;
use super::words::Token::{self, Number, Word};
use heal::Call;

// A number below 2^32.
fn small(n: u64) -> Option<u32>
    ensures { result ≡ if small n then Some n else None }
{
    u32::try_from(n).ok()
}

// What a program asks.
fn call_of(words: &[Token]) -> Option<Call>
    ensures { result ≡ call_of words.now }
{
    match words {
        [Word(Keyword::Spawn), Number(n)] => Some(Call::Spawn(small(*n)?)),
        [Word(Keyword::Exit), Number(n)] => Some(Call::Exit(small(*n)?)),
        [Word(Keyword::Wait)] => Some(Call::Wait),
        [Word(Keyword::Kill), Number(n)] => Some(Call::Kill(small(*n)?)),
        [Word(Keyword::Open), Number(n), Word(Keyword::W)] => Some(Call::Open(small(*n)?, true)),
        [Word(Keyword::Open), Number(n), Word(Keyword::R)] => Some(Call::Open(small(*n)?, false)),
        [Word(Keyword::Close), Number(n)] => Some(Call::Close(small(*n)?)),
        [Word(Keyword::Read), Number(h), Number(n)] => Some(Call::Read(small(*h)?, small(*n)?)),
        [Word(Keyword::Write), Number(h), Number(n), Number(x)] => Some(Call::Write(
            small(*h)?,
            small(*n)?,
            small(*x)? as u64,
        )),
        [Word(Keyword::Remove), Number(n)] => Some(Call::Remove(small(*n)?)),
        [Word(Keyword::Take)] => Some(Call::Take),
        [Word(Keyword::Leave)] => Some(Call::Leave),
        [Word(Keyword::Say), Number(x)] => Some(Call::Say(small(*x)? as u64)),
        [Word(Keyword::Hear)] => Some(Call::Hear),
        _ => None,
    }
}

pub fn line_of(words: &[Token]) -> Option<Line>
    ensures { result ≡ line_of words.now }
{
    match words {
        [Number(program @ 1..=63), call @ ..] => Some(Line::Ask(*program as u32, call_of(call)?)),
        [Word(Keyword::Key), Number(n)] => Some(Line::Key(small(*n)?)),
        [Word(Keyword::Round), Number(n)] => Some(Line::Rounds(small(*n)?)),
        [Word(Keyword::On)] => Some(Line::On),
        [
            Word(Keyword::Fall),
            Number(s @ 0..=2),
            Number(n @ 1..),
            Word(Keyword::After),
        ] => Some(Line::Fall(*s as u32, small(*n)?, true)),
        [
            Word(Keyword::Fall),
            Number(s @ 0..=2),
            Number(n @ 1..),
            Word(Keyword::Before),
        ] => Some(Line::Fall(*s as u32, small(*n)?, false)),
        [Word(Keyword::Falls), Number(s), Number(n)] => Some(Line::Falls(small(*s)?, small(*n)?)),
        [Word(Keyword::New)] => Some(Line::New),
        _ => None,
    }
}
