// Reading: a text is cut into lines at its newlines, and a line into words at its blanks.
ghost use Rattle.std.specs.Prelude.{◌≡◌, ℕ, ◌^◌, ◌<◌, length, List, decimal, MatchOption, ◌≢◌};
ghost use Rattle.script.specs.declared.words.Token.{Token};
ghost use Rattle.script.specs.Words.{spelt, spell};
ghost use Rattle.script.specs.Cuts.{keyword_of, Readable, Shaped};
ghost use Rattle.script.specs.Scripts.{LineAt};

use super::words::{Keyword, Token, Words};

// The first line, and how many bytes it takes with its newline.
pub fn first_line(text: &[u8]) -> (&[u8], usize)
    requires { 0 < length text.now }
    ensures { LineAt text.now 0 result.0.now result.1 }
{
    match text.iter().position(|b| *b == b'\n') {
        Some(end) => (&text[..end], end + 1),
        None => (text, text.len()),
    }
}

// The number that is written so: of digits alone, and with no needless noughts in front.
// (Not by `parse`, which wants text and lets a plus and needless noughts stand in front.)
fn number(word: &[u8]) -> Option<u64>
    ensures { MatchOption result ((n : ℕ) → n < 2 ^ 64 → word.now ≢ decimal n) (λ n. word.now ≡ decimal n) }
{
    let first = *word.first()?;
    if first == b'0' && word.len() > 1 {
        return None;
    }
    let mut n: u64 = 0;
    for byte in word {
        if !byte.is_ascii_digit() {
            return None;
        }
        n = n.checked_mul(10)?.checked_add((*byte - b'0').into())?;
    }
    Some(n)
}

fn keyword_of(word: &[u8]) -> Option<Keyword>
    ensures { result ≡ keyword_of word.now }
{
    Keyword::ALL.iter().copied().find(|k| k.text() == word)
}

fn token_of(word: &[u8]) -> Option<Token>
    ensures { MatchOption result ((t : Token) → Readable t → word.now ≢ spelt t) (λ t. Readable t × (word.now ≡ spelt t)) }
{
    match number(word) {
        Some(n) => Some(Token::Number(n)),
        None => Some(Token::Word(keyword_of(word)?)),
    }
}

// The words of a line, if it has such as a script may have, and not too many.
pub fn cut(text: &[u8]) -> Option<Words>
    ensures { MatchOption result ((ts : List Token) → Shaped ts → text.now ≢ spell ts) (λ words. Shaped words.items × (text.now ≡ spell words.items)) }
{
    let mut words = Words::new();
    for word in text.split(|b| *b == b' ') {
        words.try_push(token_of(word)?).ok()?;
    }
    Some(words)
}
