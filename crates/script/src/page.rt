// A page that is printed on: a line is printed whole or not at all.
// It's not printed by `Display`, since `write!` promises nothing of what an error leaves.
// That a page's size stays is a clause of its own, here and in crate `play`: who prints in a row needs it of each alone.
ghost use Rattle.std.specs.Prelude.{◌≤◌, length};

use super::words::Token::{self, Asked, Number, Word};
use super::words::{line_words, report_words};
use super::{Line, Report};
use itoa::Buffer;

// There's no room for what is to be printed.
#[derive(Clone, Copy, PartialEq, Eq)]
pub struct Full;

// What is printed on is lent, so it's a slice and a length, and no vector.
#[derive(Drop)]
pub struct Page<'a> {
    pub buf: &'a mut [u8],
    pub len: usize,
    ghost fits: { len ≤ length buf.now },
}

impl<'a> Page<'a> {
    ghost use Rattle.std.specs.Prelude.{◌≡◌, [], ◌∷◌, ◌++◌, decimal};
    ghost use Rattle.script.specs.Words.{spelt, spell};
    ghost use Rattle.script.specs.Text.{text_of, report_text};
    ghost use Rattle.script.specs.Pages.{size, written, Wrote, Printed};

    pub fn new(buf: &'a mut [u8]) -> Page<'a>
        ensures size { size result ≡ length buf.old }
        ensures empty { written result ≡ [] }
    {
        Page { buf, len: 0 }
    }

    // How many bytes are printed.
    pub fn len(&self) -> usize
        ensures len { result ≡ length (written self.now) }
        ensures fits { result ≤ size self.now }
    {
        self.len
    }

    fn put(&mut self, bytes: &[u8]) -> Result<(), Full>
        ensures { Wrote self.old bytes.now self.new result }
    {
        if bytes.len() > self.buf.len() - self.len {
            return Err(Full);
        }
        // one by one: for `copy_from_slice` the library for C would need `memmove` from outside
        for byte in bytes {
            self.buf[self.len] = *byte;
            self.len += 1;
        }
        Ok(())
    }

    fn number(&mut self, n: u64) -> Result<(), Full>
        ensures { Wrote self.old (decimal n) self.new result }
    {
        self.put(Buffer::new().format(n).as_bytes())
    }

    fn word(&mut self, word: Token) -> Result<(), Full>
        ensures { Wrote self.old (spelt word) self.new result }
    {
        match word {
            Number(n) => self.number(n),
            Asked(n) => {
                self.number(n)?;
                self.put(b"?")
            }
            Word(keyword) => self.put(keyword.text()),
        }
    }

    // A blank and a word.
    fn next_word(&mut self, word: Token) -> Result<(), Full>
        ensures { Wrote self.old (32 ∷ spelt word) self.new result }
    {
        self.put(b" ")?;
        self.word(word)
    }

    fn words(&mut self, words: &[Token]) -> Result<(), Full>
        ensures { Wrote self.old (spell words.now) self.new result }
    {
        let Some((first, others)) = words.split_first() else {
            return Ok(());
        };
        self.word(*first)?;
        for word in others {
            self.next_word(*word)?;
        }
        Ok(())
    }

    // The words and a newline.
    fn line(&mut self, words: &[Token]) -> Result<(), Full>
        ensures { Wrote self.old (spell words.now ++ 10 ∷ []) self.new result }
    {
        self.words(words)?;
        self.put(b"\n")
    }

    // The same, but nothing is printed if there's no room for all of it.
    fn whole(&mut self, words: &[Token]) -> Result<(), Full>
        ensures size { size self.new ≡ size self.old }
        ensures printed { Printed (size self.old) (written self.old) (spell words.now ++ 10 ∷ []) (written self.new) result }
    {
        let before = self.len;
        let printed = self.line(words);
        if printed.is_err() {
            self.len = before;
        }
        printed
    }

    // The report and a newline; nothing is printed if there's no room for that.
    pub fn print(&mut self, r: Report) -> Result<(), Full>
        ensures size { size self.new ≡ size self.old }
        ensures printed { Printed (size self.old) (written self.old) (report_text r ++ 10 ∷ []) (written self.new) result }
    {
        self.whole(&report_words(r))
    }

    // the same of a line: one function for both would have to name two texts in its clause
    pub fn print_line(&mut self, l: Line) -> Result<(), Full>
        ensures size { size self.new ≡ size self.old }
        ensures printed { Printed (size self.old) (written self.old) (text_of l ++ 10 ∷ []) (written self.new) result }
    {
        self.whole(&line_words(l))
    }
}
