// Words one after the other, in memory that is lent: no list on the heap, so a slice and a count. (A page takes bytes, whole lines or
// nothing, so it's another type.)
ghost use Rattle.std.specs.Prelude.{◌≡◌, ◌+◌, ◌<◌, ◌≤◌, [], ◌∷◌, ◌++◌, length};

#[derive(Drop)]
pub struct LentWords<'a> {
    pub words: &'a mut [u64],
    pub len: usize,
    ghost within: { len ≤ length words.now },
}

impl LentWords<'_> {
    ghost use Rattle.std.specs.List.{slice_get};
    ghost use Rattle.memory.specs.Memory.{words_of};

    pub(crate) fn get(&self, i: usize) -> Option<u64>
        ensures { result ≡ slice_get (words_of self.now) i }
    {
        self.words[..self.len].get(i).copied()
    }

    pub(crate) fn push(&mut self, x: u64)
        requires { self.old.len < length self.old.words.now }
        ensures words { words_of self.new ≡ words_of self.old ++ (x ∷ []) }
        ensures len { self.new.len ≡ self.old.len + 1 }
        ensures size { length self.new.words.now ≡ length self.old.words.now }
    {
        self.words[self.len] = x;
        self.len += 1;
    }
}
