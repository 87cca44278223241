// Notes as words: one conversion writes a note, one reads it, and what is read is what was written.
ghost use Rattle.std.specs.Prelude.{◌≡◌, ℕ, ◌<◌, ◌≢◌};
ghost use Rattle.memory.specs.Notes.{kind_of, note_of, note_at, added};
ghost use Rattle.memory.specs.Memory.{seen_of};
ghost use Rattle.memory.specs.Beside.{Beside, HasPlace, Noted};

use crate::{Machine, Note};
use heal::codec::{AnswerKind, AnswerWords, CallKind, CallWords, clamp};
use heal::{Answer, Call};

// So many words of the memory that is lent has each note.
const WORDS: usize = 6;

// What the first word says. A word that is no other kind's says `GaveUp`: what is written always is one.
#[derive(Clone, Copy, PartialEq, Eq)]
enum NoteKind {
    Asked = 1,
    Told,
    Began,
    Stopped,
    Shown,
    Typed,
    Rounds,
    Busy,
    Gone,
    Wrong,
    GaveUp,
}

impl From<NoteKind> for u64 {
    ghost from_gives = { λ kind word. kind_of word ≡ kind };

    fn from(kind: NoteKind) -> u64 {
        kind as u64
    }
}

impl From<u64> for NoteKind {
    ghost from_gives = { λ word kind. kind ≡ kind_of word };

    fn from(word: u64) -> NoteKind {
        match word {
            1 => NoteKind::Asked,
            2 => NoteKind::Told,
            3 => NoteKind::Began,
            4 => NoteKind::Stopped,
            5 => NoteKind::Shown,
            6 => NoteKind::Typed,
            7 => NoteKind::Rounds,
            8 => NoteKind::Busy,
            9 => NoteKind::Gone,
            10 => NoteKind::Wrong,
            _ => NoteKind::GaveUp,
        }
    }
}

impl From<Note> for [u64; WORDS] {
    ghost from_gives = { λ note words. note_of words ≡ note };

    fn from(note: Note) -> [u64; WORDS] {
        match note {
            Note::Asked(pid, call) => {
                let CallWords { kind, a, b, x } = CallWords::from(call);
                [NoteKind::Asked.into(), pid.into(), kind.into(), a, b, x]
            }
            Note::Told(pid, answer) => {
                let AnswerWords { kind, a, x } = AnswerWords::from(answer);
                [NoteKind::Told.into(), pid.into(), kind.into(), a, x, 0]
            }
            Note::Began(pid) => [NoteKind::Began.into(), pid.into(), 0, 0, 0, 0],
            Note::Stopped(pid) => [NoteKind::Stopped.into(), pid.into(), 0, 0, 0, 0],
            Note::Shown(place, x) => [NoteKind::Shown.into(), 0, place, x, 0, 0],
            Note::Typed(x) => [NoteKind::Typed.into(), 0, x, 0, 0, 0],
            Note::Rounds(many) => [NoteKind::Rounds.into(), 0, many, 0, 0, 0],
            Note::Busy(pid) => [NoteKind::Busy.into(), pid.into(), 0, 0, 0, 0],
            Note::Gone(pid) => [NoteKind::Gone.into(), pid.into(), 0, 0, 0, 0],
            Note::Wrong(line) => [NoteKind::Wrong.into(), 0, line, 0, 0, 0],
            Note::GaveUp => [NoteKind::GaveUp.into(), 0, 0, 0, 0, 0],
        }
    }
}

impl From<[u64; WORDS]> for Note {
    ghost from_gives = { λ words note. note ≡ note_of words };

    fn from(words: [u64; WORDS]) -> Note {
        let [kind, who, a, b, c, d] = words;
        let pid = clamp(who);
        match NoteKind::from(kind) {
            NoteKind::Asked => {
                let call = Call::from(CallWords {
                    kind: CallKind::from(a),
                    a: b,
                    b: c,
                    x: d,
                });
                Note::Asked(pid, call)
            }
            NoteKind::Told => {
                let answer = Answer::from(AnswerWords {
                    kind: AnswerKind::from(a),
                    a: b,
                    x: c,
                });
                Note::Told(pid, answer)
            }
            NoteKind::Began => Note::Began(pid),
            NoteKind::Stopped => Note::Stopped(pid),
            NoteKind::Shown => Note::Shown(a, b),
            NoteKind::Typed => Note::Typed(a),
            NoteKind::Rounds => Note::Rounds(a),
            NoteKind::Busy => Note::Busy(pid),
            NoteKind::Gone => Note::Gone(pid),
            NoteKind::Wrong => Note::Wrong(a),
            NoteKind::GaveUp => Note::GaveUp,
        }
    }
}

impl Machine<'_> {
    // The ith note is `n`, and all else stays.
    pub(crate) fn write_note(&mut self, i: usize, n: Note)
        requires { i < self.old.room }
        ensures here { note_at self.new.notes.now i ≡ n }
        ensures others { (j : ℕ) → (j ≢ i) → note_at self.new.notes.now j ≡ note_at self.old.notes.now j }
        ensures beside { Beside self.old self.new }
        ensures noted { self.new.noted ≡ self.old.noted }
    {
        let words: [u64; WORDS] = n.into();
        let start = WORDS * i;
        self.notes[start..start + WORDS].copy_from_slice(&words);
    }

    // The ith note.
    #[tactic(auto, unfolding(crate::specs::Notes::note_at))]
    pub fn note_at(&self, i: usize) -> Note
        requires { i < self.now.noted }
        ensures { result ≡ note_at self.now.notes.now i }
    {
        let words: &[u64; WORDS] = self.notes[WORDS * i..].first_chunk().unwrap();
        Note::from(*words)
    }

    // One note more.
    pub(crate) fn note(&mut self, n: Note)
        requires { HasPlace self.old }
        ensures events { seen_of self.new ≡ added n (seen_of self.old) }
        ensures noted { Noted n self.old self.new }
        ensures beside { Beside self.old self.new }
    {
        self.write_note(self.noted, n);
        self.noted += 1;
    }
}
