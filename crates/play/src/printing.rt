// What was noted, as lines of text.
ghost use Rattle.std.specs.Prelude.{◌≡◌};
ghost use Rattle.script.specs.Pages.{size, written, Printed};
ghost use Rattle.play.specs.Notes.{report_of, note_text, PrintedNotes};

use memory::{Machine, Note};
use script::{Full, Page, Report};

// What is printed of a note: what programs ask, keys and rounds aren't.
fn report_of(n: Note) -> Option<Report>
    ensures { result ≡ report_of n }
{
    match n {
        Note::Told(pid, answer) => Some(Report::Told(pid, answer)),
        Note::Shown(place, x) => Some(Report::Shown(place, x)),
        Note::Began(pid) => Some(Report::Began(pid)),
        Note::Stopped(pid) => Some(Report::Stopped(pid)),
        Note::Busy(pid) => Some(Report::Busy(pid)),
        Note::Gone(pid) => Some(Report::Gone(pid)),
        Note::Wrong(line) => Some(Report::Wrong(line)),
        Note::GaveUp => Some(Report::GaveUp),
        Note::Asked(_, _) | Note::Typed(_) | Note::Rounds(_) => None,
    }
}

// A note's line, or nothing.
fn print_note(n: Note, page: &mut Page) -> Result<(), Full>
    ensures size { size page.new ≡ size page.old }
    ensures printed { Printed (size page.old) (written page.old) (note_text n) (written page.new) result }
{
    match report_of(n) {
        None => Ok(()),
        Some(report) => page.print(report),
    }
}

// All notes in their order, as far as there's room.
#[tactic(auto, unfolding(crate::specs::Notes::notes_text))]
pub fn print_notes(machine: &Machine, page: &mut Page) -> Result<(), Full>
    ensures size { size page.new ≡ size page.old }
    ensures printed { PrintedNotes (size page.old) (written page.old) machine.now.notes.now machine.now.noted (written page.new) result }
{
    // by index: `note_at` makes a note of words, and its clause and that of what is printed both count by it
    for i in 0..machine.noted {
        print_note(machine.note_at(i), page)?;
    }
    Ok(())
}
