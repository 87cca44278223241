// A script is played by the house's own days, on memory that is lent, and what happens is printed.
#![tactic(auto)]

ghost use Rattle.std.specs.Prelude.{◌≡◌, ◌<◌, ◌≤◌, true, false, length, IfSome};
ghost use Rattle.script.specs.Pages.{size};

mod printing;
mod section;

use memory::{Store, clear};
use script::{Lines, Page};
use section::{Short, play_section};
use std::ops::ControlFlow;

// A machine's cells; and the fewest things that there must be room to note, each in eight words.
const CELLS: usize = 73728;

const FEWEST: usize = 8192;

const LEAST: usize = CELLS + 8 * FEWEST;

// Not an enum: C and Rust read its fields.
#[repr(C)]
#[derive(Clone, Copy)]
pub struct Played {
    // so many bytes were written
    pub printed: usize,
    // the line of the script that was reached
    pub line: u64,
    // all of the script was played, and all that happened was printed
    pub whole: bool,
}

// Where the next section begins, if the script was read on, as it always is. (The days promise nothing of lines, so it's asked for here.)
fn next_lines<'a>(lines: Lines<'a>, read: Lines) -> Option<Lines<'a>>
    ensures { IfSome result (λ next. (next.text.now ≡ lines.entry.text.now) × (lines.entry.at < next.at)) }
{
    if lines.at < read.at && read.at <= lines.text.len() {
        return Some(Lines {
            text: lines.text,
            at: read.at,
            number: read.number,
        });
    }
    None
}

// One section after the other, as far as there's room; handed back is how many lines the script had.
fn play_sections(script: &[u8], memory: &mut [u64], page: &mut Page) -> Result<u64, Short>
    requires { 73728 ≤ length memory.old }
    ensures { size page.new ≡ size page.old }
{
    let room = (memory.len() - CELLS) / 8;
    let mut lines = Lines::new(script);
    loop {
        let (cells, rest) = memory.split_at_mut(CELLS);
        let (screen, rest) = rest.split_at_mut(room);
        let (keys, notes) = rest.split_at_mut(room);
        clear(cells);
        let store = Store {
            cells,
            screen,
            keys,
            notes,
        };
        match play_section(lines, store, page)? {
            ControlFlow::Break(line) => return Ok(line),
            ControlFlow::Continue(read) => {
                lines = next_lines(lines, read).ok_or(Short { line: read.number })?;
            }
        }
    }
}

// Plays the script, and writes what happens to `out`. Of `memory` a machine's cells are the first 73,728 words; the rest is for the
// screen, the keys and the notes of a section, eight words for each thing that happens.
pub fn play(script: &[u8], memory: &mut [u64], out: &mut [u8]) -> Played
    ensures fits { result.printed ≤ length out.old }
    ensures short { length memory.old < 139264 → (result.printed ≡ 0) × (result.whole ≡ false) }
{
    let mut page = Page::new(out);
    let reached = if memory.len() < LEAST {
        Err(Short { line: 0 })
    } else {
        play_sections(script, memory, &mut page)
    };
    let printed = page.len();
    match reached {
        Ok(line) => Played {
            printed,
            line,
            whole: true,
        },
        Err(Short { line }) => Played {
            printed,
            line,
            whole: false,
        },
    }
}
