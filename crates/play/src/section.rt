// A section of a script: what stands before a line `new`, or before the end.
ghost use Rattle.std.specs.Prelude.{◌≡◌, ℕ, slice_index};
ghost use Rattle.script.specs.Pages.{size};

use crate::printing::print_notes;
use heal::days;
use memory::{Machine, Plan, State, Store};
use script::{Lines, Page};
use std::ops::ControlFlow;

// The most days that there are.
const DAYS: u64 = 281474976710655;

// There wasn't room, or days, for more than the script's first lines.
#[derive(Clone, Copy, PartialEq, Eq)]
pub struct Short {
    pub line: u64,
}

// The days of a house that is new, as these lines say; then what was noted is printed. Handed back are the lines that another section
// is to be played from; or how many lines the script had.
pub fn play_section<'a>(
    lines: Lines<'a>,
    store: Store<'a>,
    page: &mut Page,
) -> Result<ControlFlow<u64, Lines<'a>>, Short>
    requires clean { (i : ℕ) → slice_index store.cells.now i ≡ 0 }
    ensures { size page.new ≡ size page.old }
{
    let mut machine = Machine::new(store, lines, Plan::new());
    days(&mut machine, DAYS);
    let line = machine.lines.number;
    print_notes(&machine, page).map_err(|_| Short { line })?;
    match machine.state {
        State::Ended => Ok(ControlFlow::Break(line)),
        State::Anew => Ok(ControlFlow::Continue(machine.lines)),
        State::Going | State::Full => Err(Short { line }),
    }
}
