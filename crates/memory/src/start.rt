// A machine as it starts.
ghost use Rattle.std.specs.Prelude.{◌≡◌, ℕ, ◌≤◌, [], length, slice_index};
ghost use Rattle.heal.specs.Kernel.{AtStart};
ghost use Rattle.memory.specs.declared.State.TheVariants.{Going};
ghost use Rattle.memory.specs.Memory.{kern_of, seen_of};

use crate::{LentWords, Machine, Mailbox, Plan, Program, State};
use script::Lines;

// The memory that a machine is lent.
#[derive(Drop)]
pub struct Store<'a> {
    // 4,096 of server 0, then 65,536 of server 1, then 4,096 of server 2
    pub cells: &'a mut [u64],
    pub screen: &'a mut [u64],
    pub keys: &'a mut [u64],
    // six words for each note
    pub notes: &'a mut [u64],
    ghost enough: { 73728 ≤ length cells.now },
}

// Each cell is nought.
pub fn clear(cells: &mut [u64])
    ensures { (i : ℕ) → slice_index cells.new i ≡ 0 }
{
    cells.fill(0);
}

impl<'a> Machine<'a> {
    // As it starts: program 1 runs, and the next line of the script is the first of these. There's room for as many notes as the
    // screen, the keys and the notes have places for.
    pub fn new(store: Store<'a>, lines: Lines<'a>, plan: Plan) -> Machine<'a>
        requires clean { (i : ℕ) → slice_index store.cells.now i ≡ 0 }
        ensures starts { AtStart (kern_of result) }
        ensures unseen { seen_of result ≡ [] }
        ensures plan { result.plan ≡ plan }
        ensures lines { result.lines ≡ lines.entry }
        ensures going { result.state ≡ Going }
    {
        let Store {
            cells,
            screen,
            keys,
            notes,
        } = store;
        let room = (notes.len() / 6).min(screen.len()).min(keys.len());
        let rests = Program {
            runs: false,
            pending: None,
            number: 0,
        };
        let mut programs = [rests; 64];
        programs[1].runs = true;
        Machine {
            cells,
            mailboxes: [Mailbox::new(), Mailbox::new(), Mailbox::new()],
            programs,
            screen: LentWords {
                words: screen,
                len: 0,
            },
            keys: LentWords {
                words: keys,
                len: 0,
            },
            notes,
            room,
            noted: 0,
            at: 0,
            left: 0,
            fell: false,
            plan,
            lines,
            turn: 0,
            resting: 0,
            settling: None,
            calm: [false; 3],
            sum: 0,
            state: State::Going,
        }
    }
}
