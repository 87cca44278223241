// The struct whose fields keep a promise. What it means stands in specs/, what it does in the other modules.
ghost use Rattle.std.specs.Prelude.{◌≡◌, ◌+◌, ◌*◌, ◌<◌, ◌≤◌, length};

use super::{LentWords, Mailbox, Plan, Program, State};
use script::Lines;

// There's always room to note what is still asked in this turn.
#[derive(Drop)]
pub struct Machine<'a> {
    // 4,096 of server 0, then 65,536 of server 1, then 4,096 of server 2
    pub cells: &'a mut [u64],
    // of each server
    pub mailboxes: [Mailbox; 3],
    pub programs: [Program; 64],
    pub screen: LentWords<'a>,
    pub keys: LentWords<'a>,
    // six words for each note, of which `noted` are there: what is lent comes from C as words, of which
    // six needn't divide the count; the clauses count notes by their place in the words
    pub notes: &'a mut [u64],
    pub room: usize,
    pub noted: usize,
    pub at: u32,
    pub left: u32,
    pub fell: bool,
    pub plan: Plan,
    pub lines: Lines<'a>,
    // which server is seated next; at 0 a round begins
    pub turn: u32,
    // rounds still to run for the last line
    pub resting: u64,
    // where rounds run until nothing changes any more: how many have
    pub settling: Option<u64>,
    // Of each server: in its last turn it didn't fall and changed nothing but cells, and no message or key has come for it since.
    // It stands beside the mailboxes, since the kernel that is meant has no part in it.
    pub calm: [bool; 3],
    // nought if the cells of the server that was seated last are as they were then
    pub sum: u64,
    pub state: State,
    ghost seated: { at < 3 },
    ghost sizes: { 73728 ≤ length cells.now },
    ghost places: { (6 * room ≤ length notes.now) × (room ≤ length screen.words.now) × (room ≤ length keys.words.now) },
    ghost spare: { (noted + left ≤ room) × (left ≤ 4096) × (screen.len ≤ noted) × (keys.len ≤ noted) },
}
