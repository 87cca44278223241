// Asks of the kernel by a server that keeps what holds of all: each with what it changes of what is meant.
// What holds stands in each clause: no field of a struct round the kernel can keep it, since `Inv` holds a state and isn't a bare fact.
// So the kernel and the program (by the number that the kernel's traits speak of) are passed on as two parameters.
// That the number is below 64 stands in clauses too: it comes from `AtSweep`, and is handed back to the kernel as it came.
ghost use Rattle.std.specs.Prelude.{◌≡◌, ℕ, ◌+◌, ◌-◌, ◌<◌};
ghost use Rattle.heal.specs.Kernel.{kept, taken, first_of, key_at, cells_of};
ghost use Rattle.heal.specs.Journal.{viewed, kept_all, HasCell, Within};
ghost use Rattle.heal.specs.Invariant.{sweep, done, owed, owner_in, shown_in};
ghost use Rattle.heal.specs.Deciding.{Standing, Finds, Onscreen};
ghost use Rattle.heal.specs.Turn.{Able, Did, Exact, Keeps, cells, Told};

use crate::transaction::Transaction;
use crate::{Answer, Call, Desk, Down, Msg, journal};

// what a cell means
pub fn read<K: Desk>(k: &mut K, cell: u32) -> Result<u64, Down>
    requires able { Able 1 (K.kern k.old) (K.seen k.old) }
    requires within { HasCell cell (K.kern k.old) }
    ensures { Finds 1 (K.kern k.old) (K.seen k.old) result (K.kern k.new) (K.seen k.new) (λ (x : ℕ). x ≡ cells (K.kern k.old) cell) }
{
    journal::get(k, cell)
}

pub fn write<K: Desk>(k: &mut K, cell: u32, x: u64) -> Result<(), Down>
    requires able { Able 1 (K.kern k.old) (K.seen k.old) }
    requires small { cell < 512 }
    requires keeps { Keeps (viewed (K.kern k.old)) (K.seen k.old) (kept cell x (viewed (K.kern k.old))) (K.seen k.old) }
    ensures { Did 1 (K.kern k.old) (K.seen k.old) result (K.kern k.new) (K.seen k.new) (λ _. Exact (kept cell x (viewed (K.kern k.old))) (K.seen k.old) (K.kern k.new) (K.seen k.new)) }
{
    journal::put(k, cell, x)
}

pub fn take<K: Desk>(k: &mut K) -> Result<(), Down>
    requires able { Able 1 (K.kern k.old) (K.seen k.old) }
    requires keeps { Keeps (viewed (K.kern k.old)) (K.seen k.old) (taken (viewed (K.kern k.old))) (K.seen k.old) }
    ensures { Did 1 (K.kern k.old) (K.seen k.old) result (K.kern k.new) (K.seen k.new) (λ _. Exact (taken (viewed (K.kern k.old))) (K.seen k.old) (K.kern k.new) (K.seen k.new)) }
{
    k.take()
}

// all of a transaction in one moment
pub fn commit<K: Desk>(k: &mut K, t: Transaction) -> Result<(), Down>
    requires able { Able 50 (K.kern k.old) (K.seen k.old) }
    requires within { Within (cells_of (K.kern k.old).at) t }
    requires keeps { Keeps (viewed (K.kern k.old)) (K.seen k.old) (kept_all t (viewed (K.kern k.old))) (K.seen k.old) }
    ensures { Did 50 (K.kern k.old) (K.seen k.old) result (K.kern k.new) (K.seen k.new) (λ _. Exact (kept_all t (viewed (K.kern k.old))) (K.seen k.old) (K.kern k.new) (K.seen k.new)) }
{
    t.commit(k)
}

// the answer that is owed is told to p
pub fn answer<K: Desk>(k: &mut K, p: u32, number: u64, a: Answer) -> Result<(), Down>
    requires able { Able 1 (K.kern k.old) (K.seen k.old) }
    requires owes { sweep (cells (K.kern k.old)) ≡ 64 + p }
    requires which { number ≡ done (cells (K.kern k.old)) p - 1 }
    requires what { a ≡ owed (cells (K.kern k.old)) }
    ensures { Did 1 (K.kern k.old) (K.seen k.old) result (K.kern k.new) (K.seen k.new) (λ _. Told p number (K.kern k.old) (K.kern k.new)) }
{
    k.answer(p, number, a)
}

pub fn peek<K: Desk>(k: &mut K) -> Result<Option<Msg>, Down>
    requires able { Able 1 (K.kern k.old) (K.seen k.old) }
    ensures { Finds 1 (K.kern k.old) (K.seen k.old) result (K.kern k.new) (K.seen k.new) (λ m. m ≡ first_of ((K.kern k.old).box (K.kern k.old).at)) }
{
    k.peek()
}

// the key that was struck as the nth
pub fn key<K: Desk>(k: &mut K, n: u64) -> Result<Option<u64>, Down>
    requires able { Able 1 (K.kern k.old) (K.seen k.old) }
    requires two { (K.kern k.old).at ≡ 2 }
    ensures { Finds 1 (K.kern k.old) (K.seen k.old) result (K.kern k.new) (K.seen k.new) (λ o. o ≡ key_at n (K.kern k.old).keys) }
{
    k.key(n)
}

// the word of who says it, at the sweep, at the next place; there already, nothing happens
pub fn show<K: Desk>(k: &mut K, p: u32, place: u64, x: u64) -> Result<(), Down>
    requires able { Able 1 (K.kern k.old) (K.seen k.old) }
    requires two { (K.kern k.old).at ≡ 2 }
    requires stand { Standing p (Call.Say x) (viewed (K.kern k.old)) }
    requires own { owner_in (cells (K.kern k.old)) ≡ p }
    requires which { place ≡ shown_in (cells (K.kern k.old)) }
    ensures { Did 1 (K.kern k.old) (K.seen k.old) result (K.kern k.new) (K.seen k.new) (λ _. Onscreen p place x (viewed (K.kern k.new)) × ((K.kern k.new).box ≡ (K.kern k.old).box)) }
{
    k.show(place, x)
}
