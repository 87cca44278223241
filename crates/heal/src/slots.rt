// Calls are taken from the box into slots, one slot for each program; a sweep goes over the slots.
ghost use Rattle.std.specs.Prelude.{◌≡◌, ℕ, ◌+◌, ◌<◌, Bool, true, false, T, is_ok, if◌then◌else◌};
ghost use Rattle.heal.specs.Kernel.{kept};
ghost use Rattle.heal.specs.Journal.{viewed};
ghost use Rattle.heal.specs.Ready.{has, First};
ghost use Rattle.heal.specs.Deciding.{AtSweep, Decides, Finds, Finish, Pass, Chosen, Noted};
ghost use Rattle.heal.specs.Invariant.{last, done, sweep, ready, owed};
ghost use Rattle.heal.specs.Sweep.{sweep_of};
ghost use Rattle.heal.specs.Turn.{Able, Did, Exact, Keeps, Heads, cells, IsCalm, IsAt, BoxIsEmpty, MayAdvance, Advanced, Calm, Credits, Storing, Stored, Fewer, Drained, Finished, Stepped, Begun, Worked, TurnStarts, Turned, InSlot};

use crate::codec::{AnswerWords, CallKind, CallWords};
use crate::decision::{Moment, NotDone, Refusal};
use crate::ready::ReadySet;
use crate::sweep::Sweep;
use crate::transaction::Transaction;
use crate::{Answer, Call, Desk, Down, Msg, asks, files, journal, screen};

// Cells that every server has. SWEEP: where the sweep is, as a number. OWED_KIND, OWED_A and OWED_X: the words of the answer that is
// owed. READY: who has a slot that the sweep must look at. For each program: LAST, 1 + the number of the last call that was accepted;
// DONE, 1 + that of the last that had its moment; and the words of the call in the slot.
const SWEEP: u32 = 32;

const OWED_KIND: u32 = 33;

const OWED_A: u32 = 34;

const OWED_X: u32 = 35;

const READY: u32 = 36;

const LAST: u32 = 64;

const DONE: u32 = 128;

const CALL_KIND: u32 = 192;

const CALL_A: u32 = 256;

const CALL_B: u32 = 320;

const CALL_X: u32 = 384;

// A box holds at most a call of each of 63 programs, so after so many messages it's empty.
const MOST_MESSAGES: u32 = 70;

// In one turn a server may ask the kernel only so often.
const MOST_STEPS: u32 = 32;

fn find_sweep<K: Desk>(k: &mut K) -> Result<Sweep, Down>
    requires able { Able 1 (K.kern k.old) (K.seen k.old) }
    ensures { Finds 1 (K.kern k.old) (K.seen k.old) result (K.kern k.new) (K.seen k.new) (λ at. at ≡ sweep_of (sweep (cells (K.kern k.old)))) }
{
    let word = asks::read(k, SWEEP)?;
    Ok(Sweep::from(word))
}

// the sweep goes on to the first slot after p that it has to look at, or is over
fn advance<K: Desk>(k: &mut K, p: u32) -> Result<(), Down>
    requires able { Able 2 (K.kern k.old) (K.seen k.old) }
    requires small { p < 64 }
    requires keeps { MayAdvance p (K.kern k.old) (K.seen k.old) }
    ensures { Did 2 (K.kern k.old) (K.seen k.old) result (K.kern k.new) (K.seen k.new) (λ _. Advanced p (K.kern k.old) (K.seen k.old) (K.kern k.new) (K.seen k.new)) }
{
    let next = next_ready(k, p)?;
    asks::write(k, SWEEP, Sweep::from(next).into())
}

// the first slot after p that the sweep has to look at
fn next_ready<K: Desk>(k: &mut K, p: u32) -> Result<Option<u32>, Down>
    requires able { Able 1 (K.kern k.old) (K.seen k.old) }
    requires small { p < 64 }
    ensures { Finds 1 (K.kern k.old) (K.seen k.old) result (K.kern k.new) (K.seen k.new) (λ o. First (p + 1) (ready (cells (K.kern k.old))) o) }
{
    let bits = asks::read(k, READY)?;
    Ok(ReadySet { bits }.first_from(p + 1))
}

// p has a slot that the sweep must look at
fn add_ready<K: Desk>(k: &mut K, p: u32) -> Result<(), Down>
    requires able { Able 2 (K.kern k.old) (K.seen k.old) }
    requires small { p < 64 }
    ensures { Did 2 (K.kern k.old) (K.seen k.old) result (K.kern k.new) (K.seen k.new) (λ _. (m : ℕ) × T (has p m) × Exact (kept 36 m (viewed (K.kern k.old))) (K.seen k.old) (K.kern k.new) (K.seen k.new)) }
{
    let bits = asks::read(k, READY)?;
    asks::write(k, READY, ReadySet { bits }.insert(p).bits)
}

// the words of the call, and then the one put that gives them their meaning
fn store<K: Desk>(k: &mut K, p: u32, number: u64, call: Call) -> Result<(), Down>
    requires able { Able 5 (K.kern k.old) (K.seen k.old) }
    requires small { p < 64 }
    requires fits { number + 1 < 18446744073709551616 }
    requires storing { Storing p number call ((K.kern k.old).box (K.kern k.old).at) (cells (K.kern k.old)) }
    ensures { Did 5 (K.kern k.old) (K.seen k.old) result (K.kern k.new) (K.seen k.new) (λ _. Stored p number (K.kern k.old) (K.kern k.new)) }
{
    let w = CallWords::from(call);
    asks::write(k, CALL_KIND + p, w.kind.into())?;
    asks::write(k, CALL_A + p, w.a)?;
    asks::write(k, CALL_B + p, w.b)?;
    asks::write(k, CALL_X + p, w.x)?;
    asks::write(k, LAST + p, number + 1)
}

// the first message of the box goes into its slot
fn accept<K: Desk>(k: &mut K, p: u32, number: u64, call: Call) -> Result<(), Down>
    requires able { Able 9 (K.kern k.old) (K.seen k.old) }
    requires small { p < 64 }
    requires fits { number + 1 < 18446744073709551616 }
    requires head { Heads p number call (K.kern k.old) }
    requires calm { IsCalm (K.kern k.old) }
    ensures { Did 9 (K.kern k.old) (K.seen k.old) result (K.kern k.new) (K.seen k.new) (λ _. Fewer (K.kern k.old) (K.kern k.new)) }
{
    let last = asks::read(k, LAST + p)?;
    if number < last {
        return asks::take(k);
    }
    add_ready(k, p)?;
    store(k, p, number, call)?;
    asks::take(k)
}

// the answer that is owed is told, and the sweep goes on
fn tell<K: Desk>(k: &mut K, p: u32) -> Result<(), Down>
    requires able { Able 7 (K.kern k.old) (K.seen k.old) }
    requires owes { sweep (cells (K.kern k.old)) ≡ 64 + p }
    ensures { Did 7 (K.kern k.old) (K.seen k.old) result (K.kern k.new) (K.seen k.new) (λ _. Calm (K.kern k.old) (K.kern k.new)) }
{
    let a = owed_answer(k)?;
    let n = asks::read(k, DONE + p)?;
    asks::answer(k, p, n - 1, a)?;
    advance(k, p)
}

// the answer that is owed
fn owed_answer<K: Desk>(k: &mut K) -> Result<Answer, Down>
    requires able { Able 3 (K.kern k.old) (K.seen k.old) }
    ensures { Finds 3 (K.kern k.old) (K.seen k.old) result (K.kern k.new) (K.seen k.new) (λ a. a ≡ owed (cells (K.kern k.old))) }
{
    let kind = asks::read(k, OWED_KIND)?.into();
    let a = asks::read(k, OWED_A)?;
    let x = asks::read(k, OWED_X)?;
    Ok(AnswerWords { kind, a, x }.into())
}

// a word of an answer, if answers of its kind have it: each thing that isn't asked is one that can't be fallen over
fn write_if<K: Desk>(k: &mut K, cell: u32, x: u64, has: bool) -> Result<(), Down>
    requires able { Able 1 (K.kern k.old) (K.seen k.old) }
    requires small { cell < 512 }
    requires keeps { Keeps (viewed (K.kern k.old)) (K.seen k.old) (kept cell x (viewed (K.kern k.old))) (K.seen k.old) }
    ensures { Did 1 (K.kern k.old) (K.seen k.old) result (K.kern k.new) (K.seen k.new) (λ _. Exact (if has then kept cell x (viewed (K.kern k.old)) else viewed (K.kern k.old)) (K.seen k.old) (K.kern k.new) (K.seen k.new)) }
{
    if has {
        return asks::write(k, cell, x);
    }
    Ok(())
}

// the words of the answer that will be owed; only those that its kind has
fn write_owed<K: Desk>(k: &mut K, a: Answer) -> Result<(), Down>
    requires able { Able 3 (K.kern k.old) (K.seen k.old) }
    requires calm { IsCalm (K.kern k.old) }
    ensures { Did 3 (K.kern k.old) (K.seen k.old) result (K.kern k.new) (K.seen k.new) (λ _. Noted a (viewed (K.kern k.old)) (K.seen k.old) (viewed (K.kern k.new)) (K.seen k.new)) }
{
    let w = AnswerWords::from(a);
    asks::write(k, OWED_KIND, w.kind.into())?;
    write_if(k, OWED_A, w.a, w.kind.has_a())?;
    write_if(k, OWED_X, w.x, w.kind.has_x())
}

// the call at the sweep has its moment: the answer's words first, which nobody reads yet, and then all at once
fn finish<K: Desk>(k: &mut K, p: u32, moment: Moment) -> Result<(), Down>
    requires able { Able 54 (K.kern k.old) (K.seen k.old) }
    requires decided { (c : Call) × Chosen p c (Finish moment.answer moment.writes) (viewed (K.kern k.old)) (K.seen k.old) }
    ensures { Did 54 (K.kern k.old) (K.seen k.old) result (K.kern k.new) (K.seen k.new) (λ _. Finished p (K.kern k.old) (K.seen k.old) (K.kern k.new) (K.seen k.new)) }
{
    let Moment { answer, mut writes } = moment;
    write_owed(k, answer)?;
    let n = asks::read(k, LAST + p)?;
    writes.set(DONE + p, n);
    writes.set(SWEEP, Sweep::Owes(p).into());
    asks::commit(k, writes)
}

// the call at the sweep waits for others: the sweep goes on
fn pass<K: Desk>(k: &mut K, p: u32) -> Result<(), Down>
    requires able { Able 2 (K.kern k.old) (K.seen k.old) }
    requires waits { (c : Call) × Chosen p c Pass (viewed (K.kern k.old)) (K.seen k.old) }
    ensures { Did 2 (K.kern k.old) (K.seen k.old) result (K.kern k.new) (K.seen k.new) (λ _. Stepped (K.kern k.old) (K.seen k.old) (K.kern k.new) (K.seen k.new)) }
{
    advance(k, p)
}

// What the call at the sweep comes to. A match and no table of functions: each arm hands on the words of its own call.
fn decide<K: Desk>(k: &mut K, p: u32, call: Call) -> Result<Moment, NotDone>
    requires { AtSweep 10 p call (K.kern k.old) (K.seen k.old) }
    ensures { Decides 10 p call (K.kern k.old) (K.seen k.old) result (K.kern k.new) (K.seen k.new) }
{
    match call {
        Call::Open(n, w) => files::open(k, p, n, w),
        Call::Close(h) => files::close(k, p, h),
        Call::Read(h, i) => files::read(k, p, h, i),
        Call::Write(h, i, x) => files::write(k, p, h, i, x),
        Call::Remove(n) => files::remove(k, p, n),
        Call::Take => screen::take(k, p),
        Call::Leave => screen::leave(k, p),
        Call::Say(x) => screen::say(k, p, x),
        Call::Hear => screen::hear(k, p),
        // an arm each, as each is refused by itself
        Call::Spawn(_) => Err(NotDone::Refused(Refusal::NotBuilt)),
        Call::Exit(_) => Err(NotDone::Refused(Refusal::NotBuilt)),
        Call::Wait => Err(NotDone::Refused(Refusal::NotBuilt)),
        Call::Kill(_) => Err(NotDone::Refused(Refusal::NotBuilt)),
    }
}

// a call at the sweep: it's finished and told, or passed over
fn serve<K: Desk>(k: &mut K, p: u32, call: Call) -> Result<(), Down>
    requires { AtSweep 71 p call (K.kern k.old) (K.seen k.old) }
    ensures { Did 71 (K.kern k.old) (K.seen k.old) result (K.kern k.new) (K.seen k.new) (λ _. Stepped (K.kern k.old) (K.seen k.old) (K.kern k.new) (K.seen k.new)) }
{
    let moment = match decide(k, p, call) {
        Ok(moment) => moment,
        Err(NotDone::Refused(refusal)) => Moment::from(refusal),
        Err(NotDone::Waits) => return pass(k, p),
        Err(NotDone::Fell) => return Err(Down),
    };
    finish(k, p, moment)?;
    tell(k, p)
}

// there is no call in the slot
fn clear<K: Desk>(k: &mut K, p: u32) -> Result<(), Down>
    requires able { Able 4 (K.kern k.old) (K.seen k.old) }
    requires at { IsAt p (K.kern k.old) }
    requires vacant { done (cells (K.kern k.old)) p ≡ last (cells (K.kern k.old)) p }
    requires empty { BoxIsEmpty (K.kern k.old) }
    ensures { Did 4 (K.kern k.old) (K.seen k.old) result (K.kern k.new) (K.seen k.new) (λ _. Stepped (K.kern k.old) (K.seen k.old) (K.kern k.new) (K.seen k.new)) }
{
    let bits = asks::read(k, READY)?;
    asks::write(k, READY, ReadySet { bits }.remove(p).bits)?;
    advance(k, p)
}

// whether there's a call in p's slot
fn is_full<K: Desk>(k: &mut K, p: u32) -> Result<bool, Down>
    requires able { Able 2 (K.kern k.old) (K.seen k.old) }
    requires small { p < 64 }
    ensures { Did 2 (K.kern k.old) (K.seen k.old) result (K.kern k.new) (K.seen k.new) (λ (b : Bool). (b ≡ true → done (cells (K.kern k.old)) p < last (cells (K.kern k.old)) p) × (b ≡ false → done (cells (K.kern k.old)) p ≡ last (cells (K.kern k.old)) p) × Exact (viewed (K.kern k.old)) (K.seen k.old) (K.kern k.new) (K.seen k.new)) }
{
    let last = asks::read(k, LAST + p)?;
    let done = asks::read(k, DONE + p)?;
    Ok(done != last)
}

// the call in the slot is served, or there's none
fn step<K: Desk>(k: &mut K, p: u32) -> Result<(), Down>
    requires able { Able 89 (K.kern k.old) (K.seen k.old) }
    requires at { IsAt p (K.kern k.old) }
    requires empty { BoxIsEmpty (K.kern k.old) }
    ensures { Did 89 (K.kern k.old) (K.seen k.old) result (K.kern k.new) (K.seen k.new) (λ _. Stepped (K.kern k.old) (K.seen k.old) (K.kern k.new) (K.seen k.new)) }
{
    match slot(k, p)? {
        None => clear(k, p),
        Some(call) => serve(k, p, call),
    }
}

// a sweep begins, if the last is over
fn begin<K: Desk>(k: &mut K, at: Sweep) -> Result<(), Down>
    requires able { Able 2 (K.kern k.old) (K.seen k.old) }
    requires here { at ≡ sweep_of (sweep (cells (K.kern k.old))) }
    requires calm { IsCalm (K.kern k.old) }
    requires empty { BoxIsEmpty (K.kern k.old) }
    ensures { Did 2 (K.kern k.old) (K.seen k.old) result (K.kern k.new) (K.seen k.new) (λ _. Calm (K.kern k.old) (K.kern k.new) × (sweep (cells (K.kern k.old)) ≡ 0 → Begun (K.kern k.old) (K.seen k.old) (K.kern k.new) (K.seen k.new))) }
{
    match at {
        Sweep::Rests => advance(k, 0),
        Sweep::At(_) | Sweep::Owes(_) => Ok(()),
    }
}

// the whole box goes into the slots: at most a call of each program
fn drain<K: Desk>(k: &mut K) -> Result<(), Down>
    requires able { Able 700 (K.kern k.old) (K.seen k.old) }
    requires calm { IsCalm (K.kern k.old) }
    ensures { Did 700 (K.kern k.old) (K.seen k.old) result (K.kern k.new) (K.seen k.new) (λ _. Drained (K.kern k.old) (K.kern k.new)) }
{
    for _ in 0..MOST_MESSAGES {
        match asks::peek(k)? {
            Some(Msg::Asks { pid, number, call }) => accept(k, pid, number, call)?,
            // no server sends one
            Some(Msg::Tells { .. }) => return Ok(()),
            None => return Ok(()),
        }
    }
    Ok(())
}

// steps until the sweep rests, but not too many
fn work<K: Desk>(k: &mut K) -> Result<(), Down>
    requires able { Able 2880 (K.kern k.old) (K.seen k.old) }
    requires calm { IsCalm (K.kern k.old) }
    requires empty { BoxIsEmpty (K.kern k.old) }
    ensures { Did 2880 (K.kern k.old) (K.seen k.old) result (K.kern k.new) (K.seen k.new) (λ _. Worked 32 (K.kern k.old) (K.seen k.old) (K.kern k.new) (K.seen k.new)) }
{
    for _ in 0..MOST_STEPS {
        let Sweep::At(p) = find_sweep(k)? else {
            return Ok(());
        };
        step(k, p)?;
    }
    Ok(())
}

// what is owed is told; hands back where the sweep is then
fn settle<K: Desk>(k: &mut K) -> Result<Sweep, Down>
    requires able { Able 9 (K.kern k.old) (K.seen k.old) }
    ensures { Did 9 (K.kern k.old) (K.seen k.old) result (K.kern k.new) (K.seen k.new) (λ at. (at ≡ sweep_of (sweep (cells (K.kern k.new)))) × Calm (K.kern k.old) (K.kern k.new)) }
{
    let at = find_sweep(k)?;
    let Sweep::Owes(p) = at else {
        return Ok(at);
    };
    tell(k, p)?;
    find_sweep(k)
}

// The journal is settled: what is owed is told, the box is emptied, and steps of the sweep are made.
fn proceed<K: Desk>(k: &mut K) -> Result<(), Down>
    requires able { Able 3594 (K.kern k.old) (K.seen k.old) }
    ensures { Did 3594 (K.kern k.old) (K.seen k.old) result (K.kern k.new) (K.seen k.new) (λ _. Credits 32 (K.kern k.old) (K.seen k.old) (K.kern k.new) (K.seen k.new)) }
{
    let at = settle(k)?;
    drain(k)?;
    begin(k, at)?;
    work(k)?;
    let at = find_sweep(k)?;
    begin(k, at)
}

// A turn: what was left half written is written, and the server goes on.
pub fn turn<K: Desk>(k: &mut K) -> Result<(), Down>
    requires { TurnStarts (K.kern k.old) (K.seen k.old) }
    ensures { Turned (K.kern k.old) (K.seen k.old) (is_ok result) (K.kern k.new) (K.seen k.new) }
{
    journal::recover(k)?;
    proceed(k)
}

// a word of a call, if calls of its kind have it: each thing that isn't asked is one that can't be fallen over
fn read_if<K: Desk>(k: &mut K, cell: u32, has: bool) -> Result<u64, Down>
    requires able { Able 1 (K.kern k.old) (K.seen k.old) }
    requires small { cell < 512 }
    ensures { Finds 1 (K.kern k.old) (K.seen k.old) result (K.kern k.new) (K.seen k.new) (λ (x : ℕ). x ≡ (if has then cells (K.kern k.old) cell else 0)) }
{
    if has {
        return asks::read(k, cell);
    }
    Ok(0)
}

// the call in p's slot
fn slot<K: Desk>(k: &mut K, p: u32) -> Result<Option<Call>, Down>
    requires able { Able 6 (K.kern k.old) (K.seen k.old) }
    requires small { p < 64 }
    ensures { Finds 6 (K.kern k.old) (K.seen k.old) result (K.kern k.new) (K.seen k.new) (λ o. InSlot p (K.kern k.old) o) }
{
    if !is_full(k, p)? {
        return Ok(None);
    }
    let kind = CallKind::from(asks::read(k, CALL_KIND + p)?);
    let a = asks::read(k, CALL_A + p)?;
    let b = read_if(k, CALL_B + p, kind.has_b())?;
    let x = read_if(k, CALL_X + p, kind.has_x())?;
    Ok(Some(CallWords { kind, a, b, x }.into()))
}
