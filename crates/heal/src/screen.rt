// The server of the desk, with screen and keys: take, leave, say, hear.
ghost use Rattle.std.specs.Prelude.{◌≡◌, ◌<◌};
ghost use Rattle.heal.specs.Journal.{viewed};
ghost use Rattle.heal.specs.Invariant.{owner_in};
ghost use Rattle.heal.specs.Turn.{Able, Did, Exact, cells};
ghost use Rattle.heal.specs.Deciding.{AtSweep, Decides, Finds, OwnedBy, OwnDesk};

use crate::decision::{Moment, NotDone, Refusal};
use crate::server::Server;
use crate::{Answer, Call, Desk, Down, asks};

// Its cells: whose the desk is, how many words were shown, how many keys were heard.
const OWNER: u32 = 52;

const SHOWN: u32 = 53;

const HEARD: u32 = 54;

// in OWNER: the desk is free
const NOBODY: u64 = 0;

#[derive(Default, Drop)]
pub struct Screen;

impl Server for Screen {}

// whose the desk is
fn owner<K: Desk>(k: &mut K) -> Result<Option<u64>, Down>
    requires able { Able 1 (K.kern k.old) (K.seen k.old) }
    ensures { Finds 1 (K.kern k.old) (K.seen k.old) result (K.kern k.new) (K.seen k.new) (λ o. OwnedBy o (owner_in (cells (K.kern k.old)))) }
{
    let owner = asks::read(k, OWNER)?;
    Ok((owner != NOBODY).then_some(owner))
}

// Refused, unless the desk is p's own.
fn ensure_owner<K: Desk>(k: &mut K, p: u32) -> Result<(), NotDone>
    requires able { Able 1 (K.kern k.old) (K.seen k.old) }
    requires low { 0 < p }
    ensures { OwnDesk p (K.kern k.old) (K.seen k.old) result (K.kern k.new) (K.seen k.new) }
{
    if owner(k)? != Some(p as u64) {
        return Err(NotDone::Refused(Refusal::DeskNotOwn));
    }
    Ok(())
}

pub fn take<K: Desk>(k: &mut K, p: u32) -> Result<Moment, NotDone>
    requires { AtSweep 1 p (Call.Take) (K.kern k.old) (K.seen k.old) }
    ensures { Decides 1 p (Call.Take) (K.kern k.old) (K.seen k.old) result (K.kern k.new) (K.seen k.new) }
{
    match owner(k)? {
        Some(owner) if owner != p as u64 => Err(NotDone::Refused(Refusal::DeskNotOwn)),
        _ => Ok(Moment::new(Answer::Done, &[(OWNER, p as u64)])),
    }
}

pub fn leave<K: Desk>(k: &mut K, p: u32) -> Result<Moment, NotDone>
    requires { AtSweep 1 p (Call.Leave) (K.kern k.old) (K.seen k.old) }
    ensures { Decides 1 p (Call.Leave) (K.kern k.old) (K.seen k.old) result (K.kern k.new) (K.seen k.new) }
{
    ensure_owner(k, p)?;
    Ok(Moment::new(Answer::Done, &[(OWNER, NOBODY)]))
}

// The moment is the showing itself; the cells count the word afterwards. Fallen over in between, it's shown again at the same
// place, which does nothing.
pub fn say<K: Desk>(k: &mut K, p: u32, x: u64) -> Result<Moment, NotDone>
    requires { AtSweep 3 p (Call.Say x) (K.kern k.old) (K.seen k.old) }
    ensures { Decides 3 p (Call.Say x) (K.kern k.old) (K.seen k.old) result (K.kern k.new) (K.seen k.new) }
{
    ensure_owner(k, p)?;
    let place = asks::read(k, SHOWN)?;
    asks::show(k, p, place, x)?;
    Ok(Moment::new(Answer::Done, &[(SHOWN, place + 1)]))
}

pub fn hear<K: Desk>(k: &mut K, p: u32) -> Result<Moment, NotDone>
    requires { AtSweep 3 p (Call.Hear) (K.kern k.old) (K.seen k.old) }
    ensures { Decides 3 p (Call.Hear) (K.kern k.old) (K.seen k.old) result (K.kern k.new) (K.seen k.new) }
{
    ensure_owner(k, p)?;
    let heard = asks::read(k, HEARD)?;
    let word = asks::key(k, heard)?.ok_or(NotDone::Waits)?;
    Ok(Moment::new(Answer::Word(word), &[(HEARD, heard + 1)]))
}
