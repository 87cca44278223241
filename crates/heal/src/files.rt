// The server of files: open, close, read, write, remove. Each looks at a few cells and decides; what is written is written at one moment.
ghost use Rattle.std.specs.Prelude.{◌≡◌, ◌+◌, ◌<◌};
ghost use Rattle.heal.specs.Journal.{viewed};
ghost use Rattle.heal.specs.Turn.{Able, cells};
ghost use Rattle.heal.specs.Deciding.{AtSweep, Decides, Finds};
ghost use Rattle.heal.specs.Files.{size_at, users_at, hand_at, word_at};
ghost use Rattle.heal.specs.Handles.{Holds, Lasts, Lowest, Uses};

use crate::decision::{Moment, NotDone, Refusal};
use crate::handle::{Held, Name};
use crate::server::Server;
use crate::users::Users;
use crate::{Answer, Call, Desk, Down, asks};

// Its cells. SIZE: for each name 0 if it's missing, else 1 + its length. USERS: for each name who has it open. HAND: for each
// program and handle what it's on. WORD: 256 for each name; scratch beyond the length.
const SIZE: u32 = 512;

const USERS: u32 = 576;

const HAND: u32 = 1024;

const WORD: u32 = 16384;

fn size_cell(name: Name) -> u32
    ensures { result ≡ size_at name.number }
{
    SIZE + name.number
}

// (a function of its own, since its clause names another definition)
fn users_cell(name: Name) -> u32
    ensures { result ≡ users_at name.number }
{
    USERS + name.number
}

// p and its handle stay two numbers: a call may name any handle, and what it's on is found at once.
fn handle_cell(p: u32, handle: u32) -> u32
    requires small { p < 64 }
    requires there { handle < 8 }
    ensures { result ≡ hand_at p handle }
{
    HAND + 8 * p + handle
}

fn word_cell(name: Name, index: u32) -> u32
    requires { index < 256 }
    ensures { result ≡ word_at name.number index }
{
    WORD + 256 * name.number + index
}

#[derive(Default, Drop)]
pub struct Files;

impl Server for Files {}

// The word of a file's size, where it's there.
fn size_word(length: u64) -> u64
    requires { length < 1000 }
    ensures { result ≡ length + 1 }
{
    1 + length
}

// How long a file is, or nothing where it's missing.
fn length_of<K: Desk>(k: &mut K, name: Name) -> Result<Option<u64>, Down>
    requires able { Able 1 (K.kern k.old) (K.seen k.old) }
    ensures { Finds 1 (K.kern k.old) (K.seen k.old) result (K.kern k.new) (K.seen k.new) (Lasts (cells (K.kern k.old) (size_at name.number))) }
{
    let size = asks::read(k, size_cell(name))?;
    Ok(size.checked_sub(1))
}

fn users_of<K: Desk>(k: &mut K, name: Name) -> Result<Users, Down>
    requires able { Able 1 (K.kern k.old) (K.seen k.old) }
    ensures { Finds 1 (K.kern k.old) (K.seen k.old) result (K.kern k.new) (K.seen k.new) (Uses (cells (K.kern k.old) (users_at name.number))) }
{
    let word = asks::read(k, users_cell(name))?;
    Ok(Users::from(word))
}

// What p's handle is on, or nothing.
fn find_held<K: Desk>(k: &mut K, p: u32, handle: u32) -> Result<Option<Held>, Down>
    requires able { Able 1 (K.kern k.old) (K.seen k.old) }
    requires one { (K.kern k.old).at ≡ 1 }
    requires small { p < 64 }
    ensures { Finds 1 (K.kern k.old) (K.seen k.old) result (K.kern k.new) (K.seen k.new) (Holds p handle (cells (K.kern k.old))) }
{
    if handle >= 8 {
        return Ok(None);
    }
    let word = asks::read(k, handle_cell(p, handle))?;
    Ok(Held::from_word(word))
}

// The lowest empty handle of p.
fn lowest_empty<K: Desk>(k: &mut K, p: u32) -> Result<Option<u32>, Down>
    requires able { Able 8 (K.kern k.old) (K.seen k.old) }
    requires one { (K.kern k.old).at ≡ 1 }
    requires small { p < 64 }
    ensures { Finds 8 (K.kern k.old) (K.seen k.old) result (K.kern k.new) (K.seen k.new) (Lowest p (cells (K.kern k.old))) }
{
    for handle in 0..8 {
        let word = asks::read(k, handle_cell(p, handle))?;
        if word == 0 {
            return Ok(Some(handle));
        }
    }
    Ok(None)
}

pub fn open<K: Desk>(k: &mut K, p: u32, name: u32, writes: bool) -> Result<Moment, NotDone>
    requires { AtSweep 10 p (Call.Open name writes) (K.kern k.old) (K.seen k.old) }
    ensures { Decides 10 p (Call.Open name writes) (K.kern k.old) (K.seen k.old) result (K.kern k.new) (K.seen k.new) }
{
    let name = Name::new(name).ok_or(Refusal::NoSuchName)?;
    let length = length_of(k, name)?;
    if length.is_none() && !writes {
        return Err(NotDone::Refused(Refusal::MissingFile));
    }
    let users = users_of(k, name)?.opened(writes).ok_or(Refusal::FileInUse)?;
    let handle = lowest_empty(k, p)?.ok_or(Refusal::NoHandleLeft)?;
    let held = Held { name, writes };
    let taken = (handle_cell(p, handle), held.into());
    let counted = (users_cell(name), users.word());
    // a file that's missing is there from then on, empty
    if length.is_none() {
        return Ok(Moment::new(
            Answer::Handle(handle),
            &[taken, counted, (size_cell(name), size_word(0))],
        ));
    }
    Ok(Moment::new(Answer::Handle(handle), &[taken, counted]))
}

pub fn close<K: Desk>(k: &mut K, p: u32, handle: u32) -> Result<Moment, NotDone>
    requires { AtSweep 2 p (Call.Close handle) (K.kern k.old) (K.seen k.old) }
    ensures { Decides 2 p (Call.Close handle) (K.kern k.old) (K.seen k.old) result (K.kern k.new) (K.seen k.new) }
{
    let held = find_held(k, p, handle)?.ok_or(Refusal::NoSuchHandle)?;
    let users = users_of(k, held.name)?.closed(held.writes);
    Ok(Moment::new(
        Answer::Done,
        &[
            (handle_cell(p, handle), 0),
            (users_cell(held.name), users.word()),
        ],
    ))
}

pub fn read<K: Desk>(k: &mut K, p: u32, handle: u32, index: u32) -> Result<Moment, NotDone>
    requires { AtSweep 3 p (Call.Read handle index) (K.kern k.old) (K.seen k.old) }
    ensures { Decides 3 p (Call.Read handle index) (K.kern k.old) (K.seen k.old) result (K.kern k.new) (K.seen k.new) }
{
    let held = find_held(k, p, handle)?.ok_or(Refusal::NoSuchHandle)?;
    let length = length_of(k, held.name)?.ok_or(Refusal::PastEnd)?;
    if length <= index as u64 {
        return Err(NotDone::Refused(Refusal::PastEnd));
    }
    let word = asks::read(k, word_cell(held.name, index))?;
    Ok(Moment::new(Answer::Word(word), &[]))
}

pub fn write<K: Desk>(
    k: &mut K,
    p: u32,
    handle: u32,
    index: u32,
    word: u64,
) -> Result<Moment, NotDone>
    requires { AtSweep 2 p (Call.Write handle index word) (K.kern k.old) (K.seen k.old) }
    ensures { Decides 2 p (Call.Write handle index word) (K.kern k.old) (K.seen k.old) result (K.kern k.new) (K.seen k.new) }
{
    let held = find_held(k, p, handle)?.ok_or(Refusal::NoSuchHandle)?;
    if !held.writes {
        return Err(NotDone::Refused(Refusal::ReadOnly));
    }
    let length = length_of(k, held.name)?.ok_or(Refusal::PastEnd)?;
    if index >= 256 || length < index as u64 {
        return Err(NotDone::Refused(Refusal::PastEnd));
    }
    // a word that is written at the length makes the file longer
    let grown = length.max(index as u64 + 1);
    Ok(Moment::new(
        Answer::Done,
        &[
            (word_cell(held.name, index), word),
            (size_cell(held.name), size_word(grown)),
        ],
    ))
}

pub fn remove<K: Desk>(k: &mut K, p: u32, name: u32) -> Result<Moment, NotDone>
    requires { AtSweep 2 p (Call.Remove name) (K.kern k.old) (K.seen k.old) }
    ensures { Decides 2 p (Call.Remove name) (K.kern k.old) (K.seen k.old) result (K.kern k.new) (K.seen k.new) }
{
    let name = Name::new(name).ok_or(Refusal::NoSuchName)?;
    if length_of(k, name)?.is_none() {
        return Err(NotDone::Refused(Refusal::MissingFile));
    }
    match users_of(k, name)? {
        Users::Nobody => Ok(Moment::new(Answer::Done, &[(size_cell(name), 0)])),
        Users::Writer | Users::Readers(_) => Err(NotDone::Refused(Refusal::FileInUse)),
    }
}
