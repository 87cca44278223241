// Plays the script that comes on standard input, and writes what happens to standard output.
#![tactic(auto)]

ghost use Rattle.std.specs.Prelude.{◌≤◌, length, IfOk};

use std::io::{self, Read, Write};
use std::process::ExitCode;
use thiserror::Error;

// The longest script; one byte more tells whether it's longer.
const LONGEST: usize = 1048576;

const SCRIPT: usize = 1048577;
// The cells, and room for 32,768 events beside what one turn may bring.
const MEMORY: usize = 368640;

const OUT: usize = 2097152;

// Why not all of the script was played.
#[derive(Debug, Drop, Error)]
enum Fault {
    #[error("the script is longer than 1 MiB")]
    TooLong,
    #[error("line {0}: there's no room for what happens from here on (32,768 events between two lines 'new', 2 MiB printed)")]
    NoRoom(u64),
    #[error("{0}")]
    Io(#[from] io::Error),
}

// Reads until the end of the input or of the buffer, and hands back how many bytes that were.
fn fill(input: &mut impl Read, buf: &mut [u8]) -> io::Result<usize>
    ensures { IfOk result (λ n. n ≤ length buf.old) }
{
    let longest = buf.len();
    let mut rest = buf;
    while !rest.is_empty() {
        let got = input.read(rest)?;
        if got == 0 {
            break;
        }
        rest = &mut rest[got..];
    }
    Ok(longest - rest.len())
}

// Plays what is read, in memory that is lent.
fn play_input(
    rt: &HostRuntime,
    script: &mut [u8],
    memory: &mut [u64],
    out: &mut [u8],
) -> Result<(), Fault> {
    let n = fill(&mut rt.stdin(), script)?;
    if n > LONGEST {
        return Err(Fault::TooLong);
    }
    let played = play::play(&script[..n], memory, out);
    rt.stdout().write_all(&out[..played.printed])?;
    if !played.whole {
        return Err(Fault::NoRoom(played.line));
    }
    Ok(())
}

fn main(rt: HostRuntime) -> ExitCode {
    let mut script = [0u8; SCRIPT];
    let mut memory = [0u64; MEMORY];
    let mut out = [0u8; OUT];
    match play_input(&rt, &mut script, &mut memory, &mut out) {
        Ok(()) => ExitCode::SUCCESS,
        Err(fault) => {
            let _ = eprintln!(rt; "station: {fault}");
            ExitCode::FAILURE
        }
    }
}
