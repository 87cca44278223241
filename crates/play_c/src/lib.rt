// What other languages call: the library's function, under the name and with the clauses that it has there.
// (A crate is a library or a static library, so it can't be exported where it's written.)
#![tactic(auto)]

ghost use Rattle.std.specs.Prelude.{◌≡◌, ◌<◌, ◌≤◌, false, length};

use play::Played;

#[unsafe(no_mangle)]
pub extern "C" fn play(script: &[u8], memory: &mut [u64], out: &mut [u8]) -> Played
    ensures fits { result.printed ≤ length out.old }
    ensures short { length memory.old < 139264 → (result.printed ≡ 0) × (result.whole ≡ false) }
{
    play::play(script, memory, out)
}
