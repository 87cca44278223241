// A server. What it knows is in its cells and its box, so there's nothing in it to lose when it falls.
ghost use Rattle.std.specs.Prelude.{is_ok};
ghost use Rattle.heal.specs.Turn.{TurnStarts, Turned};

use crate::{Desk, Down, slots};

pub trait Server: Default {
    fn new() -> Self {
        Self::default()
    }

    fn turn<K: Desk>(&mut self, k: &mut K) -> Result<(), Down>
        requires { TurnStarts (K.kern k.old) (K.seen k.old) }
        ensures { Turned (K.kern k.old) (K.seen k.old) (is_ok result) (K.kern k.new) (K.seen k.new) }
    {
        slots::turn(k)
    }
}
