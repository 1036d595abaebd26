// In a file of its own, as a ghost field would bring specs/Moves, which names this type, into its declaration.
ghost use Rattle.std.specs.Prelude.{◌≤◌};

use crate::Phase;

// What a call is judged by of the station that it names: its phase, whether it is out of service, and how many stations its scan result shows.
#[derive(Clone, Copy)]
pub struct Standing {
    pub phase: Phase,
    pub out: bool,
    pub shown: usize,
    ghost few: { shown ≤ 32 },
}
