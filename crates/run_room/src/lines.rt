// The record: what a run carries of it by value.
ghost use Rattle.std.specs.Prelude.{◌≡◌, ◌<◌};
ghost use Rattle.run_room.specs.Layout.{record_start};

use crate::layout::{HEAD, SLOT, SLOTS};

// The record is in one of two slots. The fields from `known` on are still to be split off, from place `after` of it on;
// none if that is after its end.
#[derive(Clone, Copy)]
pub struct Line {
    pub side: usize,
    pub size: usize,
    pub known: usize,
    pub after: usize,
}

impl Line {
    // Returns the same record, split further.
    pub fn split(self, known: usize, after: usize) -> Line
        ensures { (result.side ≡ «self».side) × (result.size ≡ «self».size) × (result.known ≡ known) × (result.after ≡ after) }
    {
        Line {
            side: self.side,
            size: self.size,
            known: known,
            after: after,
        }
    }
}

// Returns the index of a record's first byte.
pub fn record_start(side: usize) -> usize
    requires { side < 2 }
    ensures { result ≡ record_start side }
{
    (SLOTS + side) * SLOT + HEAD
}
