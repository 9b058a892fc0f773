// What vacuum does to one version (document 01, section 5; vacuum.rs).
ghost use Rattle.std.specs.Prelude.{◌≡◌};
ghost use Rattle.mvcc.specs.Snapshot.{lookup};
ghost use Rattle.mvcc.specs.Steps.Vacuum.{stamped_fate};
ghost use Rattle.mvcc.specs.Vacuum.{fate};

use crate::JudgedStatuses;

// Dropped, kept with its stamp cleared, or kept as it is.
#[derive(Clone, Copy, PartialEq, Eq, Debug)]
pub enum Fate {
    Dropped,
    Cleared,
    Same,
}

// Of a version by a creator that is not aborted, with the deleter's state looked up once.
fn stamped_fate(bound: u64, d: u64, state: u8) -> Fate
    ensures { result ≡ stamped_fate bound d state }
{
    if state == 3 {
        return Fate::Cleared;
    }
    if state != 2 {
        return Fate::Same;
    }
    if d < bound {
        return Fate::Dropped;
    }
    Fate::Same
}

impl<'a> JudgedStatuses<'a> {
    // What vacuum at that bound does to a version of that creator and stamp.
    pub fn fate_of(&self, bound: u64, creator: u64, stamp: Option<u64>) -> Fate
        ensures { result ≡ fate (lookup self.now) bound creator stamp }
    {
        if self.state_of(creator) == 3 {
            return Fate::Dropped;
        }
        match stamp {
            Some(d) => stamped_fate(bound, d, self.state_of(d)),
            None => Fate::Same,
        }
    }
}
