// The answers of all calls (document 01, section 6): `Ok` is Done, with what it gives; `Err` has the refusal. A call inside
// says why with a `Refused`, which has the fault behind a BadTree; the public call gives the `Refusal` alone.
#![tactic(auto)]

ghost use Rattle.std.specs.Prelude.{◌≡◌};
ghost use Rattle.call_answers.specs.Answer.{refusal_of, faulty, number_of};

use row::Fault;

// Why a call is refused, in the order and with the numbers of the table in document 01, section 6.
#[derive(Clone, Copy, PartialEq, Eq, Debug)]
pub enum Refusal {
    // Length not 1 to 65,536 whole pages, or pages in use above that.
    BadPool = 1,
    // Something that was read is not as section 3 asks; nothing was stored.
    BadTree,
    // Active list over 4096 or not strictly rising; claim with no current transaction, or 0.
    BadSnapshot,
    // Status list over 65,536 entries, not strictly rising, or with a state that is not 1 to 3.
    BadStatuses,
    // Data over 4051 bytes.
    BadData,
    // Insert sees a version of the key.
    Duplicate,
    // Claim's test holds: another transaction changed the key after the snapshot.
    Conflict,
    // Nothing visible to find, stamp or claim.
    Absent,
    // An insertion overfills a leaf, and no cut gives two sides that fit a page.
    Undividable,
    // More pages are needed than are not in use.
    NoPages,
    // The root must grow from 4 levels.
    TooDeep,
    // The listing is longer than the output.
    Short,
}

// The number by which C knows the refusal; 0 is Done.
impl From<Refusal> for u8 {
    ghost from_gives = { λ r n. n ≡ number_of r };

    fn from(r: Refusal) -> u8 {
        match r {
            Refusal::BadPool => 1,
            Refusal::BadTree => 2,
            Refusal::BadSnapshot => 3,
            Refusal::BadStatuses => 4,
            Refusal::BadData => 5,
            Refusal::Duplicate => 6,
            Refusal::Conflict => 7,
            Refusal::Absent => 8,
            Refusal::Undividable => 9,
            Refusal::NoPages => 10,
            Refusal::TooDeep => 11,
            Refusal::Short => 12,
        }
    }
}

// A refusal, and for a BadTree what was met and where.
#[derive(Clone, Copy, PartialEq, Eq, Debug)]
pub struct Refused {
    pub refusal: Refusal,
    pub fault: Option<Fault>,
}

// A refusal that no byte of the tree is behind.
impl From<Refusal> for Refused {
    ghost from_gives = { λ r e. e ≡ refusal_of r };

    fn from(refusal: Refusal) -> Refused {
        Refused {
            refusal,
            fault: None,
        }
    }
}

// BadTree, with what was met.
impl From<Fault> for Refused {
    ghost from_gives = { λ f e. e ≡ faulty f };

    fn from(fault: Fault) -> Refused {
        Refused {
            refusal: Refusal::BadTree,
            fault: Some(fault),
        }
    }
}

// The public answer: the fault is dropped.
impl From<Refused> for Refusal {
    ghost from_gives = { λ r e. e ≡ r.refusal };

    fn from(refused: Refused) -> Refusal {
        refused.refusal
    }
}
