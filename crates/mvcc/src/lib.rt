// Who sees what (document 01, section 4; mvcc.rs): a call is given a snapshot and a status list, judges each once, and then
// tests one version at a time; the judged ones are searched by halves. Module vacuum has section 5's removal rules.
#![tactic(auto)]

pub mod lists;
pub mod vacuum;

ghost use Rattle.std.specs.Prelude.{◌≡◌, true, None};
ghost use Rattle.mvcc.specs.Lists.{rising};
ghost use Rattle.mvcc.specs.Snapshot.{Snapshot, Statuses, lookup, creator_of, snapshot, statuses, plain_snapshot, no_statuses, judged_snapshot, judged_statuses};
ghost use Rattle.mvcc.specs.Steps.Snapshot.{StatusesJudged};
ghost use Rattle.mvcc.specs.Rules.{is_current, of_deleter, finished_with, hiding, visible, changed_after, intruding, conflicting, claim_conflicting};

use std::marker::Model;

// The snapshot of calls that are given none: this bound, and an empty active list.
pub const PLAIN_XMAX: u64 = 18446744073709551615;

// What a caller sees by: the bound, the transactions that were active below it, and its own, if any. Nothing is judged yet.
#[derive(Drop)]
pub struct Snapshot<'a> {
    pub xmax: u64,
    pub active: &'a [u64],
    pub current: Option<u64>,
}

impl<'a> Model for Snapshot<'a> {
    ghost Value = { Snapshot };

    ghost view = { λ s. snapshot s.xmax s.active.now s.current };
}

// A status list as its caller gives it: transactions, and their states beside them. Nothing is judged yet.
#[derive(Drop)]
pub struct Statuses<'a> {
    pub ids: &'a [u64],
    pub states: &'a [u8],
}

impl<'a> Model for Statuses<'a> {
    ghost Value = { Statuses };

    ghost view = { λ s. statuses s.ids.now s.states.now };
}

// A snapshot whose active list is strictly rising.
#[derive(Drop)]
pub struct JudgedSnapshot<'a> {
    xmax: u64,
    active: &'a [u64],
    current: Option<u64>,
}

impl<'a> Model for JudgedSnapshot<'a> {
    ghost Value = { Snapshot };

    ghost view = { λ s. snapshot s.xmax s.active.now s.current };

    ghost invariant = { λ s. rising s.active.now ≡ true };
}

// A status list that is strictly rising, with a state for each transaction.
#[derive(Drop)]
pub struct JudgedStatuses<'a> {
    ids: &'a [u64],
    states: &'a [u8],
}

impl<'a> Model for JudgedStatuses<'a> {
    ghost Value = { Statuses };

    ghost view = { λ s. statuses s.ids.now s.states.now };

    ghost invariant = { λ s. StatusesJudged (statuses s.ids.now s.states.now) };
}

// The current transaction's number, or 0 if there is none: the creator of what it inserts.
pub fn creator_of(current: Option<u64>) -> u64
    ensures { result ≡ creator_of current }
{
    current.unwrap_or(0)
}

impl<'a> Snapshot<'a> {
    // The snapshot of calls that are given none: all that is finished is seen.
    pub fn plain(current: Option<u64>) -> Snapshot<'a>
        ensures { result ≡ plain_snapshot current }
    {
        Snapshot {
            xmax: PLAIN_XMAX,
            active: &[],
            current,
        }
    }

    // The same, once judged; none where it is a BadSnapshot.
    pub fn judged(&self) -> Option<JudgedSnapshot<'a>>
        ensures { result ≡ judged_snapshot self.now }
    {
        if !lists::good_active(self.active) {
            return None;
        }
        Some(JudgedSnapshot {
            xmax: self.xmax,
            active: self.active,
            current: self.current,
        })
    }
}

impl<'a> Statuses<'a> {
    // The same, once judged; none where these are BadStatuses.
    pub fn judged(&self) -> Option<JudgedStatuses<'a>>
        ensures { result ≡ judged_statuses self.now }
    {
        if !lists::good_statuses(self.ids, self.states) {
            return None;
        }
        Some(JudgedStatuses {
            ids: self.ids,
            states: self.states,
        })
    }
}

impl<'a> JudgedStatuses<'a> {
    // A list that is known to be strictly rising, with a state for each transaction.
    pub fn new(ids: &'a [u64], states: &'a [u8]) -> JudgedStatuses<'a>
        requires { StatusesJudged (statuses ids.now states.now) }
        ensures { result ≡ statuses ids.now states.now }
    {
        JudgedStatuses { ids, states }
    }

    // A list without entries, for a call in which statuses play no part.
    pub fn none() -> JudgedStatuses<'a>
        ensures { result ≡ no_statuses }
    {
        JudgedStatuses {
            ids: &[],
            states: &[],
        }
    }

    // The state of tx: 1 active, 2 committed, 3 aborted; 0 where it is not listed.
    pub fn state_of(&self, tx: u64) -> u8
        ensures { result ≡ lookup self.now tx }
    {
        lists::status_of(self.ids, self.states, tx)
    }

    // The state of tx, given that of the creator: where they are one transaction, it is not looked up again.
    fn state_beside(&self, creator: u64, state: u8, tx: u64) -> u8
        requires { state ≡ lookup self.now creator }
        ensures { result ≡ lookup self.now tx }
    {
        if tx == creator {
            return state;
        }
        self.state_of(tx)
    }
}

impl<'a> JudgedSnapshot<'a> {
    // A snapshot whose active list is known to be strictly rising.
    pub fn new(xmax: u64, active: &'a [u64], current: Option<u64>) -> JudgedSnapshot<'a>
        requires { rising active.now ≡ true }
        ensures { result ≡ snapshot xmax active.now current }
    {
        JudgedSnapshot {
            xmax,
            active,
            current,
        }
    }

    // The snapshot of calls that are given none, which needs no judgement.
    pub fn plain(current: Option<u64>) -> JudgedSnapshot<'a>
        ensures { result ≡ plain_snapshot current }
    {
        JudgedSnapshot::new(PLAIN_XMAX, &[], current)
    }

    fn is_current(&self, tx: u64) -> bool
        ensures { result ≡ is_current self.now.current tx }
    {
        match self.current {
            Some(c) => tx == c,
            None => false,
        }
    }

    fn is_own(&self, stamp: Option<u64>) -> bool
        ensures { result ≡ of_deleter (is_current self.now.current) stamp }
    {
        match stamp {
            Some(d) => self.is_current(d),
            None => false,
        }
    }

    // With the state already looked up, so that a creator's is looked up once.
    fn committed_before(&self, state: u8, tx: u64) -> bool
        ensures { result ≡ finished_with self.now.xmax self.now.active state tx }
    {
        if tx == 0 {
            return true;
        }
        if self.xmax <= tx {
            return false;
        }
        if state == 1 {
            return false;
        }
        if state == 3 {
            return false;
        }
        if lists::in_active(self.active, tx) {
            return false;
        }
        true
    }

    fn hides(
        &self,
        statuses: &JudgedStatuses<'_>,
        creator: u64,
        state: u8,
        stamp: Option<u64>,
    ) -> bool
        requires { state ≡ lookup statuses.now creator }
        ensures { result ≡ of_deleter (hiding self.now (lookup statuses.now)) stamp }
    {
        match stamp {
            Some(d) => {
                if self.is_current(d) {
                    return true;
                }
                let other = statuses.state_beside(creator, state, d);
                self.committed_before(other, d)
            }
            None => false,
        }
    }

    // Whether the snapshot sees a version of that creator and stamp.
    pub fn sees(&self, statuses: &JudgedStatuses<'_>, creator: u64, stamp: Option<u64>) -> bool
        ensures { result ≡ visible self.now (lookup statuses.now) creator stamp }
    {
        let state = statuses.state_of(creator);
        if state == 3 {
            return false;
        }
        if self.is_current(creator) {
            let own = self.is_own(stamp);
            return !own;
        }
        if self.committed_before(state, creator) {
            let hidden = self.hides(statuses, creator, state, stamp);
            return !hidden;
        }
        false
    }

    // Whether tx changed after the snapshot: it is at or above xmax, or in the active list.
    pub fn changed_after(&self, tx: u64) -> bool
        ensures { result ≡ changed_after self.now tx }
    {
        if self.xmax <= tx {
            return true;
        }
        lists::in_active(self.active, tx)
    }

    fn intrudes(&self, tx: u64) -> bool
        ensures { result ≡ intruding self.now tx }
    {
        if self.is_current(tx) {
            return false;
        }
        self.changed_after(tx)
    }

    // One version of the key, against the creator number that the caller has seen.
    pub fn conflicts(&self, seen: u64, creator: u64, stamp: Option<u64>) -> bool
        ensures { result ≡ conflicting self.now seen creator stamp }
    {
        if creator != seen {
            return self.intrudes(creator);
        }
        match stamp {
            Some(d) => self.intrudes(d),
            None => false,
        }
    }

    // Claim's own test, which may come to ask the status list.
    pub fn claim_conflicts(
        &self,
        statuses: &JudgedStatuses<'_>,
        seen: u64,
        creator: u64,
        stamp: Option<u64>,
    ) -> bool
        ensures { result ≡ claim_conflicting self.now (lookup statuses.now) seen creator stamp }
    {
        self.conflicts(seen, creator, stamp)
    }
}
