// Active lists and status lists (document 01, sections 4 and 6): judged in one pass each, searched by halves.
// A status list is two slices, of transactions and of their states.
ghost use Rattle.std.specs.Prelude.{◌≡◌, true, ◌&&◌, leb};
ghost use Rattle.mvcc.specs.Lists.{rising, are_states, good_active, mem};
ghost use Rattle.mvcc.specs.Snapshot.{good_statuses, lookup, statuses};
ghost use Rattle.mvcc.specs.Steps.Snapshot.{StatusesJudged};

// An active list and a status list are at most so long.
pub const MAX_ACTIVE: usize = 4096;

pub const MAX_STATUSES: usize = 65536;

fn rises(a: &[u64]) -> bool
    ensures { result ≡ rising a.now }
{
    a.is_sorted_by(|x, y| x < y)
}

// Whether it is a state: 1 active, 2 committed, 3 aborted.
pub fn is_state(state: u8) -> bool
    ensures { result ≡ (leb 1 state && leb state 3) }
{
    (1..=3).contains(&state)
}

// A flag and no way out of the loop, so that the compiler takes many states at a time.
fn are_states(s: &[u8]) -> bool
    ensures { result ≡ are_states s.now }
{
    let mut ok = true;
    for state in s {
        ok &= is_state(*state);
    }
    ok
}

// Whether the active list is at most 4096 long and strictly rising; otherwise it is a BadSnapshot.
#[tactic(auto, unfolding(crate::specs::Lists::good_active))]
pub fn good_active(active: &[u64]) -> bool
    ensures { result ≡ good_active active.now }
{
    active.len() <= MAX_ACTIVE && rises(active)
}

// Whether the status list has at most 65,536 entries, a state from 1 to 3 for each transaction, and is strictly
// rising; otherwise it is BadStatuses.
#[tactic(auto, unfolding(crate::specs::Snapshot::good_statuses))]
pub fn good_statuses(ids: &[u64], states: &[u8]) -> bool
    ensures { result ≡ good_statuses (statuses ids.now states.now) }
{
    ids.len() <= MAX_STATUSES && ids.len() == states.len() && rises(ids) && are_states(states)
}

// Whether tx stands in the active list.
pub fn in_active(active: &[u64], tx: u64) -> bool
    requires { rising active.now ≡ true }
    ensures { result ≡ mem tx active.now }
{
    active.binary_search(&tx).is_ok()
}

// The state of tx: 1 active, 2 committed, 3 aborted; 0 where it is not listed.
pub fn status_of(ids: &[u64], states: &[u8], tx: u64) -> u8
    requires { StatusesJudged (statuses ids.now states.now) }
    ensures { result ≡ lookup (statuses ids.now states.now) tx }
{
    match ids.binary_search(&tx) {
        Ok(i) => states[i],
        Err(_) => 0,
    }
}
