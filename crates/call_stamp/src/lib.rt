// The calls that stamp (document 01, sections 4 to 6; btree.rs, mark_deleted_visible): stamp, plain stamp, plain delete, and
// claim, in which the conflict test and the stamp are one call. These ask nothing of their caller.
#![tactic(auto)]

ghost use Rattle.std.specs.Prelude.{◌≡◌};
ghost use Rattle.page.specs.Key.{rank_of};
ghost use Rattle.call_answers.specs.Answer.{ended, outcome_of};
ghost use Rattle.call_stamp.specs.Mark.{mark_ready, mark_run, mark_call, mark_plain_call, delete_call};
ghost use Rattle.call_stamp.specs.Claim.{claim_ready, claim_run, claim_call};

use call_answers::{Refusal, Refused};
use mvcc::{Snapshot, Statuses, creator_of};
use page::pool::State;
use tree_stamp::ready;
use tree_stamp::ready::Marking;

// What a stamp of the key's visible version would do, or a claim; it can be asked without storing.
#[tactic(auto, using(page::proofs::PoolLaws::pool_room), unfolding(crate::specs::Mark::mark_ready, call_read::specs::Find::find_visible_run))]
pub fn mark_ready(
    pool: &[u8],
    st: State,
    key: u32,
    snapshot: &Snapshot<'_>,
    statuses: &Statuses<'_>,
    claiming: bool,
) -> Result<Marking, Refused>
    ensures { result ≡ mark_ready pool.now st key snapshot.now statuses.now claiming }
{
    if !page::pool::pool_is_good(pool, st) {
        return Err(Refusal::BadPool.into());
    }
    let snapshot = snapshot.judged().ok_or(Refusal::BadSnapshot)?;
    let statuses = statuses.judged().ok_or(Refusal::BadStatuses)?;
    let best = tree::lookup::best_in_tree(pool, st.used, st.root, key, &snapshot, &statuses)?;
    let Some((leaf, cell)) = best else {
        return Err(Refusal::Absent.into());
    };
    let target = tree_stamp::target_at(pool, leaf, cell);
    let test = if claiming {
        let seen = cell.version.creator;
        tree::lookup::test_in_tree(
            pool, st.used, st.root, key, &snapshot, &statuses, true, seen,
        )
    } else {
        Ok(false)
    };
    ready::marking_at(pool, st, test, target)
}

// Stamp by rank, with the fault behind a BadTree.
#[tactic(auto, unfolding(crate::specs::Mark::mark_run))]
pub fn mark_at(
    pool: &mut [u8],
    st: State,
    key: u32,
    snapshot: &Snapshot<'_>,
    statuses: &Statuses<'_>,
    d: u64,
) -> Result<State, Refused>
    ensures { ended result pool.new ≡ mark_run pool.old st key snapshot.now statuses.now d }
{
    let marking = mark_ready(pool, st, key, snapshot, statuses, false)?;
    Ok(tree_stamp::store_stamp(pool, st, marking.target, marking.plan, d))
}

// The version that the snapshot sees gets the deleter's stamp.
#[tactic(auto, unfolding(crate::specs::Mark::mark_call))]
pub fn mark_deleted_visible(
    pool: &mut [u8],
    st: State,
    key: i32,
    snapshot: &Snapshot<'_>,
    statuses: &Statuses<'_>,
    d: u64,
) -> Result<State, Refusal>
    ensures { ended (outcome_of result) pool.new ≡ mark_call pool.old st (rank_of key) snapshot.now statuses.now d }
{
    let rank = page::key::rank_of(key);
    Ok(mark_at(pool, st, rank, snapshot, statuses, d)?)
}

// Plain stamp: the snapshot of the current transaction, if any, that sees all that is finished.
#[tactic(auto, unfolding(crate::specs::Mark::mark_plain_call))]
pub fn mark_deleted(
    pool: &mut [u8],
    st: State,
    key: i32,
    current: Option<u64>,
    statuses: &Statuses<'_>,
    d: u64,
) -> Result<State, Refusal>
    ensures { ended (outcome_of result) pool.new ≡ mark_plain_call pool.old st (rank_of key) current statuses.now d }
{
    mark_deleted_visible(pool, st, key, &Snapshot::plain(current), statuses, d)
}

// Plain delete: the stamp of the current transaction, or 0 if there is none.
#[tactic(auto, unfolding(crate::specs::Mark::delete_call))]
pub fn delete(
    pool: &mut [u8],
    st: State,
    key: i32,
    current: Option<u64>,
    statuses: &Statuses<'_>,
) -> Result<State, Refusal>
    ensures { ended (outcome_of result) pool.new ≡ delete_call pool.old st (rank_of key) current statuses.now }
{
    mark_deleted(pool, st, key, current, statuses, creator_of(current))
}

// What a claim would do; it can be asked without storing.
#[tactic(auto, unfolding(crate::specs::Claim::claim_ready))]
pub fn claim_ready(
    pool: &[u8],
    st: State,
    key: u32,
    snapshot: &Snapshot<'_>,
    statuses: &Statuses<'_>,
) -> Result<Marking, Refused>
    ensures { result ≡ claim_ready pool.now st key snapshot.now statuses.now }
{
    if !page::pool::pool_is_good(pool, st) {
        return Err(Refusal::BadPool.into());
    }
    if creator_of(snapshot.current) == 0 {
        return Err(Refusal::BadSnapshot.into());
    }
    mark_ready(pool, st, key, snapshot, statuses, true)
}

// Claim by rank, with the fault behind a BadTree.
#[tactic(auto, unfolding(crate::specs::Claim::claim_run))]
pub fn claim_at(
    pool: &mut [u8],
    st: State,
    key: u32,
    snapshot: &Snapshot<'_>,
    statuses: &Statuses<'_>,
) -> Result<State, Refused>
    ensures { ended result pool.new ≡ claim_run pool.old st key snapshot.now statuses.now }
{
    let marking = claim_ready(pool, st, key, snapshot, statuses)?;
    let d = creator_of(snapshot.current);
    Ok(tree_stamp::store_stamp(pool, st, marking.target, marking.plan, d))
}

// Lookup, conflict test against the found creator, and the stamp of the current transaction, as one call.
#[tactic(auto, unfolding(crate::specs::Claim::claim_call))]
pub fn claim(
    pool: &mut [u8],
    st: State,
    key: i32,
    snapshot: &Snapshot<'_>,
    statuses: &Statuses<'_>,
) -> Result<State, Refusal>
    ensures { ended (outcome_of result) pool.new ≡ claim_call pool.old st (rank_of key) snapshot.now statuses.now }
{
    let rank = page::key::rank_of(key);
    Ok(claim_at(pool, st, rank, snapshot, statuses)?)
}
