// Remove and vacuum (document 01, sections 5 and 6; btree.rs): each takes any pool, state and lists, judges the whole chain
// that it goes along, and only then stores. These calls ask nothing of their caller; the walks of the modules do.
#![tactic(auto)]

pub mod remove;
pub mod vacuum;

ghost use Rattle.std.specs.Prelude.{◌≡◌};
ghost use Rattle.page.specs.Key.{rank_of};
ghost use Rattle.call_answers.specs.Answer.{ended, outcome_of};
ghost use Rattle.call_clean.specs.Remove.{remove_run, remove_call};
ghost use Rattle.call_clean.specs.Vacuum.{vacuum_run, vacuum_call};

use call_answers::{Refusal, Refused};
use mvcc::Statuses;
use page::pool::State;
use tree::Route;

// Remove by rank, with the fault behind a BadTree.
#[tactic(auto, using(page::proofs::PoolLaws::pool_room, page::proofs::PoolLaws::pool_few), unfolding(crate::specs::Remove::remove_run))]
pub fn remove_at(pool: &mut [u8], st: State, key: u32) -> Result<usize, Refused>
    ensures { ended result pool.new ≡ remove_run pool.old st key }
{
    if !page::pool::pool_is_good(pool, st) {
        return Err(Refusal::BadPool.into());
    }
    let first = tree::descend(pool, st.used, st.root, Route::Search(key))?;
    let n = remove::count_along(pool, st.used, first, key)?;
    remove::remove_along(pool, st.used, first, key);
    Ok(n)
}

// Remove: drops every version of the key that search meets, and answers how many; 0 of a key without versions.
// Refused (BadPool, BadTree), it leaves the pool as it was. The state stays in any case.
#[tactic(auto, unfolding(crate::specs::Remove::remove_call))]
pub fn remove_all_versions(pool: &mut [u8], st: State, key: i32) -> Result<usize, Refusal>
    ensures { ended (outcome_of result) pool.new ≡ remove_call pool.old st (rank_of key) }
{
    let rank = page::key::rank_of(key);
    Ok(remove_at(pool, st, rank)?)
}

// Vacuum, with the fault behind a BadTree.
#[tactic(auto, using(page::proofs::PoolLaws::pool_room, page::proofs::PoolLaws::pool_few), unfolding(crate::specs::Vacuum::vacuum_run))]
pub fn vacuum_at(
    pool: &mut [u8],
    st: State,
    statuses: &Statuses<'_>,
    bound: u64,
) -> Result<usize, Refused>
    ensures { ended result pool.new ≡ vacuum_run pool.old st statuses.now bound }
{
    if !page::pool::pool_is_good(pool, st) {
        return Err(Refusal::BadPool.into());
    }
    let statuses = statuses.judged().ok_or(Refusal::BadStatuses)?;
    let first = tree::descend(pool, st.used, st.root, Route::First)?;
    vacuum::judge_along(pool, st.used, first)?;
    Ok(vacuum::vacuum_along(pool, st.used, first, &statuses, bound))
}

// Vacuum: in every leaf drops the versions whose creator is aborted, or whose deleter is committed and below the
// bound, and clears the stamps of aborted deleters; how many were dropped. The state stays in any case. Refused
// (BadPool, BadStatuses, BadTree), it leaves the pool as it was.
#[tactic(auto, unfolding(crate::specs::Vacuum::vacuum_call))]
pub fn vacuum_deleted_versions(
    pool: &mut [u8],
    st: State,
    statuses: &Statuses<'_>,
    bound: u64,
) -> Result<usize, Refusal>
    ensures { ended (outcome_of result) pool.new ≡ vacuum_call pool.old st statuses.now bound }
{
    Ok(vacuum_at(pool, st, statuses, bound)?)
}
