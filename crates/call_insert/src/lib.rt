// The calls that insert (document 01, section 6; btree.rs): each takes any pool, state, lists and row, judges
// them itself on the unchanged pool, and only then stores. A refused call changes nothing. No function here asks
// anything of its caller.
#![tactic(auto)]

ghost use Rattle.std.specs.Prelude.{◌≡◌};
ghost use Rattle.page.specs.Key.{rank_of};
ghost use Rattle.call_answers.specs.Answer.{ended, outcome_of};
ghost use Rattle.call_insert.specs.Insert.{version_ready, insert_version_run, insert_version_call, insert_ready, insert_run, insert_call};

use call_answers::{Refusal, Refused};
use mvcc::Statuses;
use page::pool::State;
use row::{NewVersion, Pointer};
use tree_insert::ready;
use tree_insert::ready::Ready;

// What insert version would do; it can be asked without storing.
#[tactic(auto, unfolding(crate::specs::Insert::version_ready))]
pub fn version_ready(
    pool: &[u8],
    st: State,
    key: u32,
    creator: u64,
    stamp: Option<u64>,
    pointer: Option<Pointer>,
    len: usize,
) -> Result<Ready, Refused>
    ensures { result ≡ version_ready pool.now st key creator stamp pointer len }
{
    if !page::pool::pool_is_good(pool, st) {
        return Err(Refusal::BadPool.into());
    }
    if row::MAX_DATA < len {
        return Err(Refusal::BadData.into());
    }
    let m = row::write::cell_size(stamp, pointer, len);
    ready::version_at(pool, st, key, creator, m)
}

// Insert version by rank, with the fault behind a BadTree.
#[tactic(auto, unfolding(crate::specs::Insert::insert_version_run))]
pub fn insert_version_at(
    pool: &mut [u8],
    st: State,
    version: &NewVersion<'_>,
) -> Result<State, Refused>
    ensures { ended result pool.new ≡ insert_version_run pool.old st version.now.key version.now.creator version.now.stamp version.now.pointer version.now.body }
{
    let told = version_ready(
        pool,
        st,
        version.key,
        version.creator,
        version.stamp,
        version.pointer,
        version.body.len(),
    )?;
    Ok(tree_insert::store_insert(pool, st, told.spot, told.plan, version))
}

// Insert version: a version as it is given, after equals of its key and creator; no version of the key refuses
// it. Refused (BadPool, BadData, BadTree, Undividable, TooDeep, NoPages), it leaves the pool as it was.
#[tactic(auto, unfolding(crate::specs::Insert::insert_version_call))]
pub fn insert_version(
    pool: &mut [u8],
    st: State,
    key: i32,
    creator: u64,
    stamp: Option<u64>,
    pointer: Option<Pointer>,
    body: &[u8],
) -> Result<State, Refusal>
    ensures { ended (outcome_of result) pool.new ≡ insert_version_call pool.old st (rank_of key) creator stamp pointer body.now }
{
    let version = NewVersion {
        key: page::key::rank_of(key),
        creator,
        stamp,
        pointer,
        body,
    };
    Ok(insert_version_at(pool, st, &version)?)
}

// What insert would do; it can be asked without storing.
#[tactic(auto, unfolding(crate::specs::Insert::insert_ready))]
pub fn insert_ready(
    pool: &[u8],
    st: State,
    key: u32,
    current: Option<u64>,
    statuses: &Statuses<'_>,
    len: usize,
) -> Result<Ready, Refused>
    ensures { result ≡ insert_ready pool.now st key current statuses.now len }
{
    if !page::pool::pool_is_good(pool, st) {
        return Err(Refusal::BadPool.into());
    }
    let statuses = statuses.judged().ok_or(Refusal::BadStatuses)?;
    if row::MAX_DATA < len {
        return Err(Refusal::BadData.into());
    }
    let m = row::write::cell_size(None, None, len);
    ready::new_at(pool, st, key, current, &statuses, m)
}

// Insert by rank, with the fault behind a BadTree.
#[tactic(auto, unfolding(crate::specs::Insert::insert_run))]
pub fn insert_at(
    pool: &mut [u8],
    st: State,
    key: u32,
    current: Option<u64>,
    statuses: &Statuses<'_>,
    body: &[u8],
) -> Result<State, Refused>
    ensures { ended result pool.new ≡ insert_run pool.old st key current statuses.now body.now }
{
    let told = insert_ready(pool, st, key, current, statuses, body.len())?;
    let version = NewVersion {
        key,
        creator: mvcc::creator_of(current),
        stamp: None,
        pointer: None,
        body,
    };
    Ok(tree_insert::store_insert(pool, st, told.spot, told.plan, &version))
}

// Insert: a live version by the caller's own transaction, if any, of a key that has none that it sees. Refused
// (BadPool, BadStatuses, BadData, BadTree, Duplicate, Undividable, TooDeep, NoPages), it leaves the pool as it was.
#[tactic(auto, unfolding(crate::specs::Insert::insert_call))]
pub fn insert(
    pool: &mut [u8],
    st: State,
    key: i32,
    current: Option<u64>,
    statuses: &Statuses<'_>,
    body: &[u8],
) -> Result<State, Refusal>
    ensures { ended (outcome_of result) pool.new ≡ insert_call pool.old st (rank_of key) current statuses.now body.now }
{
    let rank = page::key::rank_of(key);
    Ok(insert_at(pool, st, rank, current, statuses, body)?)
}
