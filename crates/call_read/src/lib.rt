// Create, and the reading calls (document 01, section 6; btree.rs): each takes any pool, state, snapshot and
// lists, judges them itself, and answers by the table. No function here asks anything of its caller.
#![tactic(auto)]

ghost use Rattle.std.specs.Prelude.{◌≡◌};
ghost use Rattle.page.specs.Key.{rank_of};
ghost use Rattle.call_answers.specs.Answer.{outcome_of, written, ended};
ghost use Rattle.call_read.specs.Create.{create_call};
ghost use Rattle.call_read.specs.Find.{find_visible_run, find_visible_call, find_call};
ghost use Rattle.call_read.specs.Conflict.{conflict_call};
ghost use Rattle.call_read.specs.Check.{check_call};
ghost use Rattle.call_read.specs.Listings.{list_run, versions_of_call, all_versions_call};
ghost use Rattle.call_read.specs.Numbers.{numbers_run, page_numbers_call};
ghost use Rattle.call_read.specs.Scan.{scan_run, scan_visible_call};

use call_answers::{Refusal, Refused};
use list_versions::Which;
use mvcc::{JudgedStatuses, Snapshot, Statuses};
use page::pool::State;
use row::{Cell, Version};

// A new tree: the next page becomes an empty leaf, and the new state has it as its root. The old root is not
// read. Refused (BadPool, NoPages), it leaves the pool as it was.
#[tactic(auto, unfolding(crate::specs::Create::create_call))]
pub fn create(pool: &mut [u8], st: State) -> Result<State, Refusal>
    ensures { ended (outcome_of result) pool.new ≡ create_call pool.old st }
{
    if !page::pool::pool_is_good(pool, st) {
        return Err(Refusal::BadPool);
    }
    if pool.len() / page::PAGE_SIZE <= st.used as usize {
        return Err(Refusal::NoPages);
    }
    Ok(tree::create::make_root(pool, st))
}

// Lookup by rank, with the page where it was found, or the fault behind a BadTree.
#[tactic(auto, using(page::proofs::PoolLaws::pool_room), unfolding(crate::specs::Find::find_visible_run))]
pub fn find_visible_at(
    pool: &[u8],
    st: State,
    key: u32,
    snapshot: &Snapshot<'_>,
    statuses: &Statuses<'_>,
) -> Result<(u32, Cell), Refused>
    ensures { result ≡ find_visible_run pool.now st key snapshot.now statuses.now }
{
    if !page::pool::pool_is_good(pool, st) {
        return Err(Refusal::BadPool.into());
    }
    let snapshot = snapshot.judged().ok_or(Refusal::BadSnapshot)?;
    let statuses = statuses.judged().ok_or(Refusal::BadStatuses)?;
    let best = tree::lookup::best_in_tree(pool, st.used, st.root, key, &snapshot, &statuses)?;
    best.ok_or(Refusal::Absent.into())
}

// Lookup: of the key's versions that the snapshot sees the one with the largest creator, on a tie the last; or
// BadPool, BadSnapshot, BadStatuses, BadTree, Absent.
#[tactic(auto, unfolding(crate::specs::Find::find_visible_call))]
pub fn find_visible(
    pool: &[u8],
    st: State,
    key: i32,
    snapshot: &Snapshot<'_>,
    statuses: &Statuses<'_>,
) -> Result<Version, Refusal>
    ensures { outcome_of result ≡ find_visible_call pool.now st (rank_of key) snapshot.now statuses.now }
{
    let rank = page::key::rank_of(key);
    let (p, c) = find_visible_at(pool, st, rank, snapshot, statuses)?;
    Ok(tree::lookup::version_in_pool(p, c))
}

// Plain lookup: the newest version that the caller's own transaction, if any, sees among all that are finished.
#[tactic(auto, unfolding(crate::specs::Find::find_call))]
pub fn find(
    pool: &[u8],
    st: State,
    key: i32,
    current: Option<u64>,
    statuses: &Statuses<'_>,
) -> Result<Version, Refusal>
    ensures { outcome_of result ≡ find_call pool.now st (rank_of key) current statuses.now }
{
    find_visible(pool, st, key, &Snapshot::plain(current), statuses)
}

// Conflict: whether some version of the key conflicts with the creator number that the caller has seen; or
// BadPool, BadSnapshot, BadTree. Statuses play no part.
#[tactic(auto, using(page::proofs::PoolLaws::pool_room), unfolding(crate::specs::Conflict::conflict_call))]
pub fn has_write_conflict(
    pool: &[u8],
    st: State,
    key: i32,
    snapshot: &Snapshot<'_>,
    seen: u64,
) -> Result<bool, Refusal>
    ensures { outcome_of result ≡ conflict_call pool.now st (rank_of key) snapshot.now seen }
{
    let rank = page::key::rank_of(key);
    if !page::pool::pool_is_good(pool, st) {
        return Err(Refusal::BadPool);
    }
    let snapshot = snapshot.judged().ok_or(Refusal::BadSnapshot)?;
    let statuses = JudgedStatuses::none();
    let told = tree::lookup::test_in_tree(
        pool, st.used, st.root, rank, &snapshot, &statuses, false, seen,
    );
    told.map_err(|_| Refusal::BadTree)
}

// Whether the tree is well-formed; it never says BadTree.
#[tactic(auto, using(page::proofs::PoolLaws::pool_room), unfolding(crate::specs::Check::check_call))]
pub fn check(pool: &[u8], st: State) -> Result<bool, Refusal>
    ensures { outcome_of result ≡ check_call pool.now st }
{
    if !page::pool::pool_is_good(pool, st) {
        return Err(Refusal::BadPool);
    }
    Ok(tree_check::check_tree(pool, st.used, st.root))
}

// The versions of a key by rank, or all, with the fault behind a BadTree.
#[tactic(auto, using(page::proofs::PoolLaws::pool_room), unfolding(crate::specs::Listings::list_run))]
pub fn list_at(pool: &[u8], st: State, which: Which, out: &mut [u8]) -> Result<usize, Refused>
    ensures { written result out.new ≡ list_run pool.now st which out.old }
{
    if !page::pool::pool_is_good(pool, st) {
        return Err(Refusal::BadPool.into());
    }
    list_versions::list_tree(pool, out, which, st.used, st.root)
}

// The records of the key's versions in chain order, at the start of the output; how many bytes they take.
// Refused (BadPool, BadTree, Short), it leaves the output as it was.
#[tactic(auto, unfolding(crate::specs::Listings::versions_of_call))]
pub fn versions_of(pool: &[u8], st: State, key: i32, out: &mut [u8]) -> Result<usize, Refusal>
    ensures { written (outcome_of result) out.new ≡ versions_of_call pool.now st (rank_of key) out.old }
{
    let rank = page::key::rank_of(key);
    Ok(list_at(pool, st, Which::Key(rank), out)?)
}

// The records of all versions in chain order, at the start of the output; how many bytes they take. Refused
// (BadPool, BadTree, Short), it leaves the output as it was.
#[tactic(auto, unfolding(crate::specs::Listings::all_versions_call))]
pub fn all_versions(pool: &[u8], st: State, out: &mut [u8]) -> Result<usize, Refusal>
    ensures { written (outcome_of result) out.new ≡ all_versions_call pool.now st out.old }
{
    Ok(list_at(pool, st, Which::All, out)?)
}

// The page numbers, with the fault behind a BadTree.
#[tactic(auto, using(page::proofs::PoolLaws::pool_room, page::proofs::PoolLaws::pool_few), unfolding(crate::specs::Numbers::numbers_run))]
pub fn numbers_at(pool: &[u8], st: State, out: &mut [u8]) -> Result<usize, Refused>
    ensures { written result out.new ≡ numbers_run pool.now st out.old }
{
    if !page::pool::pool_is_good(pool, st) {
        return Err(Refusal::BadPool.into());
    }
    list_pages::list_numbers(pool, out, st.used, st.root)
}

// The records of the tree's page numbers, a page before its children's subtrees, the last child first, at the
// start of the output; how many bytes they take. Refused (BadPool, BadTree, Short), it leaves the output as it
// was. It keeps a table of 8 KiB on the stack.
#[tactic(auto, unfolding(crate::specs::Numbers::page_numbers_call))]
pub fn page_numbers(pool: &[u8], st: State, out: &mut [u8]) -> Result<usize, Refusal>
    ensures { written (outcome_of result) out.new ≡ page_numbers_call pool.now st out.old }
{
    Ok(numbers_at(pool, st, out)?)
}

// The visible versions, with the fault behind a BadTree.
#[tactic(auto, using(page::proofs::PoolLaws::pool_room), unfolding(crate::specs::Scan::scan_run))]
pub fn scan_at(
    pool: &[u8],
    st: State,
    snapshot: &Snapshot<'_>,
    statuses: &Statuses<'_>,
    out: &mut [u8],
) -> Result<usize, Refused>
    ensures { written result out.new ≡ scan_run pool.now st snapshot.now statuses.now out.old }
{
    if !page::pool::pool_is_good(pool, st) {
        return Err(Refusal::BadPool.into());
    }
    let snapshot = snapshot.judged().ok_or(Refusal::BadSnapshot)?;
    let statuses = statuses.judged().ok_or(Refusal::BadStatuses)?;
    list_visible::scan_tree(pool, st.used, st.root, &snapshot, &statuses, out)
}

// The records of what the snapshot sees, at the start of the output: rising keys, one version a key, the largest
// creator, on a tie the first; how many bytes they take. Refused (BadPool, BadSnapshot, BadStatuses, BadTree,
// Short), it leaves the output as it was.
#[tactic(auto, unfolding(crate::specs::Scan::scan_visible_call))]
pub fn scan_visible(
    pool: &[u8],
    st: State,
    snapshot: &Snapshot<'_>,
    statuses: &Statuses<'_>,
    out: &mut [u8],
) -> Result<usize, Refusal>
    ensures { written (outcome_of result) out.new ≡ scan_visible_call pool.now st snapshot.now statuses.now out.old }
{
    Ok(scan_at(pool, st, snapshot, statuses, out)?)
}
