// What an insertion would do (document 01, sections 4 to 6), judged on the unchanged pool: it can be asked without storing.
ghost use Rattle.std.specs.Prelude.{◌≡◌, true, ◌≤◌, Ok};
ghost use Rattle.page.specs.Pool.{good_pool};
ghost use Rattle.tree_insert.specs.Spot.{spot_of};
ghost use Rattle.tree_insert.specs.Ready.{ready_at, version_at, new_at};

use crate::Spot;
use call_answers::{Refusal, Refused};
use mvcc::{JudgedSnapshot, JudgedStatuses, creator_of};
use page::PAGE_SIZE;
use page::pool::State;
use tree_room::Planned;

// Where a new version can be stored, and the plan by which it can.
#[derive(Clone, Copy)]
pub struct Ready {
    pub spot: Spot,
    pub plan: Planned,
}

// A cell of m bytes at the spot of that key and creator, where a version is seen already or not.
#[tactic(auto, using(page::proofs::PoolLaws::pool_room), unfolding(crate::specs::Ready::ready_at))]
fn ready_at(
    pool: &[u8],
    st: State,
    key: u32,
    creator: u64,
    spot: Spot,
    m: usize,
    seen: bool,
) -> Result<Ready, Refused>
    requires { (good_pool pool.now st ≡ true) × (m ≤ 4084) × (spot_of pool.now st.used st.root key creator ≡ Ok spot) }
    ensures { result ≡ ready_at pool.now st seen spot m }
{
    let plan = crate::plan_insert(pool, st, spot, m, key, creator)?;
    if seen {
        return Err(Refusal::Duplicate.into());
    }
    let pages = pool.len() / PAGE_SIZE;
    tree_room::judge_room(pages, st, spot.end - page::HEADER_SIZE + m, plan)?;
    Ok(Ready { spot, plan })
}

// A version that is not asked whether its key is free.
#[tactic(auto, using(page::proofs::PoolLaws::pool_room), unfolding(crate::specs::Ready::version_at))]
pub fn version_at(
    pool: &[u8],
    st: State,
    key: u32,
    creator: u64,
    m: usize,
) -> Result<Ready, Refused>
    requires { (good_pool pool.now st ≡ true) × (m ≤ 4084) }
    ensures { result ≡ version_at pool.now st key creator m }
{
    let spot = crate::find_spot(pool, st.used, st.root, key, creator)?;
    ready_at(pool, st, key, creator, spot, m, false)
}

// A live version of a key that the current transaction, if any, must not see already. The spot is found; then the key is
// searched for along the chain, and then comes the climb.
#[tactic(auto, using(page::proofs::PoolLaws::pool_room), unfolding(crate::specs::Ready::new_at))]
pub fn new_at(
    pool: &[u8],
    st: State,
    key: u32,
    current: Option<u64>,
    statuses: &JudgedStatuses<'_>,
    m: usize,
) -> Result<Ready, Refused>
    requires { (good_pool pool.now st ≡ true) × (m ≤ 4084) }
    ensures { result ≡ new_at pool.now st key current statuses.now m }
{
    let creator = creator_of(current);
    let spot = crate::find_spot(pool, st.used, st.root, key, creator)?;
    let snapshot = JudgedSnapshot::plain(current);
    let best = tree::lookup::best_in_tree(pool, st.used, st.root, key, &snapshot, statuses)?;
    ready_at(pool, st, key, creator, spot, m, best.is_some())
}
