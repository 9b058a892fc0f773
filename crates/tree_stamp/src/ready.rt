// What a stamp would do (document 01, sections 4 to 6), judged on the unchanged pool: it can be asked without storing.
ghost use Rattle.std.specs.Prelude.{◌≡◌, true};
ghost use Rattle.page.specs.Page.{page};
ghost use Rattle.page.specs.Pool.{good_pool};
ghost use Rattle.tree_stamp.specs.Target.{target_of};
ghost use Rattle.tree_stamp.specs.Steps.Target.{CellMet};
ghost use Rattle.tree_stamp.specs.Ready.{marking_at};

use crate::Target;
use call_answers::{Refusal, Refused};
use page::PAGE_SIZE;
use page::pool::State;
use row::Fault;
use tree_room::Planned;

// What can be stamped, and the plan by which it can.
#[derive(Clone, Copy)]
pub struct Marking {
    pub target: Target,
    pub plan: Planned,
}

// The target is found; test is what the conflict test says of it.
#[tactic(auto, using(page::proofs::PoolLaws::pool_room), unfolding(crate::specs::Ready::marking_at))]
pub fn marking_at(
    pool: &[u8],
    st: State,
    test: Result<bool, Fault>,
    target: Target,
) -> Result<Marking, Refused>
    requires { (good_pool pool.now st ≡ true) × CellMet st.used target.leaf target.cell pool.now × (target ≡ target_of (page pool.now target.leaf) target.leaf target.cell) }
    ensures { result ≡ marking_at pool.now st test target }
{
    let plan = crate::plan_stamp(pool, st, target)?;
    let conflict = test?;
    if conflict {
        return Err(Refusal::Conflict.into());
    }
    let pages = pool.len() / PAGE_SIZE;
    tree_room::judge_room(pages, st, crate::bytes_stamped(target), plan)?;
    Ok(Marking { target, plan })
}
