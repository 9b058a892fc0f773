// What writing a leaf would take, told on the unchanged pool (document 01, sections 3, 5 and 6): the climb; where the leaf
// would be overfull, the plan above it; and the room refusals.
#![tactic(auto)]

ghost use Rattle.std.specs.Prelude.{◌≡◌, ◌*◌, ◌≤◌, ◌<◌, length};
ghost use Rattle.tree_room.specs.Room.{fitting, leaf_plan, room_of};

use call_answers::Refusal;
use leaf::place::Cut;
use page::pool::State;
use row::Fault;
use tree::climb::Path;
use tree_grow::plan::Division;

// The path above a leaf that is to be written; where it would be overfull, its cut and what follows above.
#[derive(Clone, Copy)]
pub struct Planned {
    pub path: Path,
    pub over: bool,
    pub cut: Cut,
    pub above: Division,
}

// The plan of a leaf that has room: nothing divides.
fn fits_as(path: Path) -> Planned
    ensures { result ≡ fitting path }
{
    Planned {
        path,
        over: false,
        cut: Cut { cells: 0, bytes: 0 },
        above: Division {
            full: 0,
            grows: false,
        },
    }
}

// Page p would be written: the climb from it, and where it would be overfull the plan above; or the first fault on the way.
#[tactic(auto, unfolding(crate::specs::Room::leaf_plan))]
pub fn plan_leaf(pool: &[u8], st: State, p: u32, over: bool, cut: Cut) -> Result<Planned, Fault>
    requires { (st.used * 4096 ≤ length pool.now) × (p < st.used) }
    ensures { result ≡ leaf_plan pool.now st p over cut }
{
    let path = tree::climb::climb(pool, st.used, st.root, p)?;
    if !over {
        return Ok(fits_as(path));
    }
    let above = tree_grow::plan::plan_above(pool, st.used, path)?;
    Ok(Planned {
        path,
        over: true,
        cut,
        above,
    })
}

// Whether a pool of so many pages has room for the plan of a leaf of t bytes; otherwise Undividable, TooDeep or NoPages.
#[tactic(auto, unfolding(crate::specs::Room::room_of))]
pub fn judge_room(pages: usize, st: State, t: usize, x: Planned) -> Result<(), Refusal>
    requires { (x.above.full ≤ 4) × (st.used ≤ pages) × (pages ≤ 65536) }
    ensures { result ≡ room_of pages st t x }
{
    let above = x.above;
    let path = x.path;
    if !x.over {
        return Ok(());
    }
    if !leaf::place::cut_fits(t, x.cut) {
        return Err(Refusal::Undividable);
    }
    if above.grows && path.len == 4 {
        return Err(Refusal::TooDeep);
    }
    if pages < st.used as usize + 1 + tree_grow::plan::pages_asked(st.root, above) {
        return Err(Refusal::NoPages);
    }
    Ok(())
}
