// A new version put into the tree (document 01, sections 3 and 5; btree.rs, insert_row_version_into_page and split_leaf):
// its spot, what writing its leaf would take, told before any store, and the stores.
#![tactic(auto)]

pub mod ready;

ghost use Rattle.std.specs.Prelude.{◌≡◌, true, ◌+◌, ◌-◌, ◌*◌, ◌/◌, ◌≤◌, ◌<◌, length, Ok};
ghost use Rattle.store.specs.Part.{zeros};
ghost use Rattle.page.specs.Page.{page};
ghost use Rattle.page.specs.Header.{cell_count};
ghost use Rattle.page.specs.Pool.{good_pool, grown};
ghost use Rattle.row.specs.Row.{row_size, row_bytes};
ghost use Rattle.leaf_divide.specs.Divide.{divided};
ghost use Rattle.tree_insert.specs.Spot.{spot_of};
ghost use Rattle.tree_room.specs.Room.{room_of};
ghost use Rattle.tree_room.specs.Up.{divided_up};
ghost use Rattle.tree_insert.specs.Insert.{bytes_with, cut_with, insert_plan, spliced_at, inserted_at};
ghost use Rattle.tree_insert.specs.Steps.Insert.{InsertCutStands};

use leaf::place::{Cut, Place};
use page::PAGE_SIZE;
use page::pool::State;
use row::{Fault, NewVersion};
use tree::Route;
use tree_room::Planned;

// A leaf, the place of a new cell in it, and where its cells end.
#[derive(Clone, Copy)]
pub struct Spot {
    pub leaf: u32,
    pub place: Place,
    pub end: usize,
}

// Where a new version of that key and creator goes: down by the insertion rule, then after equals; or the first fault on the
// way to it.
#[tactic(auto, unfolding(crate::specs::Spot::spot_of))]
pub fn find_spot(pool: &[u8], used: u32, root: u32, key: u32, creator: u64) -> Result<Spot, Fault>
    requires { used * 4096 ≤ length pool.now }
    ensures { result ≡ spot_of pool.now used root key creator }
{
    let leaf = tree::descend(pool, used, root, Route::Insert(key))?;
    let (place, end) = leaf::place::place_in_leaf(
        page::pool::page_of(pool, leaf),
        leaf,
        key,
        creator,
    )?;
    Ok(Spot { leaf, place, end })
}

fn cut_at(pool: &[u8], x: Spot, m: usize) -> Cut
    requires { (x.leaf * 4096 + 4096 ≤ length pool.now) × (12 ≤ x.end) × (x.end ≤ 4096) × (x.place.at ≤ 4096) × (m ≤ 4096) × (x.place.before ≤ cell_count (page pool.now x.leaf)) × (cell_count (page pool.now x.leaf) < 16384) }
    ensures { result ≡ cut_with (page pool.now x.leaf) x m }
{
    let pg = page::pool::page_of(pool, x.leaf);
    let here = x.place;
    let after = page::get_cell_count(pg) as usize - here.before;
    leaf::place::cut_leaf(
        pg,
        x.end - page::HEADER_SIZE + m,
        here.before,
        here.at,
        after,
        m,
    )
}

// What putting a cell of m bytes there would take.
#[tactic(auto, using(tree_room::proofs::Rooming::plan_uncut), unfolding(crate::specs::Insert::insert_plan))]
pub fn plan_insert(
    pool: &[u8],
    st: State,
    x: Spot,
    m: usize,
    key: u32,
    creator: u64,
) -> Result<Planned, Fault>
    requires { (st.used * 4096 ≤ length pool.now) × (m ≤ 4084) × (spot_of pool.now st.used st.root key creator ≡ Ok x) }
    ensures { result ≡ insert_plan pool.now st x m }
{
    let over = page::LEAF_ROOM < x.end - page::HEADER_SIZE + m;
    if over {
        let cut = cut_at(pool, x, m);
        return tree_room::plan_leaf(pool, st, x.leaf, true, cut);
    }
    tree_room::plan_leaf(pool, st, x.leaf, false, Cut { cells: 0, bytes: 0 })
}

// The leaf with the new cell divides at the cut: page q takes the right side.
fn divide_at(pool: &mut [u8], x: Spot, q: u32, n: usize, cut: Cut, version: &NewVersion<'_>)
    requires leaf_lt_q { (x.leaf < q) × (q * 4096 + 4096 ≤ length pool.old) × (page pool.old q ≡ zeros 4096) × (length version.now.body ≤ 4051) }
    requires insert_cut_stands { InsertCutStands x (row_size version.now) n cut }
    ensures { pool.new ≡ divided x.leaf q (n + 1) cut (spliced_at x (row_bytes version.now) (page pool.old x.leaf)) pool.old }
{
    let p = x.leaf;
    let here = x.place;
    let at = here.at;
    let e = x.end;
    if cut.cells <= here.before {
        leaf_divide::insert_divide_right(pool, p, q, at, e, n, cut, version);
    } else {
        leaf_divide::insert_divide_left(pool, p, q, at, e, n, cut, version);
    }
}

fn store_divided(
    pool: &mut [u8],
    st: State,
    x: Spot,
    plan: Planned,
    n: usize,
    version: &NewVersion<'_>,
) -> State
    requires st_value { (good_pool pool.old st ≡ true) × (length version.now.body ≤ 4051) × (n ≡ cell_count (page pool.old x.leaf)) × (plan.over ≡ true) }
    requires creator_value { spot_of pool.old st.used st.root version.now.key version.now.creator ≡ Ok x }
    requires body_value { insert_plan pool.old st x (row_size version.now) ≡ Ok plan }
    requires plan_value { room_of (length pool.old / 4096) st (bytes_with x (row_size version.now)) plan ≡ Ok tt }
    ensures { grown pool.new result ≡ divided_up plan x.leaf (n + 1) (spliced_at x (row_bytes version.now) (page pool.old x.leaf)) (grown pool.old st) }
{
    let a = page::pool::allocate(pool, st);
    let q = a.page;
    let after = a.state;
    let path = plan.path;
    let cut = plan.cut;
    divide_at(pool, x, q, n, cut, version);
    tree_grow::settle(pool, after, path, q)
}

// The new version into its leaf, as planned.
pub fn store_insert(
    pool: &mut [u8],
    st: State,
    x: Spot,
    plan: Planned,
    version: &NewVersion<'_>,
) -> State
    requires st_value { (good_pool pool.old st ≡ true) × (length version.now.body ≤ 4051) }
    requires creator_value { spot_of pool.old st.used st.root version.now.key version.now.creator ≡ Ok x }
    requires body_value { insert_plan pool.old st x (row_size version.now) ≡ Ok plan }
    requires plan_value { room_of (length pool.old / 4096) st (bytes_with x (row_size version.now)) plan ≡ Ok tt }
    ensures { grown pool.new result ≡ inserted_at x plan (row_bytes version.now) (grown pool.old st) }
{
    let p = x.leaf;
    let here = x.place;
    let n = page::get_cell_count(page::pool::page_of(pool, p)) as usize;
    if plan.over {
        return store_divided(pool, st, x, plan, n, version);
    }
    let a = p as usize * PAGE_SIZE;
    let z = a + PAGE_SIZE;
    leaf_edit::insert_cell(&mut pool[a..z], here.at, x.end, n, version);
    st
}
