// A version stamped in the tree (document 01, sections 3 and 5; btree.rs, mark_deleted_visible): what its leaf has beside
// it, what writing that leaf would take, told before any store, and the stores.
#![tactic(auto)]

pub mod ready;

ghost use Rattle.std.specs.Prelude.{◌≡◌, true, Ok, ◌+◌, ◌-◌, ◌*◌, ◌/◌, ◌≤◌, ◌<◌, length};
ghost use Rattle.store.specs.Part.{zeros};
ghost use Rattle.page.specs.Page.{page};
ghost use Rattle.page.specs.Header.{cell_count};
ghost use Rattle.page.specs.Pool.{good_pool, grown};
ghost use Rattle.leaf.specs.Cells.{cells};
ghost use Rattle.leaf_divide.specs.Divide.{divided};
ghost use Rattle.tree_room.specs.Room.{room_of};
ghost use Rattle.tree_room.specs.Up.{divided_up};
ghost use Rattle.tree_stamp.specs.Target.{beside_of, target_of};
ghost use Rattle.tree_stamp.specs.Steps.Target.{CellMet};
ghost use Rattle.tree_stamp.specs.Stamp.{longer, bytes_stamped, cut_stamped, stamp_plan, spliced_stamp, stamped_at};
ghost use Rattle.tree_stamp.specs.Steps.Stamp.{StampCutStands};

use leaf::place::Cut;
use page::PAGE_SIZE;
use page::pool::State;
use row::{Cell, Fault};
use tree_room::Planned;

// How many cells stand before a cell, and where all of them end.
#[derive(Clone, Copy)]
pub struct Beside {
    pub before: usize,
    pub end: usize,
}

// The cell that is to be stamped, in its leaf.
#[derive(Clone, Copy)]
pub struct Target {
    pub leaf: u32,
    pub cell: Cell,
    pub beside: Beside,
}

fn beside_cell(pg: &[u8], at: usize) -> Beside
    requires { length pg.now ≡ 4096 }
    ensures { result ≡ beside_of at (cells pg.now) }
{
    let count = page::get_cell_count(pg);
    let mut before: usize = 0;
    let mut end: usize = page::HEADER_SIZE;
    for _ in 0..count {
        let Some(next) = row::read::cell_end(pg, end) else {
            return Beside { before, end };
        };
        if end < at {
            before += 1;
        }
        end = next;
    }
    Beside { before, end }
}

// The cell c of page p, as a lookup found it.
pub fn target_at(pool: &[u8], p: u32, c: Cell) -> Target
    requires { p * 4096 + 4096 ≤ length pool.now }
    ensures { result ≡ target_of (page pool.now p) p c }
{
    Target {
        leaf: p,
        cell: c,
        beside: beside_cell(page::pool::page_of(pool, p), c.at),
    }
}

fn longer_by(c: Cell) -> usize
    ensures { result ≡ longer c }
{
    match c.version.stamp {
        None => 8,
        Some(_) => 0,
    }
}

// The bytes of all the leaf's cells, with the target stamped: over 4084 the leaf divides.
pub fn bytes_stamped(t: Target) -> usize
    requires { (12 ≤ t.beside.end) × (t.beside.end ≤ 4096) }
    ensures { result ≡ bytes_stamped t }
{
    t.beside.end - page::HEADER_SIZE + longer_by(t.cell)
}

fn cut_at(pool: &[u8], t: Target) -> Cut
    requires { (t.leaf * 4096 + 4096 ≤ length pool.now) × (12 ≤ t.beside.end) × (t.beside.end ≤ 4096) × (12 ≤ t.cell.at) × (t.cell.at ≤ t.cell.next) × (t.cell.next ≤ 4096) × (t.beside.before < cell_count (page pool.now t.leaf)) × (cell_count (page pool.now t.leaf) < 16384) }
    ensures { result ≡ cut_stamped (page pool.now t.leaf) t }
{
    let pg = page::pool::page_of(pool, t.leaf);
    let c = t.cell;
    let before = t.beside.before;
    let after = page::get_cell_count(pg) as usize - (before + 1);
    let m = c.next - c.at + longer_by(c);
    leaf::place::cut_leaf(pg, bytes_stamped(t), before, c.next, after, m)
}

// What stamping it would take.
#[tactic(auto, using(tree_room::proofs::Rooming::plan_uncut), unfolding(crate::specs::Stamp::stamp_plan))]
pub fn plan_stamp(pool: &[u8], st: State, t: Target) -> Result<Planned, Fault>
    requires { (st.used * 4096 ≤ length pool.now) × CellMet st.used t.leaf t.cell pool.now × (t ≡ target_of (page pool.now t.leaf) t.leaf t.cell) }
    ensures { result ≡ stamp_plan pool.now st t }
{
    if page::LEAF_ROOM < bytes_stamped(t) {
        let cut = cut_at(pool, t);
        return tree_room::plan_leaf(pool, st, t.leaf, true, cut);
    }
    tree_room::plan_leaf(pool, st, t.leaf, false, Cut { cells: 0, bytes: 0 })
}

// The leaf with the cell stamped divides at the cut: page q takes the right side.
fn divide_at(pool: &mut [u8], t: Target, q: u32, n: usize, cut: Cut, d: u64)
    requires { (t.leaf < q) × (q * 4096 + 4096 ≤ length pool.old) × (page pool.old q ≡ zeros 4096) × StampCutStands t n cut (page pool.old t.leaf) }
    ensures { pool.new ≡ divided t.leaf q n cut (spliced_stamp d t (page pool.old t.leaf)) pool.old }
{
    let end = t.beside.end;
    if cut.cells <= t.beside.before {
        leaf_divide::stamp_divide_right(pool, t.leaf, q, end, n, cut, t.cell, d);
    } else {
        leaf_divide::stamp_divide_left(pool, t.leaf, q, end, n, cut, t.cell, d);
    }
}

fn store_divided(pool: &mut [u8], st: State, t: Target, plan: Planned, n: usize, d: u64) -> State
    requires st_value { (good_pool pool.old st ≡ true) × (n ≡ cell_count (page pool.old t.leaf)) × (plan.over ≡ true) }
    requires cell_met { CellMet st.used t.leaf t.cell pool.old × (t ≡ target_of (page pool.old t.leaf) t.leaf t.cell) }
    requires t_value { (stamp_plan pool.old st t ≡ Ok plan) × (room_of (length pool.old / 4096) st (bytes_stamped t) plan ≡ Ok tt) }
    ensures { grown pool.new result ≡ divided_up plan t.leaf n (spliced_stamp d t (page pool.old t.leaf)) (grown pool.old st) }
{
    let fresh = page::pool::allocate(pool, st);
    divide_at(pool, t, fresh.page, n, plan.cut, d);
    tree_grow::settle(pool, fresh.state, plan.path, fresh.page)
}

// The stamp of d, as planned.
pub fn store_stamp(pool: &mut [u8], st: State, t: Target, plan: Planned, d: u64) -> State
    requires st_value { good_pool pool.old st ≡ true }
    requires cell_met { CellMet st.used t.leaf t.cell pool.old × (t ≡ target_of (page pool.old t.leaf) t.leaf t.cell) }
    requires t_value { (stamp_plan pool.old st t ≡ Ok plan) × (room_of (length pool.old / 4096) st (bytes_stamped t) plan ≡ Ok tt) }
    ensures { grown pool.new result ≡ stamped_at d t plan (grown pool.old st) }
{
    if plan.over {
        let n = page::get_cell_count(page::pool::page_of(pool, t.leaf)) as usize;
        return store_divided(pool, st, t, plan, n, d);
    }
    let start = t.leaf as usize * PAGE_SIZE;
    let pg = &mut pool[start..start + PAGE_SIZE];
    leaf_edit::stamp_cell(pg, t.beside.end, t.cell, d);
    st
}
