// What a division of a leaf leads to above it, told on the unchanged pool (document 01, sections 3, 5 and 6): which pages
// divide, how many pages are asked for, and whether every child whose parent link would be written is in use.
ghost use Rattle.std.specs.Prelude.{◌≡◌, ◌+◌, ◌-◌, ◌*◌, ◌≤◌, ◌<◌, length};
ghost use Rattle.inner.specs.Inner.{children_from};
ghost use Rattle.tree_grow.specs.Path.{page_at, pages_above};
ghost use Rattle.tree_grow.specs.Steps.Safe.{Stands};
ghost use Rattle.tree_grow.specs.Plan.{pages_asked, first_moved, relinks_in, in_use, plan_of};

use inner_edit::{KEPT_CHILDREN, KEPT_KEYS};
use row::Fault;
use tree::climb::Path;

// How many pages divide, and whether the root grows.
#[derive(Clone, Copy)]
pub struct Division {
    pub full: usize,
    pub grows: bool,
}

// Pages beside the new leaf: one for each that divides, the new top, and one more for a root that keeps its number.
#[tactic(auto, unfolding(crate::specs::Plan::pages_asked))]
pub fn pages_asked(root: u32, d: Division) -> usize
    requires { d.full ≤ 4 }
    ensures { result ≡ pages_asked root d }
{
    if !d.grows {
        return d.full;
    }
    if root == 0 {
        return d.full + 1;
    }
    d.full + 2
}

// The children i, .., i + n - 1 of a page are in use; or the fault of the first that is not.
fn links_from(pg: &[u8], used: u32, i: usize, n: usize) -> Result<(), Fault>
    requires { (length pg.now ≡ 4096) × (i + n ≤ 511) }
    ensures { result ≡ in_use used (children_from pg.now i n) }
{
    for k in i..i + n {
        let child = inner::child_at(pg, k);
        if used <= child {
            return Err(row::structural_fault(child));
        }
    }
    Ok(())
}

// Of a page that divides so, the first child that goes to the right page.
fn first_moved(i: usize) -> usize
    ensures { result ≡ first_moved i }
{
    if i < KEPT_KEYS {
        KEPT_KEYS
    } else {
        KEPT_CHILDREN
    }
}

// The children of a page that divides, with a pair to come after child i, that would get a new parent link are in use.
fn links_in(pg: &[u8], used: u32, i: usize, relocated: bool) -> Result<(), Fault>
    requires { length pg.now ≡ 4096 }
    ensures { result ≡ in_use used (relinks_in pg.now i relocated) }
{
    let first = first_moved(i);
    links_from(pg, used, first, inner::MAX_CHILDREN - first)?;
    if relocated {
        links_from(pg, used, 0, first)?;
    }
    Ok(())
}

// What a division of the path's first page leads to above it; or the fault of a child that is not in use.
pub fn plan_above(pool: &[u8], used: u32, path: Path) -> Result<Division, Fault>
    requires { (0 < path.len) × (path.len ≤ 4) × (used * 4096 ≤ length pool.now) × Stands used (page_at path 0) (pages_above path 0) pool.now }
    ensures { result ≡ plan_of pool.now used (page_at path 0) (pages_above path 0) }
{
    for full in 0..path.len - 1 {
        let p = path.pages[full + 1];
        let pg = page::pool::page_of(pool, p);
        if page::get_cell_count(pg) < inner::FULL {
            return Ok(Division { full, grows: false });
        }
        let i = inner::child_place(pg, inner::MAX_CHILDREN, path.pages[full]);
        let top = full + 2 == path.len;
        links_in(pg, used, i, top && p != 0)?;
    }
    Ok(Division {
        full: path.len - 1,
        grows: true,
    })
}
