// What happens above a page that was divided (document 01, section 5; btree.rs, insert_in_parent, split_internal and
// pin_root). The pages above come from the climb and are never read from the links again.
#![tactic(auto)]

pub mod plan;

ghost use Rattle.std.specs.Prelude.{◌≡◌, ◌+◌, ◌*◌, ◌≤◌, ◌<◌};
ghost use Rattle.page.specs.Page.{page, set_page};
ghost use Rattle.page.specs.Header.{cell_count};
ghost use Rattle.page.specs.Key.{rank_at};
ghost use Rattle.inner_edit.specs.Edit.{with_entry};
ghost use Rattle.tree_grow.specs.Path.{page_at, pages_above};
ghost use Rattle.page.specs.Pool.{grown};
ghost use Rattle.tree_grow.specs.Grow.{linked_both, top_over, enter_of, moved_to, relinked, top_in, pin_of, kept_root, settled};
ghost use Rattle.tree_grow.specs.Steps.Grow.{divide_of};
ghost use Rattle.tree_grow.specs.Steps.Safe.{There, Free, EnterSafe, DivideSafe, RelinkSafe, PinSafe, AboveSafe};

use page::PAGE_SIZE;
use page::pool::State;
use tree::climb::Path;

// Both sides of a division get the parent q.
fn link_both(pool: &mut [u8], old: u32, new: u32, q: u32)
    requires { There old pool.old × There new pool.old }
    ensures { pool.new ≡ linked_both old new q pool.old }
{
    inner_edit::adopt_one(pool, old, q);
    inner_edit::adopt_one(pool, new, q);
}

// The root has divided: a new top over its two sides is the root.
fn grow_top(pool: &mut [u8], st: State, old: u32, sep: u32, new: u32) -> State
    requires { There old pool.old × There new pool.old × Free (grown pool.old st) }
    ensures { grown pool.new result ≡ top_over old sep new (grown pool.old st) }
{
    let fresh = page::pool::allocate(pool, st);
    let start = fresh.page as usize * PAGE_SIZE;
    inner_edit::write_top(&mut pool[start..start + PAGE_SIZE], old, sep, new);
    link_both(pool, old, new, fresh.page);
    State {
        root: fresh.page,
        ..fresh.state
    }
}

// The pair directly after child i of page p, which has n keys and room for one.
fn join(pool: &mut [u8], p: u32, i: usize, n: usize, old: u32, sep: u32, new: u32)
    requires { There p pool.old × There old pool.old × There new pool.old × (n ≡ cell_count (page pool.old p)) × (i ≤ n) × (n < 510) }
    ensures { pool.new ≡ linked_both old new p (set_page p (with_entry i sep new (page pool.old p)) pool.old) }
{
    let start = p as usize * PAGE_SIZE;
    inner_edit::enter(&mut pool[start..start + PAGE_SIZE], i, n, sep, new);
    link_both(pool, old, new, p);
}

// The separator and the page new are entered above page `level` of the path.
#[cycle(insert_in_parent_split_internal)]
fn insert_in_parent(
    pool: &mut [u8],
    st: State,
    path: Path,
    level: usize,
    sep: u32,
    new: u32,
) -> State
    requires { (level < path.len) × (path.len ≤ 4) × EnterSafe (pages_above path level) (page_at path level) sep new (grown pool.old st) }
    ensures { grown pool.new result ≡ enter_of (pages_above path level) (page_at path level) sep new (grown pool.old st) }
{
    let old = path.pages[level];
    if level + 1 == path.len {
        return grow_top(pool, st, old, sep, new);
    }
    let p = path.pages[level + 1];
    let pg = page::pool::page_of(pool, p);
    let n = page::get_cell_count(pg) as usize;
    let i = inner::child_place(pg, n + 1, old);
    if n < inner::MAX_KEYS {
        join(pool, p, i, n, old, sep, new);
        return st;
    }
    inner_edit::adopt_one(pool, new, p);
    split_internal(pool, st, path, level + 1, i, sep, new)
}

// Page `at` of the path has 510 keys and a pair to come after its child i: its right half is entered above it.
#[cycle(insert_in_parent_split_internal)]
fn split_internal(
    pool: &mut [u8],
    st: State,
    path: Path,
    at: usize,
    i: usize,
    sep: u32,
    new: u32,
) -> State
    requires { (at < path.len) × (path.len ≤ 4) × DivideSafe (pages_above path at) (page_at path at) i sep new (grown pool.old st) }
    ensures { grown pool.new result ≡ divide_of (pages_above path at) (page_at path at) i sep new (grown pool.old st) }
{
    let p = path.pages[at];
    let fresh = page::pool::allocate(pool, st);
    let q = fresh.page;
    let middle = inner_edit::divide(pool, p, q, i, sep, new);
    inner_edit::adopt(pool, inner_edit::KEPT_CHILDREN, 0, q, q);
    insert_in_parent(pool, fresh.state, path, at, middle, q)
}

// The image of page `fixed` in page z, which is no root and has `fixed` as its parent.
fn move_page(pool: &mut [u8], fixed: u32, z: u32)
    requires { (fixed < z) × There z pool.old }
    ensures { pool.new ≡ moved_to fixed z pool.old }
{
    let start = z as usize * PAGE_SIZE;
    store::run::shift(pool, fixed as usize * PAGE_SIZE, start, PAGE_SIZE);
    let pg = &mut pool[start..start + PAGE_SIZE];
    page::set_is_root(pg, 0);
    page::set_parent(pg, fixed);
}

// The children of page z get it as their parent.
#[tactic(auto, unfolding(crate::specs::Grow::relinked))]
fn relink(pool: &mut [u8], z: u32)
    requires { There z pool.old × RelinkSafe z pool.old }
    ensures { pool.new ≡ relinked z pool.old }
{
    let pg = page::pool::page_of(pool, z);
    let n = page::get_cell_count(pg) as usize;
    if page::get_node_type(pg) == page::NODE_INTERNAL {
        inner_edit::adopt(pool, n + 1, 0, z, z);
    }
}

// The new top in the place of the old root, in a page cleared behind its header.
fn write_root(pool: &mut [u8], fixed: u32, left: u32, sep: u32, right: u32)
    requires { There fixed pool.old }
    ensures { pool.new ≡ set_page fixed (top_in left sep right (page pool.old fixed)) pool.old }
{
    let start = fixed as usize * PAGE_SIZE;
    let pg = &mut pool[start..start + PAGE_SIZE];
    store::run::zero_fill(pg, page::HEADER_SIZE, PAGE_SIZE);
    page::set_node_type(pg, page::NODE_INTERNAL);
    page::set_parent(pg, 0);
    inner_edit::write_top(pg, left, sep, right);
}

// The root's number stays: its old image goes to one more page, and what the new top holds goes to it.
fn pin_root(pool: &mut [u8], st: State, fixed: u32) -> State
    requires { PinSafe fixed (grown pool.old st) }
    ensures { grown pool.new result ≡ pin_of fixed (grown pool.old st) }
{
    let top = page::pool::page_of(pool, st.root);
    let sep = inner::key_at(top, 0);
    let right = inner::child_at(top, 1);
    let fresh = page::pool::allocate(pool, st);
    let z = fresh.page;
    move_page(pool, fixed, z);
    relink(pool, z);
    write_root(pool, fixed, z, sep, right);
    link_both(pool, z, right, fixed);
    State {
        root: fixed,
        ..fresh.state
    }
}

// A root other than 0 that was divided keeps its number.
#[tactic(auto, unfolding(crate::specs::Grow::kept_root))]
fn keep_root(pool: &mut [u8], st: State, original: u32) -> State
    requires { (original ≡ 0 → ⊥) → (st.root ≡ original → ⊥) → PinSafe original (grown pool.old st) }
    ensures { grown pool.new result ≡ kept_root original (grown pool.old st) }
{
    if original == 0 || st.root == original {
        return st;
    }
    pin_root(pool, st, original)
}

// The leaf at the path's start has divided, and page q is its right side, whose first key goes up.
#[tactic(auto, unfolding(crate::specs::Grow::settled))]
pub fn settle(pool: &mut [u8], st: State, path: Path, q: u32) -> State
    requires len_nonzero { (0 < path.len) × (path.len ≤ 4) × There q pool.old }
    requires above_safe { AboveSafe st.root (page_at path 0) (rank_at (page pool.old q) 12) q (pages_above path 0) (grown pool.old st) }
    ensures { grown pool.new result ≡ settled (pages_above path 0) (page_at path 0) q (grown pool.old st) }
{
    let sep = page::key::get_rank(page::pool::page_of(pool, q), page::HEADER_SIZE);
    let root = st.root;
    let after = insert_in_parent(pool, st, path, 0, sep, q);
    keep_root(pool, after, root)
}
