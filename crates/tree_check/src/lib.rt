// Whether the tree is well-formed (document 01, section 3). A subtree is judged by the same function with one level less
// and its key bounds. It goes from the last child to the first, with the next link that each leaf must have, so that a
// page met again fails at once and no table of visited pages is needed.
#![tactic(auto)]

ghost use Rattle.std.specs.Prelude.{◌≡◌, ◌+◌, ◌*◌, ◌≤◌, ◌<◌, length};
ghost use Rattle.tree_check.specs.Check.{cells_within, sound_leaf, is_well_formed};
ghost use Rattle.tree_check.specs.Steps.Check.{inner_sound, check_of};

// No rank is above it.
pub const MAX_RANK: u32 = u32::MAX;

// Whether page p is a leaf that is judged well, every cell's key from lo to hi.
fn cells_within(pg: &[u8], p: u32, lo: u32, hi: u32) -> bool
    requires { length pg.now ≡ 4096 }
    ensures { result ≡ cells_within pg.now lo hi p }
{
    if page::get_node_type(pg) != page::NODE_LEAF {
        return false;
    }
    let count = page::get_cell_count(pg);
    let mut at = page::HEADER_SIZE;
    let mut k: u32 = 0;
    let mut c: u64 = 0;
    for _ in 0..count {
        let Ok(end) = leaf::next_cell(pg, p, k, c, at) else {
            return false;
        };
        k = page::key::get_rank(pg, at);
        c = row::read::creator_at(pg, at);
        if k < lo || hi < k {
            return false;
        }
        at = end;
    }
    true
}

// Whether page p is such a leaf, is in use, and has that parent.
fn sound_leaf(pool: &[u8], used: u32, parent: u32, p: u32, lo: u32, hi: u32) -> bool
    requires { used * 4096 ≤ length pool.now }
    ensures { result ≡ sound_leaf pool.now used parent p lo hi }
{
    if used <= p {
        return false;
    }
    let pg = page::pool::page_of(pool, p);
    page::get_parent(pg) == parent && cells_within(pg, p, lo, hi)
}

// How many keys page p has, if it is an internal page in use that is judged well, has that parent, and every key of which
// is from lo to hi. The keys never fall, so the first and the last tell for all.
fn sound_inner(pool: &[u8], used: u32, parent: u32, p: u32, lo: u32, hi: u32) -> Option<usize>
    requires { used * 4096 ≤ length pool.now }
    ensures { result ≡ inner_sound pool.now used parent p lo hi }
{
    if used <= p {
        return None;
    }
    let pg = page::pool::page_of(pool, p);
    if page::get_parent(pg) != parent {
        return None;
    }
    let n = inner::judge_inner(pg, p).ok()?;
    if inner::key_at(pg, 0) < lo || hi < inner::key_at(pg, n - 1) {
        return None;
    }
    Some(n)
}

// The first leaf of the subtree of page p, if that has so many levels below p, keys from lo to hi, and its parent, and
// is as it must be; its last leaf links to next.
pub fn check_subtree(
    pool: &[u8],
    used: u32,
    below: usize,
    parent: u32,
    p: u32,
    lo: u32,
    hi: u32,
    next: u32,
) -> Option<u32>
    requires { used * 4096 ≤ length pool.now }
    ensures { result ≡ check_of pool.now used below parent p lo hi next }
{
    if below == 0 {
        return check_leaf(pool, used, parent, p, lo, hi, next);
    }
    let n = sound_inner(pool, used, parent, p, lo, hi)?;
    let pg = page::pool::page_of(pool, p);
    let mut high = hi;
    let mut link = next;
    for j in (0..n).rev() {
        let child = inner::child_at(pg, j + 1);
        let low = inner::key_at(pg, j);
        link = check_subtree(pool, used, below - 1, p, child, low, high, link)?;
        if link == 0 {
            return None;
        }
        high = low;
    }
    let child = inner::child_at(pg, 0);
    check_subtree(pool, used, below - 1, p, child, lo, high, link)
}

// Page p itself, if it is a leaf that is as it must be and links to next.
fn check_leaf(
    pool: &[u8],
    used: u32,
    parent: u32,
    p: u32,
    lo: u32,
    hi: u32,
    next: u32,
) -> Option<u32>
    requires { used * 4096 ≤ length pool.now }
    ensures { result ≡ check_of pool.now used 0 parent p lo hi next }
{
    if sound_leaf(pool, used, parent, p, lo, hi)
        && page::get_next_leaf(page::pool::page_of(pool, p)) == next
    {
        return Some(p);
    }
    None
}

// Whether the tree is well-formed. Each number of levels is tried: a wrong one fails on the way to the last leaf.
pub fn check_tree(pool: &[u8], used: u32, root: u32) -> bool
    requires { used * 4096 ≤ length pool.now }
    ensures { result ≡ is_well_formed pool.now used root }
{
    for below in 0..4 {
        if check_subtree(pool, used, below, 0, root, 0, MAX_RANK, 0).is_some() {
            return true;
        }
    }
    false
}
