// An internal page (document 01, sections 2, 3 and 5; btree.rs): its keys and children, its judgement, and the
// child that a key leads to. Crate `inner_edit` enters, divides and makes internal pages.
#![tactic(auto)]

ghost use Rattle.std.specs.Prelude.{◌≡◌, true, ◌≤◌, ◌<◌, leb, length};
ghost use Rattle.inner.specs.Inner.{key_at, child_at, keys_from, children_from, never_falls, judge_inner};
ghost use Rattle.inner.specs.Route.{first_where, search_route, insert_route, child_place};

use row::Fault;

// An internal page has at most so many keys and children; one more key divides it.
pub const MAX_KEYS: usize = 510;

pub const MAX_CHILDREN: usize = 511;

pub const FULL: u16 = 510;

// Key i of the page, by its rank: the separator between children i and i + 1.
pub fn key_at(pg: &[u8], i: usize) -> u32
    requires { (i < 510) × (length pg.now ≡ 4096) }
    ensures { result ≡ key_at pg.now i }
{
    page::key::get_rank(pg, 16 + 8 * i)
}

// Child i of the page: a page number, of which nothing is judged here.
pub fn child_at(pg: &[u8], i: usize) -> u32
    requires { (i ≤ 510) × (length pg.now ≡ 4096) }
    ensures { result ≡ child_at pg.now i }
{
    store::get32(pg, page::HEADER_SIZE + 8 * i)
}

// A flag and no way out of the loop, so that the compiler takes several keys at a time: this runs on every descent.
fn never_falls(pg: &[u8], n: usize) -> bool
    requires { (n ≤ 510) × (length pg.now ≡ 4096) }
    ensures { result ≡ never_falls 0 (keys_from pg.now 0 n) }
{
    let mut ok = true;
    let mut last = 0;
    for i in 0..n {
        let key = key_at(pg, i);
        ok &= last <= key;
        last = key;
    }
    ok
}

// How many keys page p has, if it is internal, with 1 to 510 keys that never fall; otherwise its fault.
pub fn judge_inner(pg: &[u8], p: u32) -> Result<usize, Fault>
    requires { length pg.now ≡ 4096 }
    ensures { result ≡ judge_inner pg.now p }
{
    let bad = row::structural_fault(p);
    let n = page::get_cell_count(pg) as usize;
    if page::get_node_type(pg) != page::NODE_INTERNAL {
        return Err(bad);
    }
    if n < 1 {
        return Err(bad);
    }
    if MAX_KEYS < n {
        return Err(bad);
    }
    if never_falls(pg, n) {
        return Ok(n);
    }
    Err(bad)
}

// The first of the n keys that is at least the bound, by halves: the keys never fall.
fn first_from(pg: &[u8], n: usize, bound: u64) -> usize
    requires { (n ≤ 510) × (length pg.now ≡ 4096) × (never_falls 0 (keys_from pg.now 0 n) ≡ true) }
    ensures { (result ≡ first_where (leb bound) (keys_from pg.now 0 n)) × (result ≤ n) }
{
    // A pair is a key and the child after it.
    let (pairs, _) = pg[16..16 + 8 * n].as_chunks::<8>();
    pairs.partition_point(|pair| (page::key::get_rank(pair, 0) as u64) < bound)
}

// The place of the child that search goes to: left on key ≤ separator.
pub fn leftmost_child_for_key(pg: &[u8], n: usize, key: u32) -> usize
    requires { (n ≤ 510) × (length pg.now ≡ 4096) × (never_falls 0 (keys_from pg.now 0 n) ≡ true) }
    ensures { (result ≡ search_route key (keys_from pg.now 0 n)) × (result ≤ n) }
{
    first_from(pg, n, key as u64)
}

// The place of the child that insertion goes to: left only on key < separator.
pub fn child_for_key(pg: &[u8], n: usize, key: u32) -> usize
    requires { (n ≤ 510) × (length pg.now ≡ 4096) × (never_falls 0 (keys_from pg.now 0 n) ≡ true) }
    ensures { (result ≡ insert_route key (keys_from pg.now 0 n)) × (result ≤ n) }
{
    first_from(pg, n, key as u64 + 1)
}

// The first place of a child among n children, or n.
pub fn child_place(pg: &[u8], n: usize, child: u32) -> usize
    requires { (n ≤ 511) × (length pg.now ≡ 4096) }
    ensures { (result ≡ child_place child (children_from pg.now 0 n)) × (result ≤ n) }
{
    for i in 0..n {
        if child_at(pg, i) == child {
            return i;
        }
    }
    n
}
