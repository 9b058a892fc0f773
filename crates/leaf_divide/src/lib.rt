// A leaf divided over two pages of the pool (document 01, section 5; btree.rs, split_leaf): page p keeps the left side,
// page q, fresh, takes the right side. The leaf is parted as it stands, and what overfilled it, a new cell or a stamp,
// is then done on the side where it falls, so that no image of the overfull leaf and no buffer of a cell is needed.
#![tactic(auto)]

ghost use Rattle.std.specs.Prelude.{◌≡◌, ◌++◌, ◌+◌, ◌-◌, ◌*◌, ◌≤◌, ◌<◌, length, Some, None, Ok};
ghost use Rattle.store.specs.Part.{part, pad, spliced, zeros};
ghost use Rattle.page.specs.Page.{page, set_page};
ghost use Rattle.page.specs.Header.{next_leaf, with_node_type, with_count, with_next_leaf};
ghost use Rattle.row.specs.Read.{cell_at};
ghost use Rattle.row.specs.Write.{cell_bytes};
ghost use Rattle.row.specs.Row.{row_size, row_bytes};
ghost use Rattle.leaf_divide.specs.Divide.{divided};

use leaf::place::Cut;
use page::PAGE_SIZE;
use row::{Cell, NewVersion};

// The cells of page p that stand from c to e, moved into page q, which becomes a leaf.
fn part_leaf(pool: &mut [u8], p: u32, q: u32, c: usize, e: usize)
    requires { (p < q) × (q * 4096 + 4096 ≤ length pool.old) × (page pool.old q ≡ zeros 4096) × (12 ≤ c) × (c ≤ e) × (e ≤ 4096) }
    ensures { pool.new ≡ set_page p (pad 4096 (part 0 c (page pool.old p))) (set_page q (pad 4096 (part 0 12 (with_node_type 1 (page pool.old q)) ++ part c (e - c) (page pool.old p))) pool.old) }
{
    let a = p as usize * PAGE_SIZE;
    let b = q as usize * PAGE_SIZE;
    store::put8(pool, b, 1);
    store::run::shift(pool, a + c, b + page::HEADER_SIZE, e - c);
    store::run::zero_fill(pool, a + c, a + PAGE_SIZE);
}

// Counts k and r, and the links: page p to page q, page q to what was next.
fn link_leaves(pool: &mut [u8], p: u32, q: u32, k: usize, r: usize)
    requires { (p < q) × (q * 4096 + 4096 ≤ length pool.old) × (k < 65536) × (r < 65536) }
    ensures { pool.new ≡ set_page p (with_next_leaf q (with_count k (page pool.old p))) (set_page q (with_next_leaf (next_leaf (page pool.old p)) (with_count r (page pool.old q))) pool.old) }
{
    let a = p as usize * PAGE_SIZE;
    let b = q as usize * PAGE_SIZE;
    store::put16(pool, b + 6, r as u16);
    store::put32(pool, b + 8, store::get32(pool, a + 8));
    store::put16(pool, a + 6, k as u16);
    store::put32(pool, a + 8, q);
}

// A new cell put in at `at`, of n cells of page p that end at e; it falls on the right side of the cut.
pub fn insert_divide_right(
    pool: &mut [u8],
    p: u32,
    q: u32,
    at: usize,
    e: usize,
    n: usize,
    cut: Cut,
    version: &NewVersion<'_>,
)
    requires p_lt_q { (p < q) × (q * 4096 + 4096 ≤ length pool.old) × (page pool.old q ≡ zeros 4096) }
    requires bytes_bound { (12 + cut.bytes ≤ at) × (at ≤ e) × (e ≤ 4096) × (n < 65535) × (cut.cells ≤ n + 1) }
    requires body_len_bound { (length version.now.body ≤ 4051) × (e + row_size version.now ≤ 4096 + cut.bytes) }
    ensures { pool.new ≡ divided p q (n + 1) cut (spliced at at e (row_bytes version.now) (page pool.old p)) pool.old }
{
    part_leaf(pool, p, q, page::HEADER_SIZE + cut.bytes, e);
    let b = q as usize * PAGE_SIZE;
    let z = b + PAGE_SIZE;
    leaf_edit::put_cell(&mut pool[b..z], at - cut.bytes, e - cut.bytes, version);
    link_leaves(pool, p, q, cut.cells, n + 1 - cut.cells);
}

// The same, where the new cell falls on the left side.
pub fn insert_divide_left(
    pool: &mut [u8],
    p: u32,
    q: u32,
    at: usize,
    e: usize,
    n: usize,
    cut: Cut,
    version: &NewVersion<'_>,
)
    requires p_lt_q { (p < q) × (q * 4096 + 4096 ≤ length pool.old) × (page pool.old q ≡ zeros 4096) }
    requires at_bound { (12 ≤ at) × (e ≤ 4096) × (12 + cut.bytes ≤ 4096) × (n < 65535) × (cut.cells ≤ n + 1) × (length version.now.body ≤ 4051) }
    requires body_bound { (at + row_size version.now ≤ 12 + cut.bytes) × (12 + cut.bytes ≤ e + row_size version.now) }
    ensures { pool.new ≡ divided p q (n + 1) cut (spliced at at e (row_bytes version.now) (page pool.old p)) pool.old }
{
    let mid = page::HEADER_SIZE + cut.bytes - version.size();
    part_leaf(pool, p, q, mid, e);
    let a = p as usize * PAGE_SIZE;
    let z = a + PAGE_SIZE;
    leaf_edit::put_cell(&mut pool[a..z], at, mid, version);
    link_leaves(pool, p, q, cut.cells, n + 1 - cut.cells);
}

// The live cell c, of n cells of page p that end at e, stamped by d: 8 bytes more; it falls on the right side of the cut.
pub fn stamp_divide_right(
    pool: &mut [u8],
    p: u32,
    q: u32,
    e: usize,
    n: usize,
    cut: Cut,
    c: Cell,
    d: u64,
)
    requires p_lt_q { (p < q) × (q * 4096 + 4096 ≤ length pool.old) × (page pool.old q ≡ zeros 4096) }
    requires at_value { (cell_at (page pool.old p) c.at ≡ Ok c) × (c.version.stamp ≡ None) × (c.next ≤ e) × (e ≤ 4096) }
    requires bytes_bound { (12 + cut.bytes ≤ c.at) × (e + 8 ≤ 4096 + cut.bytes) × (n < 65536) × (cut.cells ≤ n) }
    ensures { pool.new ≡ divided p q n cut (spliced c.at c.next e (cell_bytes c.key c.version.creator (Some d) c.version.pointer (part c.version.start c.version.len (page pool.old p))) (page pool.old p)) pool.old }
{
    part_leaf(pool, p, q, page::HEADER_SIZE + cut.bytes, e);
    let b = q as usize * PAGE_SIZE;
    let z = b + PAGE_SIZE;
    leaf_edit::grow_stamp(
        &mut pool[b..z],
        c.at - cut.bytes,
        e - cut.bytes,
        (c.next - c.at) as u32,
        d,
    );
    link_leaves(pool, p, q, cut.cells, n - cut.cells);
}

// The same, where the stamped cell falls on the left side.
pub fn stamp_divide_left(
    pool: &mut [u8],
    p: u32,
    q: u32,
    e: usize,
    n: usize,
    cut: Cut,
    c: Cell,
    d: u64,
)
    requires p_lt_q { (p < q) × (q * 4096 + 4096 ≤ length pool.old) × (page pool.old q ≡ zeros 4096) }
    requires at_value { (cell_at (page pool.old p) c.at ≡ Ok c) × (c.version.stamp ≡ None) × (12 ≤ c.at) × (e ≤ 4096) }
    requires next_bound { (c.next + 8 ≤ 12 + cut.bytes) × (12 + cut.bytes ≤ e + 8) × (12 + cut.bytes ≤ 4096) × (n < 65536) × (cut.cells ≤ n) }
    ensures { pool.new ≡ divided p q n cut (spliced c.at c.next e (cell_bytes c.key c.version.creator (Some d) c.version.pointer (part c.version.start c.version.len (page pool.old p))) (page pool.old p)) pool.old }
{
    let mid = page::HEADER_SIZE + cut.bytes - 8;
    part_leaf(pool, p, q, mid, e);
    let a = p as usize * PAGE_SIZE;
    let z = a + PAGE_SIZE;
    leaf_edit::grow_stamp(&mut pool[a..z], c.at, mid, (c.next - c.at) as u32, d);
    link_leaves(pool, p, q, cut.cells, n - cut.cells);
}
