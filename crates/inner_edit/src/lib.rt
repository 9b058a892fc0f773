// Edits of internal pages (document 01, section 5; btree.rs, insert_in_parent and split_internal): in place on the lent
// page, and for a division right half first into the fresh page, then the left half in place.
#![tactic(auto)]

ghost use Rattle.std.specs.Prelude.{◌≡◌, ◌++◌, ℕ, ◌+◌, ◌-◌, ◌*◌, ◌≤◌, ◌<◌, length};
ghost use Rattle.store.specs.Part.{part, put, pad};
ghost use Rattle.page.specs.Page.{page, set_page};
ghost use Rattle.page.specs.Header.{cell_count, with_count, with_parent};
ghost use Rattle.inner_edit.specs.Edit.{pair_bytes, entered, with_entry, left_half, middle_key, right_half, top_page, adopted};
ghost use Rattle.inner_edit.specs.Steps.Edit.{AdoptSafe};

// A page with 511 keys keeps 255 keys and 256 children, which end at byte 2056; the middle key follows, and what goes to the
// right page is 2044 bytes from 2060 on.
pub const KEPT_KEYS: usize = 255;

pub const KEPT_CHILDREN: usize = 256;

const KEPT_END: usize = 2056;

const MOVED_START: usize = 2060;

const MOVED_BYTES: usize = 2044;

fn put_pair(s: &mut [u8], a: usize, sep: u32, child: u32)
    requires { a + 8 ≤ length s.old }
    ensures { s.new ≡ put a (pair_bytes sep child) s.old }
{
    page::key::put_rank(s, a, sep);
    store::put32(s, a + 4, child);
}

// The pair at a, and after it what stood from a up to e.
fn open_pair(pg: &mut [u8], a: usize, e: usize, sep: u32, child: u32)
    requires { (a ≤ e) × (e + 8 ≤ length pg.old) }
    ensures { pg.new ≡ put a (pair_bytes sep child ++ part a (e - a) pg.old) pg.old }
{
    store::run::shift(pg, a, a + 8, e - a);
    put_pair(pg, a, sep, child);
}

// What every edit of a page ends with: zeros after the last child, and the count.
fn finish(pg: &mut [u8], end: usize, count: u16)
    requires { (length pg.old ≡ 4096) × (end ≤ 4096) }
    ensures { pg.new ≡ with_count count (pad 4096 (part 0 end pg.old)) }
{
    store::run::zero_fill(pg, end, page::PAGE_SIZE);
    page::set_cell_count(pg, count);
}

// The pair of separator and child, directly after child i.
pub fn enter(pg: &mut [u8], i: usize, n: usize, sep: u32, child: u32)
    requires { (length pg.old ≡ 4096) × (n ≡ cell_count pg.old) × (i ≤ n) × (n < 510) }
    ensures { pg.new ≡ with_entry i sep child pg.old }
{
    let e = 16 + 8 * n;
    open_pair(pg, 16 + 8 * i, e, sep, child);
    finish(pg, e + 8, (n + 1) as u16);
}

// The new top over two children, in a page of zeros.
pub fn write_top(pg: &mut [u8], left: u32, sep: u32, right: u32)
    requires { length pg.old ≡ 4096 }
    ensures { pg.new ≡ top_page left sep right pg.old }
{
    page::set_is_root(pg, 1);
    page::set_cell_count(pg, 1);
    store::put32(pg, page::HEADER_SIZE, left);
    page::key::put_rank(pg, 16, sep);
    store::put32(pg, 20, right);
}

// Page c of the pool gets the parent q.
pub fn adopt_one(pool: &mut [u8], c: u32, q: u32)
    requires { c * 4096 + 4096 ≤ length pool.old }
    ensures { pool.new ≡ set_page c (with_parent q (page pool.old c)) pool.old }
{
    let a = c as usize * page::PAGE_SIZE;
    let e = a + page::PAGE_SIZE;
    page::set_parent(&mut pool[a..e], q);
}

// Children i, i + 1, .., i + n - 1 of page p get the parent q, in that order.
pub fn adopt(pool: &mut [u8], n: usize, i: usize, p: u32, q: u32)
    requires { (i + n ≤ 511) × (p * 4096 + 4096 ≤ length pool.old) × AdoptSafe n i p q pool.old }
    ensures { pool.new ≡ adopted n i p q pool.old }
{
    for k in i..i + n {
        let c = inner::child_at(page::pool::page_of(pool, p), k);
        adopt_one(pool, c, q);
    }
}

// The key that goes up: key 255 of the 511, whichever child stands beside the separator.
fn middle_key(pg: &[u8], i: usize, sep: u32) -> u32
    requires { (length pg.now ≡ 4096) × (i ≤ 510) × (cell_count pg.now ≡ 510) }
    ensures { (child : ℕ) → result ≡ middle_key i sep child pg.now }
{
    if i < KEPT_KEYS {
        return inner::key_at(pg, KEPT_KEYS - 1);
    }
    if i == KEPT_KEYS {
        return sep;
    }
    inner::key_at(pg, KEPT_KEYS)
}

// Bytes 2060 to 4104 of the page with the pair entered, where the pair stands among them.
fn carry_around(pool: &mut [u8], p: u32, q: u32, i: usize, sep: u32, child: u32)
    requires { (p < q) × (q * 4096 + 4096 ≤ length pool.old) × (255 < i) × (i ≤ 510) × (cell_count (page pool.old p) ≡ 510) }
    ensures { pool.new ≡ put (q * 4096 + 12) (part 2060 2044 (entered i sep child (page pool.old p))) pool.old }
{
    let from = p as usize * page::PAGE_SIZE;
    let to = q as usize * page::PAGE_SIZE + page::HEADER_SIZE;
    let k = 8 * (i - KEPT_CHILDREN) + 4;
    store::run::shift(pool, from + MOVED_START, to, k);
    put_pair(pool, to + k, sep, child);
    store::run::shift(
        pool,
        from + MOVED_START + k,
        to + k + 8,
        MOVED_BYTES - 8 - k,
    );
}

// The same bytes, wherever the pair stands. They go by offsets into the pool, since they lie in one page and go to another.
fn carry(pool: &mut [u8], p: u32, q: u32, i: usize, sep: u32, child: u32)
    requires { (p < q) × (q * 4096 + 4096 ≤ length pool.old) × (i ≤ 510) × (cell_count (page pool.old p) ≡ 510) }
    ensures { pool.new ≡ put (q * 4096 + 12) (part 2060 2044 (entered i sep child (page pool.old p))) pool.old }
{
    let from = p as usize * page::PAGE_SIZE;
    let to = q as usize * page::PAGE_SIZE + page::HEADER_SIZE;
    if i < KEPT_KEYS {
        store::run::shift(pool, from + (MOVED_START - 8), to, MOVED_BYTES);
    } else if i == KEPT_KEYS {
        store::put32(pool, to, child);
        store::run::shift(pool, from + KEPT_END, to + 4, MOVED_BYTES - 4);
    } else {
        carry_around(pool, p, q, i, sep, child);
    }
}

fn right_half(pool: &mut [u8], p: u32, q: u32, i: usize, sep: u32, child: u32)
    requires { (p < q) × (q * 4096 + 4096 ≤ length pool.old) × (i ≤ 510) × (cell_count (page pool.old p) ≡ 510) }
    ensures { pool.new ≡ set_page q (right_half i sep child (page pool.old p) (page pool.old q)) pool.old }
{
    carry(pool, p, q, i, sep, child);
    let a = q as usize * page::PAGE_SIZE;
    let e = a + page::PAGE_SIZE;
    finish(&mut pool[a..e], KEPT_END, KEPT_KEYS as u16);
}

// The first 2056 bytes of the page with the pair entered; they are as they were where the pair stands after them.
fn keep(pg: &mut [u8], i: usize, sep: u32, child: u32)
    requires { (length pg.old ≡ 4096) × (i ≤ 510) × (cell_count pg.old ≡ 510) }
    ensures { pg.new ≡ put 0 (part 0 2056 (entered i sep child pg.old)) pg.old }
{
    if i < KEPT_KEYS {
        open_pair(pg, 16 + 8 * i, KEPT_END - 8, sep, child);
    }
}

fn left_half(pg: &mut [u8], i: usize, sep: u32, child: u32)
    requires { (length pg.old ≡ 4096) × (i ≤ 510) × (cell_count pg.old ≡ 510) }
    ensures { pg.new ≡ left_half i sep child pg.old }
{
    keep(pg, i, sep, child);
    finish(pg, KEPT_END, KEPT_KEYS as u16);
}

// Page p with 510 keys and the pair after child i: 255 keys stay, 255 go to page q, and the key between them is the answer.
pub fn divide(pool: &mut [u8], p: u32, q: u32, i: usize, sep: u32, child: u32) -> u32
    requires { (p < q) × (q * 4096 + 4096 ≤ length pool.old) × (i ≤ 510) × (cell_count (page pool.old p) ≡ 510) }
    ensures value { result ≡ middle_key i sep child (page pool.old p) }
    ensures pool_after { pool.new ≡ set_page p (left_half i sep child (page pool.old p)) (set_page q (right_half i sep child (page pool.old p) (page pool.old q)) pool.old) }
{
    let middle = middle_key(page::pool::page_of(pool, p), i, sep);
    right_half(pool, p, q, i, sep, child);
    let a = p as usize * page::PAGE_SIZE;
    let e = a + page::PAGE_SIZE;
    left_half(&mut pool[a..e], i, sep, child);
    middle
}
