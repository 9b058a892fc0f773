// Edits of one leaf page, in place on the lent page (document 01, sections 2 and 5; btree.rs, write_all_rows_to_leaf): one
// move of the tail and the count, zeros after the last cell, bytes 8 to 11 kept. No buffer ever holds a cell.
#![tactic(auto)]

ghost use Rattle.std.specs.Prelude.{◌≡◌, ◌+◌, ◌-◌, ◌≤◌, ◌<◌, length, Ok};
ghost use Rattle.store.specs.Le.{put_at};
ghost use Rattle.store.specs.Part.{pad, spliced};
ghost use Rattle.row.specs.Read.{cell_at};
ghost use Rattle.row.specs.Write.{stamp_len};
ghost use Rattle.row.specs.Row.{row_size, row_bytes};
ghost use Rattle.leaf_edit.specs.Steps.Edit.{gapped};
ghost use Rattle.leaf_edit.specs.Edit.{with_cell, with_stamp, without};

use row::{Cell, NewVersion};

// A gap of m bytes in the place of the bytes from a to b, of cells that end at e.
pub fn open_gap(pg: &mut [u8], a: usize, b: usize, e: usize, m: usize)
    requires { (length pg.old ≡ 4096) × (a ≤ b) × (b ≤ e) × (e ≤ 4096) × (a + m + (e - b) ≤ 4096) }
    ensures { pg.new ≡ gapped a b e m pg.old }
{
    let t = e - b;
    store::run::shift(pg, b, a + m, t);
    store::run::zero_fill(pg, a + m + t, page::PAGE_SIZE);
}

// The bytes of a new cell at `at`, of cells that end at e.
pub fn put_cell(pg: &mut [u8], at: usize, e: usize, version: &NewVersion<'_>)
    requires { (length pg.old ≡ 4096) × (at ≤ e) × (length version.now.body ≤ 4051) × (e + row_size version.now ≤ 4096) }
    ensures { pg.new ≡ pad 4096 (spliced at at e (row_bytes version.now) pg.old) }
{
    let m = version.size();
    open_gap(pg, at, at, e, m);
    row::write::write_cell(&mut pg[at..], version);
}

// A new cell at `at`, of n cells that end at e.
pub fn insert_cell(pg: &mut [u8], at: usize, e: usize, n: usize, version: &NewVersion<'_>)
    requires { (length pg.old ≡ 4096) × (12 ≤ at) × (at ≤ e) × (n < 65535) × (length version.now.body ≤ 4051) × (e + row_size version.now ≤ 4096) }
    ensures { pg.new ≡ with_cell at e n (row_bytes version.now) pg.old }
{
    put_cell(pg, at, e, version);
    page::set_cell_count(pg, (n + 1) as u16);
}

// The k cells from a to b taken out, of n cells that end at e.
pub fn take_out(pg: &mut [u8], a: usize, b: usize, k: usize, e: usize, n: usize)
    requires { (length pg.old ≡ 4096) × (12 ≤ a) × (a ≤ b) × (b ≤ e) × (e ≤ 4096) × (k ≤ n) × (n < 65536) }
    ensures { pg.new ≡ without a b k e n pg.old }
{
    open_gap(pg, a, b, e, 0);
    page::set_cell_count(pg, (n - k) as u16);
}

// The stamp of d on a live cell at `at`, whose payload is n bytes long then: 8 more, of cells that end at e.
pub fn grow_stamp(pg: &mut [u8], at: usize, e: usize, n: u32, d: u64)
    requires { (length pg.old ≡ 4096) × (at + 18 ≤ e) × (e + 8 ≤ 4096) }
    ensures { pg.new ≡ put_at 8 (put_at 1 (put_at 4 (gapped (at + 18) (at + 18) e 8 pg.old) (at + 4) n) (at + 17) 1) (at + 18) d }
{
    open_gap(pg, at + 18, at + 18, e, 8);
    store::put32(pg, at + 4, n);
    store::put8(pg, at + 17, 1);
    store::put64(pg, at + 18, d);
}

// The stamp of d on the cell c, of cells that end at e: 8 bytes more, or over the stamp that is there.
pub fn stamp_cell(pg: &mut [u8], e: usize, c: Cell, d: u64)
    requires { (length pg.old ≡ 4096) × (cell_at pg.old c.at ≡ Ok c) × (12 ≤ c.at) × (c.next ≤ e) × (e + 9 ≤ 4096 + stamp_len c.version.stamp) }
    ensures { pg.new ≡ with_stamp d e c pg.old }
{
    match c.version.stamp {
        Some(_) => {
            store::put64(pg, c.at + 18, d);
            store::run::zero_fill(pg, e, page::PAGE_SIZE);
        }
        None => grow_stamp(pg, c.at, e, (c.next - c.at) as u32, d),
    }
}
