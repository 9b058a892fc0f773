// The second pass of the visible listing, over leaves that were judged: fields are read by their places, nothing is judged
// again, and a version that waits is four numbers (document 01, section 4; btree.rs, scan_visible).
ghost use Rattle.std.specs.Prelude.{◌≡◌, ◌+◌, ◌*◌, ◌-◌, ◌≤◌, ◌<◌, length};
ghost use Rattle.store.specs.Le.{le_at};
ghost use Rattle.store.specs.Part.{put};
ghost use Rattle.page.specs.Key.{rank_at};
ghost use Rattle.page.specs.Page.{page};
ghost use Rattle.row.specs.Read.{stamp_size, stamp_in};
ghost use Rattle.mvcc.specs.Snapshot.{lookup};
ghost use Rattle.mvcc.specs.Rules.{visible};
ghost use Rattle.leaf.specs.Cells.{cells};
ghost use Rattle.call_answers.specs.Answer.{written};
ghost use Rattle.list_visible.specs.Steps.Fast.{record_size, step_from, scan_leaf, full_size, wait_bytes, pushed_by, pushed_all, pass_leaf, pass_along, pass_bytes, passed, WasJudged, Whole, Waits, Through, PassFits};

use mvcc::{JudgedSnapshot, JudgedStatuses};

// A version that is chosen for its key: where its cell lies in the pool.
#[derive(Clone, Copy)]
pub struct Chosen {
    pub from: usize,
    pub to: usize,
    pub key: u32,
    pub creator: u64,
}

// What waits for another key, and the length of what is listed before it.
#[derive(Clone, Copy)]
pub struct Scan {
    pub wait: Option<Chosen>,
    pub size: usize,
}

// How long its record is.
fn record_size(x: Chosen) -> usize
    requires { (x.from ≤ x.to) × (x.to - x.from ≤ 4096) }
    ensures { result ≡ record_size x }
{
    list_records::RECORD_HEAD + (x.to - x.from)
}

// The cell at `at` of the page whose first byte is the pool's byte `base`.
fn chosen_at(pg: &[u8], base: usize, at: usize, end: usize) -> Chosen
    requires { (at + 17 ≤ length pg.now) × (base + at ≤ 9223372036854775807) × (base + end ≤ 9223372036854775807) }
    ensures { result ≡ record { from = base + at; to = base + end; key = rank_at pg.now at; creator = le_at 8 pg.now (at + 8 + 1) } }
{
    Chosen {
        from: base + at,
        to: base + end,
        key: page::key::get_rank(pg, at),
        creator: row::read::creator_at(pg, at),
    }
}

fn visible_at(
    pg: &[u8],
    snapshot: &JudgedSnapshot<'_>,
    statuses: &JudgedStatuses<'_>,
    at: usize,
) -> bool
    requires { at + 8 + 9 + stamp_size (le_at 1 pg.now (at + 8 + 9)) ≤ length pg.now }
    ensures { result ≡ visible snapshot.now (lookup statuses.now) (le_at 8 pg.now (at + 8 + 1)) (stamp_in pg.now (at + 8 + 9)) }
{
    let creator = row::read::creator_at(pg, at);
    let stamp = row::read::stamp_at(pg, at);
    snapshot.sees(statuses, creator, stamp)
}

// A visible version: of one key the larger creator waits, on a tie the first; another key lists what waited.
fn step(sc: Scan, x: Chosen) -> Scan
    requires { Whole sc.wait × (sc.size ≤ 9223372036854775807) }
    ensures { result ≡ step_from sc.wait sc x }
{
    match sc.wait {
        Some(o) if o.key != x.key => Scan {
            wait: Some(x),
            size: sc.size + record_size(o),
        },
        Some(o) if x.creator <= o.creator => sc,
        _ => Scan {
            wait: Some(x),
            ..sc
        },
    }
}

// The record of what waits, at offset o of the output.
fn write_wait(pool: &[u8], out: &mut [u8], o: usize, wait: Option<Chosen>)
    requires { Waits wait pool.now × (o + length (wait_bytes wait pool.now) ≤ length out.old) }
    ensures { out.new ≡ put o (wait_bytes wait pool.now) out.old }
{
    if let Some(x) = wait {
        list_records::write_record(out, o, 1, &pool[x.from..x.to]);
    }
}

// A visible version writes what it makes listed.
fn push(pool: &[u8], out: &mut [u8], sc: Scan, x: Chosen) -> Scan
    requires { Waits sc.wait pool.now × (sc.size + length (pushed_by sc.wait x pool.now) ≤ length out.old) × (sc.size ≤ 9223372036854775807) }
    ensures { written result out.new ≡ written (step_from sc.wait sc x) (put sc.size (pushed_by sc.wait x pool.now) out.old) }
{
    if sc.wait.is_some_and(|o| o.key != x.key) {
        write_wait(pool, out, sc.size, sc.wait);
    }
    step(sc, x)
}

fn full_size(sc: Scan) -> usize
    requires { Whole sc.wait × (sc.size ≤ 9223372036854775807) }
    ensures { result ≡ full_size sc }
{
    match sc.wait {
        None => sc.size,
        Some(x) => sc.size + record_size(x),
    }
}

fn measure_leaf(
    pool: &[u8],
    used: u32,
    p: u32,
    snapshot: &JudgedSnapshot<'_>,
    statuses: &JudgedStatuses<'_>,
    sc: Scan,
) -> Scan
    requires { (used * 4096 ≤ length pool.now) × (p < used) × WasJudged p (page pool.now p) × Whole sc.wait × (sc.size ≤ 4611686018427387904) }
    ensures { result ≡ scan_leaf (page pool.now p) p snapshot.now (lookup statuses.now) sc }
{
    let pg = page::pool::page_of(pool, p);
    let base = p as usize * page::PAGE_SIZE;
    let count = page::get_cell_count(pg);
    let mut at = page::HEADER_SIZE;
    let mut here = sc;
    for _ in 0..count {
        let end = row::read::next_at(pg, at);
        if visible_at(pg, snapshot, statuses, at) {
            here = step(here, chosen_at(pg, base, at, end));
        }
        at = end;
    }
    here
}

// The length of the listing, where the output may be too short for it.
pub fn measure(
    pool: &[u8],
    used: u32,
    first: u32,
    snapshot: &JudgedSnapshot<'_>,
    statuses: &JudgedStatuses<'_>,
) -> usize
    requires { (used * 4096 ≤ length pool.now) × Through (pass_along pool.now used first snapshot.now (lookup statuses.now)) pool.now }
    ensures { result ≡ length (pass_bytes pool.now (pass_along pool.now used first snapshot.now (lookup statuses.now))) }
{
    let mut p = first;
    let mut here = Scan {
        wait: None,
        size: 0,
    };
    for _ in 0..used {
        here = measure_leaf(pool, used, p, snapshot, statuses, here);
        p = page::get_next_leaf(page::pool::page_of(pool, p));
        if p == 0 {
            return full_size(here);
        }
    }
    unreachable!()
}

fn write_leaf(
    pool: &[u8],
    used: u32,
    p: u32,
    snapshot: &JudgedSnapshot<'_>,
    statuses: &JudgedStatuses<'_>,
    out: &mut [u8],
    sc: Scan,
) -> Scan
    requires { (used * 4096 ≤ length pool.now) × (p < used) × WasJudged p (page pool.now p) × Waits sc.wait pool.now × (sc.size + length (pushed_all snapshot.now (lookup statuses.now) p sc (cells (page pool.now p)) pool.now) ≤ length out.old) × (sc.size + length (pushed_all snapshot.now (lookup statuses.now) p sc (cells (page pool.now p)) pool.now) ≤ 9223372036854775807) }
    ensures { written result out.new ≡ pass_leaf pool.now p snapshot.now (lookup statuses.now) sc out.old }
{
    let pg = page::pool::page_of(pool, p);
    let base = p as usize * page::PAGE_SIZE;
    let count = page::get_cell_count(pg);
    let mut at = page::HEADER_SIZE;
    let mut here = sc;
    for _ in 0..count {
        let end = row::read::next_at(pg, at);
        if visible_at(pg, snapshot, statuses, at) {
            here = push(pool, out, here, chosen_at(pg, base, at, end));
        }
        at = end;
    }
    here
}

// The listing, for which there is room, and its length.
pub fn write_scan(
    pool: &[u8],
    used: u32,
    first: u32,
    snapshot: &JudgedSnapshot<'_>,
    statuses: &JudgedStatuses<'_>,
    out: &mut [u8],
) -> usize
    requires { (used * 4096 ≤ length pool.now) × PassFits (pass_along pool.now used first snapshot.now (lookup statuses.now)) pool.now out.old }
    ensures { written result out.new ≡ passed (pass_bytes pool.now (pass_along pool.now used first snapshot.now (lookup statuses.now))) out.old }
{
    let mut p = first;
    let mut here = Scan {
        wait: None,
        size: 0,
    };
    for _ in 0..used {
        here = write_leaf(pool, used, p, snapshot, statuses, out, here);
        p = page::get_next_leaf(page::pool::page_of(pool, p));
        if p == 0 {
            write_wait(pool, out, here.size, here.wait);
            return full_size(here);
        }
    }
    unreachable!()
}
