// The versions of one key, or all versions, in chain order (document 01, sections 2 and 4; btree.rs, versions_of and
// all_versions): in each leaf they stand together, so that a leaf's part of the listing is a run of its cells.
#![tactic(auto)]

ghost use Rattle.std.specs.Prelude.{◌≡◌, ◌+◌, ◌*◌, ◌≤◌, ◌<◌, length};
ghost use Rattle.store.specs.Part.{put};
ghost use Rattle.leaf.specs.Cells.{cells_of};
ghost use Rattle.leaf.specs.Rows.{rows_of};
ghost use Rattle.list_versions.specs.Steps.Gather.{run_of, again_of, rows_told, size_told, IsOk};
ghost use Rattle.list_versions.specs.Gather.{rows_along};
ghost use Rattle.list_records.specs.Records.{records};
ghost use Rattle.call_answers.specs.Answer.{written};
ghost use Rattle.list_versions.specs.Listed.{listed_rows, route_of, list_tree};

use call_answers::{Refusal, Refused};
use leaf::find::Run;
use row::Fault;
use tree::Route;

// The versions that are listed: all, or those of one key.
#[derive(Clone, Copy)]
pub enum Which {
    All,
    Key(u32),
}

// What a second walk over a judged leaf needs: where the run starts, how many cells it has, and whether the walk ends.
#[derive(Clone, Copy)]
pub struct Again {
    pub from: usize,
    pub count: usize,
    pub last: bool,
}

fn run_of(pg: &[u8], which: Which, p: u32) -> Result<(Run, usize, bool), Fault>
    requires { length pg.now ≡ 4096 }
    ensures { result ≡ run_of pg.now p which }
{
    match which {
        Which::Key(key) => leaf::find::run_in_leaf(pg, p, key),
        Which::All => {
            let e = leaf::judge_leaf(pg, p)?;
            let run = Run {
                from: page::HEADER_SIZE,
                to: e,
                count: page::get_cell_count(pg) as usize,
            };
            Ok((run, e, false))
        }
    }
}

// How many bytes the records along the chain from page `first` on take, every leaf judged; or the first fault.
pub fn size_along(pool: &[u8], which: Which, used: u32, first: u32) -> Result<usize, Fault>
    requires { used * 4096 ≤ length pool.now }
    ensures { result ≡ size_told (rows_along pool.now used first which) }
{
    let mut p = first;
    let mut size: usize = 0;
    for _ in 0..used {
        if used <= p {
            return Err(row::structural_fault(p));
        }
        let pg = page::pool::page_of(pool, p);
        let (run, _, larger) = run_of(pg, which, p)?;
        size = size + (run.to - run.from) + list_records::RECORD_HEAD * run.count;
        if larger {
            return Ok(size);
        }
        p = page::get_next_leaf(pg);
        if p == 0 {
            return Ok(size);
        }
    }
    Err(row::structural_fault(p))
}

// Where the run of a leaf stands that was judged before: all cells need no second look.
fn run_again(pg: &[u8], which: Which, p: u32) -> Again
    requires { length pg.now ≡ 4096 }
    ensures { result ≡ again_of pg.now p which }
{
    match which {
        Which::All => Again {
            from: page::HEADER_SIZE,
            count: page::get_cell_count(pg) as usize,
            last: false,
        },
        Which::Key(key) => match leaf::find::run_in_leaf(pg, p, key) {
            Err(_) => Again {
                from: page::HEADER_SIZE,
                count: 0,
                last: true,
            },
            Ok((run, _, larger)) => Again {
                from: run.from,
                count: run.count,
                last: larger,
            },
        },
    }
}

// Records of so many cells of the page, at offset o; answers where they end. A cell tells its own length.
fn write_run(out: &mut [u8], pg: &[u8], o: usize, from: usize, count: usize) -> usize
    requires { (length pg.now ≡ 4096) × (length (cells_of pg.now count from) ≡ count) × (o + length (records (rows_of pg.now count from)) ≤ length out.old) }
    ensures value { result ≡ o + length (records (rows_of pg.now count from)) }
    ensures out_after { out.new ≡ put o (records (rows_of pg.now count from)) out.old }
{
    let mut at = from;
    let mut to = o;
    for _ in 0..count {
        let next = at + 8 + store::get32(pg, at + 4) as usize;
        list_records::write_record(out, to, 1, &pg[at..next]);
        to = to + list_records::RECORD_HEAD + (next - at);
        at = next;
    }
    to
}

// The listing that was measured before.
pub fn write_along(pool: &[u8], out: &mut [u8], which: Which, used: u32, first: u32)
    requires { (used * 4096 ≤ length pool.now) × IsOk (rows_along pool.now used first which) × (length (records (rows_told (rows_along pool.now used first which))) ≤ length out.old) }
    ensures { out.new ≡ put 0 (records (rows_told (rows_along pool.now used first which))) out.old }
{
    let mut p = first;
    let mut o: usize = 0;
    for _ in 0..used {
        if used <= p {
            return;
        }
        let pg = page::pool::page_of(pool, p);
        let run = run_again(pg, which, p);
        o = write_run(out, pg, o, run.from, run.count);
        if run.last {
            return;
        }
        p = page::get_next_leaf(pg);
        if p == 0 {
            return;
        }
    }
}

fn route_of(which: Which) -> Route
    ensures { result ≡ route_of which }
{
    match which {
        Which::All => Route::First,
        Which::Key(key) => Route::Search(key),
    }
}

fn list_from(
    pool: &[u8],
    out: &mut [u8],
    which: Which,
    used: u32,
    first: u32,
) -> Result<usize, Refused>
    requires { used * 4096 ≤ length pool.now }
    ensures { written result out.new ≡ listed_rows (rows_along pool.now used first which) out.old }
{
    let n = size_along(pool, which, used, first)?;
    if out.len() < n {
        return Err(Refusal::Short.into());
    }
    write_along(pool, out, which, used, first);
    Ok(n)
}

// From the leaf that the way down comes to.
pub fn list_tree(
    pool: &[u8],
    out: &mut [u8],
    which: Which,
    used: u32,
    root: u32,
) -> Result<usize, Refused>
    requires { used * 4096 ≤ length pool.now }
    ensures { written result out.new ≡ list_tree pool.now used root which out.old }
{
    let first = tree::descend(pool, used, root, route_of(which))?;
    list_from(pool, out, which, used, first)
}
