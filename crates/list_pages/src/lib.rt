// The listing of page numbers (document 01, section 2; btree.rs, page_numbers): a page, then its children's subtrees from
// the last child to the first. A page already listed is skipped; one that is its own ancestor is a fault. The same walk
// first counts and then writes; its table of listed pages, one bit a page, is lent down.
#![tactic(auto)]

ghost use Rattle.std.specs.Prelude.{◌≡◌, [], ◌+◌, ◌-◌, ◌*◌, ◌≤◌, ◌<◌, length};
ghost use Rattle.call_answers.specs.Answer.{written};
ghost use Rattle.list_pages.specs.Numbers.{top_at, numbers_tree};
ghost use Rattle.list_pages.specs.Steps.Table.{bit_at, with_bit, noted, line_of, line_with, cap_of, visit_of, LogEnds, log_of};

use call_answers::{Refusal, Refused};
use row::Fault;
use tree::climb::Path;

// A bit for each of 65,536 pages.
pub const TABLE: usize = 8192;

// So many pages stand above a page of the last level.
const DEEPEST: usize = 3;

// Length, kind and the page number.
pub const RECORD: usize = 10;

// Whether page p is in the table.
fn is_listed(seen: &[u8; TABLE], p: u32) -> bool
    requires { p < 65536 }
    ensures { result ≡ bit_at seen.now p }
{
    seen[(p / 8) as usize] >> (p % 8) & 1 == 1
}

// Page p into the table.
fn mark(seen: &mut [u8; TABLE], p: u32)
    requires { p < 65536 }
    ensures { seen.new ≡ with_bit seen.old p }
{
    seen[(p / 8) as usize] |= 1 << (p % 8);
}

// The pages above, the root's first, and p below them.
fn longer(above: Path, p: u32) -> Path
    requires { above.len < 4 }
    ensures { result ≡ line_with above p }
{
    let mut path = above;
    path.pages[above.len] = p;
    path.len += 1;
    path
}

// So many children of page p are to be visited, or None where it is listed already; or the fault that is met there.
fn judge_top(
    pool: &[u8],
    seen: &[u8; TABLE],
    used: u32,
    above: Path,
    p: u32,
) -> Result<Option<usize>, Fault>
    requires { (used * 4096 ≤ length pool.now) × (used ≤ 65536) × (above.len ≤ 3) }
    ensures { result ≡ top_at pool.now used (3 - above.len) (line_of above) (bit_at seen.now p) p }
{
    if used <= p || above.pages[..above.len].contains(&p) {
        return Err(row::structural_fault(p));
    }
    if is_listed(seen, p) {
        return Ok(None);
    }
    let pg = page::pool::page_of(pool, p);
    if page::get_node_type(pg) == page::NODE_LEAF {
        return Ok(Some(0));
    }
    if above.len == DEEPEST {
        return Err(row::structural_fault(p));
    }
    let keys = inner::judge_inner(pg, p)?;
    Ok(Some(keys + 1))
}

// The record is written where there is room for it: in the first walk there is none.
fn note(seen: &mut [u8; TABLE], out: &mut [u8], count: usize, p: u32)
    requires { (p < 65536) × (count < 4294967296) }
    ensures { log_of (count + 1) seen.new out.new ≡ noted p (log_of count seen.old out.old) }
{
    mark(seen, p);
    let o = count * RECORD;
    if o + RECORD <= out.len() {
        list_records::write_record(out, o, 5, &p.to_le_bytes());
    }
}

// Page p and what is below it; answers how many pages are listed then.
fn visit(
    pool: &[u8],
    seen: &mut [u8; TABLE],
    out: &mut [u8],
    used: u32,
    above: Path,
    count: usize,
    p: u32,
) -> Result<usize, Fault>
    requires { (used * 4096 ≤ length pool.now) × (used ≤ 65536) × (above.len ≤ 3) × (count + cap_of (3 - above.len) ≤ 4294967296) }
    ensures { LogEnds result seen.new out.new (visit_of pool.now used (3 - above.len) (line_of above) (log_of count seen.old out.old) p) }
{
    let Some(kids) = judge_top(pool, seen, used, above, p)? else {
        return Ok(count);
    };
    note(seen, out, count, p);
    let path = longer(above, p);
    let mut listed = count + 1;
    for j in (0..kids).rev() {
        let child = inner::child_at(page::pool::page_of(pool, p), j);
        listed = visit(pool, seen, out, used, path, listed, child)?;
    }
    Ok(listed)
}

// The tree's pages from the root, into the table and the output.
fn walk(
    pool: &[u8],
    seen: &mut [u8; TABLE],
    out: &mut [u8],
    used: u32,
    root: u32,
) -> Result<usize, Fault>
    requires { (used * 4096 ≤ length pool.now) × (used ≤ 65536) }
    ensures { LogEnds result seen.new out.new (visit_of pool.now used 3 [] (log_of 0 seen.old out.old) root) }
{
    let above = Path {
        pages: [0u32; 4],
        len: 0,
    };
    visit(pool, seen, out, used, above, 0, root)
}

// The records of the tree's page numbers at the start of the output, and their length; or Short, or the first
// fault, and then nothing is written.
pub fn list_numbers(pool: &[u8], out: &mut [u8], used: u32, root: u32) -> Result<usize, Refused>
    requires { (used * 4096 ≤ length pool.now) × (used ≤ 65536) }
    ensures { written result out.new ≡ numbers_tree pool.now used root out.old }
{
    let mut seen = [0u8; TABLE];
    let counted = walk(pool, &mut seen, &mut [], used, root)?;
    if out.len() < counted * RECORD {
        return Err(Refusal::Short.into());
    }
    seen.fill(0);
    let listed = walk(pool, &mut seen, out, used, root)?;
    Ok(listed * RECORD)
}
