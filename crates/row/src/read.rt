// The reader of a cell (document 01, section 2): it accepts exactly the bytes that a version writes, and names the
// fault of any others.
ghost use Rattle.std.specs.Prelude.{◌≡◌, ◌+◌, ◌≤◌, length};
ghost use Rattle.store.specs.Le.{le_at};
ghost use Rattle.row.specs.Read.{stamp_size, pointer_size, stamp_in, pointer_in, payload_at, cell_at};
ghost use Rattle.row.specs.Steps.Read.{head_at, end_at};

use crate::{Cell, CellFault, MAX_DATA, MVCC_ROW_PAYLOAD_FORMAT_VERSION, Pointer, Version};

fn stamp_size(flag: u8) -> usize
    ensures { result ≡ stamp_size flag }
{
    if flag == 0 { 1 } else { 9 }
}

fn pointer_size(flag: u8) -> usize
    ensures { result ≡ pointer_size flag }
{
    if flag == 0 { 1 } else { 7 }
}

fn stamp_in(s: &[u8], i: usize) -> Option<u64>
    requires { i + stamp_size (le_at 1 s.now i) ≤ length s.now }
    ensures { result ≡ stamp_in s.now i }
{
    if store::get8(s, i) == 0 {
        return None;
    }
    Some(store::get64(s, i + 1))
}

fn pointer_in(s: &[u8], i: usize) -> Option<Pointer>
    requires { i + pointer_size (le_at 1 s.now i) ≤ length s.now }
    ensures { result ≡ pointer_in s.now i }
{
    if store::get8(s, i) == 0 {
        return None;
    }
    Some(Pointer {
        page: store::get32(s, i + 1),
        slot: store::get16(s, i + 5),
    })
}

// The fields of a payload that starts at i and of which the bytes up to m are there.
fn head_at(s: &[u8], i: usize, m: usize) -> Result<(usize, usize), CellFault>
    requires { (i ≤ m) × (m ≤ length s.now) }
    ensures { result ≡ head_at s.now i m }
{
    if m - i < 1 {
        return Err(CellFault::Short);
    }
    if store::get8(s, i) != MVCC_ROW_PAYLOAD_FORMAT_VERSION {
        return Err(CellFault::Format);
    }
    if m - i < 10 {
        return Err(CellFault::Short);
    }
    let f = store::get8(s, i + 9);
    if 1 < f {
        return Err(CellFault::Flag);
    }
    let j = i + 9 + stamp_size(f);
    if m <= j {
        return Err(CellFault::Short);
    }
    let g = store::get8(s, j);
    if 1 < g {
        return Err(CellFault::Flag);
    }
    let k = j + pointer_size(g);
    if m < k {
        return Err(CellFault::Short);
    }
    Ok((j, k))
}

// The cell at that offset, if its payload is whole; past says that it goes on beyond m, where the bytes that are there end.
fn payload_at(s: &[u8], at: usize, m: usize, past: bool) -> Result<Cell, CellFault>
    requires { (at + 8 ≤ m) × (m ≤ length s.now) }
    ensures { result ≡ payload_at s.now at m past }
{
    let i = at + 8;
    let (j, k) = head_at(s, i, m)?;
    if past {
        return Err(CellFault::Short);
    }
    if MAX_DATA < m - k {
        return Err(CellFault::Long);
    }
    Ok(Cell {
        at,
        key: page::key::get_rank(s, at),
        version: Version {
            creator: store::get64(s, i + 1),
            stamp: stamp_in(s, i + 9),
            pointer: pointer_in(s, j),
            start: k,
            len: m - k,
        },
        next: m,
    })
}

// The cell at that offset of any bytes, or the first kind of fault that holds on the bytes that are there.
pub fn read_cell(s: &[u8], at: usize) -> Result<Cell, CellFault>
    ensures { result ≡ cell_at s.now at }
{
    if s.len() < 8 {
        return Err(CellFault::Short);
    }
    if s.len() - 8 < at {
        return Err(CellFault::Short);
    }
    let n = store::get32(s, at + 4) as usize;
    let i = at + 8;
    if s.len() - i < n {
        return payload_at(s, at, s.len(), true);
    }
    payload_at(s, at, i + n, false)
}

// Where the cell ends, if it can be read: a walk judges by this, and does not build the cell.
pub fn cell_end(s: &[u8], at: usize) -> Option<usize>
    ensures { result ≡ end_at s.now at }
{
    if s.len() < 8 {
        return None;
    }
    if s.len() - 8 < at {
        return None;
    }
    let n = store::get32(s, at + 4) as usize;
    let i = at + 8;
    if s.len() - i < n {
        return None;
    }
    let m = i + n;
    let Ok((_, k)) = head_at(s, i, m) else {
        return None;
    };
    if MAX_DATA < m - k {
        return None;
    }
    Some(m)
}

// Where the cell ends. Of a cell that is known to be there, as the two below: nothing is judged.
pub fn next_at(s: &[u8], at: usize) -> usize
    requires { at + 8 + le_at 4 s.now (at + 4) ≤ length s.now }
    ensures { result ≡ at + 8 + le_at 4 s.now (at + 4) }
{
    at + 8 + store::get32(s, at + 4) as usize
}

// The creator of a cell that is known to be there.
pub fn creator_at(s: &[u8], at: usize) -> u64
    requires { at + 17 ≤ length s.now }
    ensures { result ≡ le_at 8 s.now (at + 8 + 1) }
{
    store::get64(s, at + 8 + 1)
}

// The stamp of a cell that is known to be there.
pub fn stamp_at(s: &[u8], at: usize) -> Option<u64>
    requires { at + 8 + 9 + stamp_size (le_at 1 s.now (at + 8 + 9)) ≤ length s.now }
    ensures { result ≡ stamp_in s.now (at + 8 + 9) }
{
    stamp_in(s, at + 8 + 9)
}
