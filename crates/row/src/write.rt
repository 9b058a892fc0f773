// The writer of a cell (document 01, section 2). It is lent the part of the page that starts at the cell's offset,
// and writes from the fields and the caller's data: no buffer holds a cell.
ghost use Rattle.std.specs.Prelude.{◌≡◌, ◌+◌, ◌≤◌, ◌<◌, length};
ghost use Rattle.store.specs.Part.{put};
ghost use Rattle.row.specs.Write.{stamp_len, pointer_len, cell_size, stamp_bytes, pointer_bytes, head_bytes};
ghost use Rattle.row.specs.Row.{row_size, row_bytes};

use crate::{MVCC_ROW_PAYLOAD_FORMAT_VERSION, NewVersion, Pointer};

fn stamp_len(stamp: Option<u64>) -> usize
    ensures { result ≡ stamp_len stamp }
{
    match stamp {
        None => 1,
        Some(_) => 9,
    }
}

fn pointer_len(pointer: Option<Pointer>) -> usize
    ensures { result ≡ pointer_len pointer }
{
    match pointer {
        None => 1,
        Some(_) => 7,
    }
}

// The bytes that a version's cell takes: 19 and its data when live and unpointed, at most 33 and its data.
pub fn cell_size(stamp: Option<u64>, pointer: Option<Pointer>, len: usize) -> usize
    requires { len ≤ 4051 }
    ensures { result ≡ cell_size stamp pointer len }
{
    17 + stamp_len(stamp) + pointer_len(pointer) + len
}

impl<'a> NewVersion<'a> {
    // The bytes that its cell takes.
    pub fn size(&self) -> usize
        requires { length self.now.body ≤ 4051 }
        ensures { result ≡ row_size self.now }
    {
        cell_size(self.stamp, self.pointer, self.body.len())
    }
}

// Key, payload length, format byte and creator.
fn put_head(out: &mut [u8], key: u32, n: u32, creator: u64)
    requires { 17 ≤ length out.old }
    ensures { out.new ≡ put 0 (head_bytes key n creator) out.old }
{
    page::key::put_rank(out, 0, key);
    store::put32(out, 4, n);
    store::put8(out, 8, MVCC_ROW_PAYLOAD_FORMAT_VERSION);
    store::put64(out, 9, creator);
}

fn put_stamp(out: &mut [u8], i: usize, stamp: Option<u64>)
    requires { i + stamp_len stamp ≤ length out.old }
    ensures { out.new ≡ put i (stamp_bytes stamp) out.old }
{
    match stamp {
        None => store::put8(out, i, 0),
        Some(t) => {
            store::put8(out, i, 1);
            store::put64(out, i + 1, t);
        }
    }
}

fn put_pointer(out: &mut [u8], at: usize, pointer: Option<Pointer>)
    requires { at + pointer_len pointer ≤ length out.old }
    ensures { out.new ≡ put at (pointer_bytes pointer) out.old }
{
    match pointer {
        None => store::put8(out, at, 0),
        Some(p) => {
            store::put8(out, at, 1);
            store::put32(out, at + 1, p.page);
            store::put16(out, at + 5, p.slot);
        }
    }
}

// Writes the version's cell at the start of out, whose other bytes stay.
pub fn write_cell(out: &mut [u8], version: &NewVersion<'_>)
    requires { (length version.now.body ≤ 4051) × (row_size version.now ≤ length out.old) }
    ensures { out.new ≡ put 0 (row_bytes version.now) out.old }
{
    let a = 17 + stamp_len(version.stamp);
    let b = a + pointer_len(version.pointer);
    let payload = (b + version.body.len() - 8) as u32;
    put_head(out, version.key, payload, version.creator);
    put_stamp(out, 17, version.stamp);
    put_pointer(out, a, version.pointer);
    store::run::copy_in(out, b, version.body);
}
