// What all listings share (document 01, sections 2 and 6): its records at the start of the output.
#![tactic(auto)]

ghost use Rattle.std.specs.Prelude.{◌≡◌, ◌+◌, ◌≤◌, ◌<◌, length};
ghost use Rattle.store.specs.Part.{put};
ghost use Rattle.row.specs.Write.{record_bytes};

// Length and kind before each record's content.
pub const RECORD_HEAD: usize = 6;

// A record of that kind at offset o.
pub fn write_record(out: &mut [u8], o: usize, kind: u16, content: &[u8])
    requires { (length content.now < 65536) × (o + (6 + length content.now) ≤ length out.old) }
    ensures { out.new ≡ put o (record_bytes kind content.now) out.old }
{
    store::put32(out, o, (content.len() + 2) as u32);
    store::put16(out, o + 4, kind);
    store::run::copy_in(out, o + 6, content);
}
