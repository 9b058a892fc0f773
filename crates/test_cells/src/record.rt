// The listing record of document 01, section 2, printed in hexadecimal.
use row::NewVersion;
use std::{fmt, io};

// Bytes, shown by two digits each.
#[derive(Clone, Copy)]
struct Hexadecimal<'a>(&'a [u8]);

impl fmt::Display for Hexadecimal<'_> {
    fn fmt<W: fmt::Write>(&self, f: &mut fmt::Formatter<W>) -> fmt::Result {
        for byte in self.0 {
            write!(f, "{byte:02x}")?;
        }
        Ok(())
    }
}

// Key 7, creator 5, live, data 00 00: the length of what follows, the kind of record, and the cell.
fn listing_record() -> [u8; 27] {
    let version = NewVersion {
        key: page::key::rank_of(7),
        creator: 5,
        stamp: None,
        pointer: None,
        body: &[0; 2],
    };
    let mut record = [0u8; 27];
    store::put32(&mut record, 0, (version.size() + 2) as u32);
    store::put16(&mut record, 4, 1);
    row::write::write_cell(&mut record[6..], &version);
    record
}

// Prints the line with the listing record.
pub fn print(rt: &impl Print) -> io::Result<()> {
    println!(rt; "record {}", Hexadecimal(&listing_record()))
}
