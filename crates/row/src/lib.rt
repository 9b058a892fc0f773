// A version and its cell in a leaf (document 01, section 2; row.rs): what a cell holds, read and written.
// The reader takes any bytes at any offset and answers the cell or the kind of its fault.
//
// The cell of a version, at an offset of its leaf. The payload is all that follows its own length:
//
//     0         4          8     9           17           18 or 26         then
//     +---------+----------+-----+-----------+------------+----------------+---------------------+
//     |   key   |  length  |  V  |  creator  |   stamp    |    pointer     |        data         |
//     +---------+----------+-----+-----------+------------+----------------+---------------------+
//       4         4          1     8           1 or 9       1 or 7           0 to 4051
//                          |<------------------ payload, `length` bytes ------------------------>|
//
//     key      i32, as two's complement; inside it is its rank
//     length   u32, of the payload: the cell is 8 + length bytes long
//     V        0x81, MVCC_ROW_PAYLOAD_FORMAT_VERSION
//     creator  u64
//     stamp    0 where the version is live; 1 and the deleter, u64
//     pointer  0 where there is none; 1, page u32 and slot u16
//     data     the caller's, opaque; it starts at 19, 25, 27 or 33
//
// So a cell is 19 bytes and its data when live and unpointed, and at most 33 and its data. A listing's record
// is a u32 length of what follows, a u16 kind (1), and the cell.
#![tactic(auto)]

pub mod read;
pub mod write;

ghost use Rattle.std.specs.Prelude.{◌≡◌};
ghost use Rattle.row.specs.Fault.{structural, kind_number, fault_kind, fault_page, fault_offset};
ghost use Rattle.row.specs.Row.{Row};

use std::marker::Model;

// The first byte of every payload.
pub const MVCC_ROW_PAYLOAD_FORMAT_VERSION: u8 = 0x81;

// A version's data is at most so long: a cell at the limit still takes a stamp and a pointer.
pub const MAX_DATA: usize = 4051;

// The version pointer: a page and slot, kept as they are and never followed.
#[derive(Clone, Copy, PartialEq, Eq, Debug)]
pub struct Pointer {
    pub page: u32,
    pub slot: u16,
}

// The data is a place in the bytes that were read: where it starts, and its length.
#[derive(Clone, Copy, PartialEq, Eq, Debug)]
pub struct Version {
    pub creator: u64,
    pub stamp: Option<u64>,
    pub pointer: Option<Pointer>,
    pub start: usize,
    pub len: usize,
}

// From offset at to offset next; the key is its rank.
#[derive(Clone, Copy, PartialEq, Eq, Debug)]
pub struct Cell {
    pub at: usize,
    pub key: u32,
    pub version: Version,
    pub next: usize,
}

// A version to be stored: what its cell will say, and the caller's data. The key is its rank.
#[derive(Drop)]
pub struct NewVersion<'a> {
    pub key: u32,
    pub creator: u64,
    pub stamp: Option<u64>,
    pub pointer: Option<Pointer>,
    pub body: &'a [u8],
}

impl<'a> Model for NewVersion<'a> {
    ghost Value = { Row };

    ghost view = { λ v. record { key = v.key; creator = v.creator; stamp = v.stamp; pointer = v.pointer; body = v.body.now } };
}

// What is wrong with a cell that cannot be read, in the order in which it is named (document 01 numbers them 1 to 4).
#[derive(Clone, Copy, PartialEq, Eq, Debug)]
pub enum CellFault {
    // An unknown format byte.
    Format = 1,
    // A flag above 1.
    Flag,
    // A payload that is short, or goes on past the end.
    Short,
    // Data over 4051 bytes.
    Long,
}

// The number that document 01 gives to the kind.
impl From<CellFault> for u8 {
    ghost from_gives = { λ k n. n ≡ kind_number k };

    fn from(kind: CellFault) -> u8 {
        match kind {
            CellFault::Format => 1,
            CellFault::Flag => 2,
            CellFault::Short => 3,
            CellFault::Long => 4,
        }
    }
}

// What was met where a page cannot be read on.
#[derive(Clone, Copy, PartialEq, Eq, Debug)]
pub enum Fault {
    // The structure of this page is wrong: its number, type, keys, order or links.
    Structure(u32),
    // The cell at that offset of the page cannot be read.
    Cell {
        page: u32,
        offset: usize,
        kind: CellFault,
    },
}

impl Fault {
    // 0 where the structure of the page is wrong, and of a cell its kind's number.
    pub fn kind(self) -> u8
        ensures { result ≡ fault_kind self }
    {
        match self {
            Fault::Structure(_) => 0,
            Fault::Cell { kind, .. } => u8::from(kind),
        }
    }

    // The page that cannot be read on.
    pub fn page(self) -> u32
        ensures { result ≡ fault_page self }
    {
        match self {
            Fault::Structure(page) => page,
            Fault::Cell { page, .. } => page,
        }
    }

    // Where in the page the cell starts; 0 where the structure of the page is wrong.
    pub fn offset(self) -> usize
        ensures { result ≡ fault_offset self }
    {
        let Fault::Cell { offset, .. } = self else {
            return 0;
        };
        offset
    }
}

// The fault of a page whose structure is wrong.
pub fn structural_fault(p: u32) -> Fault
    ensures { result ≡ structural p }
{
    Fault::Structure(p)
}
