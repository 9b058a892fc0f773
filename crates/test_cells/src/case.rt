// One case: fields are written and read again, or bytes are read, and what comes out is held to the record.
// SOURCE is not looked at: the answers of both sources are held to alike.
ghost use Rattle.std.specs.Prelude.{◌≤◌, length};

use crate::answer;
use crate::answer::Answer;
use std::fmt;
use test_text::TextError;
use test_text::head::Head;
use test_text::line::Fields;

// Twice a page: the longest byte string of the list is a page, so a page of the guard stays behind a cell.
const ROOM: usize = 8192;

// What stands in the buffer of a cell before the cell does.
const GUARD: u8 = 165;

// A case that came out as recorded.
#[derive(Clone, Copy)]
pub enum Same {
    Wrote,
    ReadCell,
    ReadBad(u8),
}

// A case that came out otherwise, or a line that says no case.
#[derive(Clone, Copy)]
pub enum Differs {
    Write,
    Read,
    Unreadable,
}

impl fmt::Display for Same {
    fn fmt<W: fmt::Write>(&self, f: &mut fmt::Formatter<W>) -> fmt::Result {
        match self {
            Same::Wrote => write!(f, "w same"),
            Same::ReadCell => write!(f, "r cell same"),
            Same::ReadBad(kind) => write!(f, "r bad {kind} same"),
        }
    }
}

impl fmt::Display for Differs {
    fn fmt<W: fmt::Write>(&self, f: &mut fmt::Formatter<W>) -> fmt::Result {
        match self {
            Differs::Write => write!(f, "w differs"),
            Differs::Read => write!(f, "r differs"),
            Differs::Unreadable => write!(f, "unreadable line"),
        }
    }
}

impl From<TextError> for Differs {
    fn from(_error: TextError) -> Differs {
        Differs::Unreadable
    }
}

fn read_cell(bytes: &[u8], at: usize) -> Answer {
    row::read::read_cell(bytes, at).map_err(u8::from)
}

// Whether the reader finds the fields and the data in the written cell of that size.
fn reads_back(s: &[u8], head: Head, body: &[u8], size: usize) -> bool
    requires { (length body.now ≤ size) × (size ≤ length s.now) }
{
    let start = size - body.len();
    let written = answer::cell_of(head, 0, start, body.len(), size);
    read_cell(s, 0) == Ok(written) && &s[start..size] == body
}

// Whether the writer makes the recorded cell, which is followed by the guard, and leaves the guard as it is.
fn writes(head: Head, body: &[u8], cell: &[u8; ROOM], size: usize) -> bool
    requires { (length body.now ≤ 4051) × (size ≤ 8192) }
{
    let version = head.with_data(body);
    if version.size() != size {
        return false;
    }
    let mut out = [GUARD; ROOM];
    row::write::write_cell(&mut out, &version);
    out == *cell && reads_back(&out, head, body, size)
}

// SOURCE KEY CREATOR STAMP POINTER DATA CELL
fn write_case(mut fields: Fields) -> Result<Same, Differs> {
    let _source = fields.take();
    let head = Head::take(&mut fields)?;
    // No version has more data, and the writer takes no more.
    let mut body = [0u8; row::MAX_DATA];
    let body = test_text::bytes(fields.take(), &mut body)?;
    let mut cell = [GUARD; ROOM];
    let size = test_text::bytes(fields.rest(), &mut cell)?.len();
    if writes(head, body, &cell, size) {
        Ok(Same::Wrote)
    } else {
        Err(Differs::Write)
    }
}

fn compare(found: Answer, recorded: Answer) -> Result<Same, Differs> {
    if found != recorded {
        return Err(Differs::Read);
    }
    match found {
        Ok(_) => Ok(Same::ReadCell),
        Err(kind) => Ok(Same::ReadBad(kind)),
    }
}

// SOURCE BYTES AT and the answer
fn read_case(mut fields: Fields) -> Result<Same, Differs> {
    let _source = fields.take();
    let mut room = [0u8; ROOM];
    let bytes = test_text::bytes(fields.take(), &mut room)?;
    let at = fields.take_number()?;
    let recorded = answer::recorded(fields, at)?;
    compare(read_cell(bytes, at), recorded)
}

// What the case on that line comes to.
pub fn run(line: &[u8]) -> Result<Same, Differs> {
    let mut fields = Fields::new(line);
    match fields.take() {
        b"w" => write_case(fields),
        b"r" => read_case(fields),
        _ => Err(Differs::Unreadable),
    }
}
