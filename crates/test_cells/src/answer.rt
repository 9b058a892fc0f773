// The answer that a reader is to give, as the fields of a case say it.
use row::{Cell, Version};
use test_text::TextError;
use test_text::head::Head;
use test_text::line::Fields;

// The cell, or the kind of its fault.
pub type Answer = Result<Cell, u8>;

// The cell of that key and version at offset `at`, with its data and its end at these places.
pub fn cell_of(head: Head, at: usize, start: usize, len: usize, next: usize) -> Cell {
    Cell {
        at,
        key: head.key,
        version: Version {
            creator: head.creator,
            stamp: head.stamp,
            pointer: head.pointer,
            start,
            len,
        },
        next,
    }
}

// KEY CREATOR STAMP POINTER START LEN NEXT of the cell at that offset
fn cell(mut fields: Fields, at: usize) -> Result<Cell, TextError> {
    let head = Head::take(&mut fields)?;
    let start = fields.take_number()?;
    let len = fields.take_number()?;
    let next = fields.last_number()?;
    Ok(cell_of(head, at, start, len, next))
}

// cell and its fields, or bad KIND
pub fn recorded(mut fields: Fields, at: usize) -> Result<Answer, TextError> {
    match fields.take() {
        b"cell" => Ok(Ok(cell(fields, at)?)),
        b"bad" => Ok(Err(fields.last_number()?)),
        _ => Err(TextError::UnknownWord),
    }
}
