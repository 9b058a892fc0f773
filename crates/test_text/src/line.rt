// A list cut into lines, and a line into fields.
ghost use Rattle.std.specs.Prelude.{◌≡◌, ◌+◌, ◌<◌, ◌≤◌, IfOk, IfSome, length};
ghost use Rattle.std.specs.Iterator.{at_most};
ghost use Rattle.test_text.specs.Cut.{line_end, space, before_byte, after_byte};

use crate::{TextError, find, number};

// What stands before the first byte b of s, and what follows that byte; all of s and nothing where there is none.
pub(crate) fn split_at_byte(s: &[u8], b: u8) -> (&[u8], &[u8])
    ensures shorter { 0 < length s.now → length result.1.now < length s.now }
    ensures parts { length result.0.now + length result.1.now ≤ length s.now }
    ensures before { result.0.now ≡ before_byte b s.now }
    ensures after { result.1.now ≡ after_byte b s.now }
{
    match find(s, b) {
        Some(i) => (&s[..i], &s[i + 1..]),
        None => (s, &[]),
    }
}

// The lines of a list, without their ends.
#[derive(Clone, Copy)]
pub struct Lines<'a> {
    // What follows the lines so far.
    pub rest: &'a [u8],
}

impl<'a> Lines<'a> {
    // All lines of that list.
    pub fn new(list: &'a [u8]) -> Self
        ensures { result.rest.now ≡ list.now }
    {
        Lines { rest: list }
    }
}

impl<'a> Iterator for Lines<'a> {
    type Item = &'a [u8];

    ghost next_gives = { λ s r t. IfSome r (λ line.
        (length line.now + length t.rest.now ≤ length s.rest.now)
        × ((line.now ≡ before_byte line_end s.rest.now) × (t.rest.now ≡ after_byte line_end s.rest.now))) };

    ghost remaining = { λ s. at_most (length s.rest.now) };

    fn next(&mut self) -> Option<&'a [u8]> {
        if self.rest.is_empty() {
            return None;
        }
        let (line, rest) = split_at_byte(self.rest, b'\n');
        self.rest = rest;
        Some(line)
    }
}

// What is left of a line, to be read field by field.
#[derive(Clone, Copy)]
pub struct Fields<'a> {
    // What follows the fields so far.
    pub rest: &'a [u8],
}

impl<'a> Fields<'a> {
    // All fields of that line.
    pub fn new(line: &'a [u8]) -> Self
        ensures { result.rest.now ≡ line.now }
    {
        Fields { rest: line }
    }

    // All that is left. A line's last field is read from this, so that nothing can follow it.
    pub fn rest(self) -> &'a [u8]
        ensures { result.now ≡ self.entry.rest.now }
    {
        self.rest
    }

    // Takes the next field; empty where none is left.
    pub fn take(&mut self) -> &'a [u8]
        ensures shorter { 0 < length self.old.rest.now → length self.new.rest.now < length self.old.rest.now }
        ensures parts { length result.now + length self.new.rest.now ≤ length self.old.rest.now }
        ensures before { result.now ≡ before_byte space self.old.rest.now }
        ensures after { self.new.rest.now ≡ after_byte space self.old.rest.now }
    {
        let (field, left) = split_at_byte(self.rest, b' ');
        self.rest = left;
        field
    }

    // Takes the next field, a number.
    pub fn take_number<T: TryFrom<u64>>(&mut self) -> Result<T, TextError>
    where
        T::Error: Drop,
        ensures never_longer { length self.new.rest.now ≤ length self.old.rest.now }
        ensures taken { IfOk result (λ n. length self.new.rest.now < length self.old.rest.now) }
    {
        number(self.take())
    }

    // The number that is the last field.
    pub fn last_number<T: TryFrom<u64>>(self) -> Result<T, TextError>
    where
        T::Error: Drop,
        ensures { IfOk result (λ n. 0 < length self.entry.rest.now) }
    {
        number(self.rest)
    }
}
