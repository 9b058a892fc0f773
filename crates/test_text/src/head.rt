// The fields of a version as a line spells them (document 01, section 2): key, creator, stamp and pointer.
// The line has the bits of a key, and `row` its rank.
ghost use Rattle.std.specs.Prelude.{◌≡◌, ◌+◌, ◌≤◌, IfOk, length};

use crate::line::{Fields, split_at_byte};
use crate::{TextError, is_dash, number};
use row::{NewVersion, Pointer};

// A key, and its version but for the data.
#[derive(Clone, Copy)]
pub struct Head {
    pub key: u32,
    pub creator: u64,
    pub stamp: Option<u64>,
    pub pointer: Option<Pointer>,
}

fn stamp(s: &[u8]) -> Result<Option<u64>, TextError> {
    if is_dash(s) {
        return Ok(None);
    }
    Ok(Some(number(s)?))
}

// PAGE.SLOT
fn pointer(s: &[u8]) -> Result<Option<Pointer>, TextError> {
    if is_dash(s) {
        return Ok(None);
    }
    let (page, slot) = split_at_byte(s, b'.');
    Ok(Some(Pointer {
        page: number(page)?,
        slot: number(slot)?,
    }))
}

impl Head {
    // Takes KEY CREATOR STAMP POINTER.
    pub fn take(fields: &mut Fields) -> Result<Head, TextError>
        ensures never_longer { length fields.new.rest.now ≤ length fields.old.rest.now }
        ensures taken { IfOk result (λ h. 2 + length fields.new.rest.now ≤ length fields.old.rest.now) }
    {
        Ok(Head {
            key: page::key::flip32(fields.take_number()?),
            creator: fields.take_number()?,
            stamp: stamp(fields.take())?,
            pointer: pointer(fields.take())?,
        })
    }

    // The version with these fields and that data.
    pub fn with_data<'a>(self, body: &'a [u8]) -> NewVersion<'a>
        ensures data { result.body ≡ body.now }
        ensures fields { result ≡
            record { key = self.key; creator = self.creator; stamp = self.stamp; pointer = self.pointer; body = body.now } }
    {
        NewVersion {
            key: self.key,
            creator: self.creator,
            stamp: self.stamp,
            pointer: self.pointer,
            body,
        }
    }
}
