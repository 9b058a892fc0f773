// A page as the Rust left it, put together from the pieces that the list tells it by: runs of the recorded pool as it
// stands, data by length and seed, and plain bytes; zeros follow the last piece.
ghost use Rattle.std.specs.Prelude.{◌≤◌, IfOk, length};

use page::PAGE_SIZE;
use test_text::TextError;
use test_text::line::Fields;

// A line with more pieces is not read.
const MOST_PIECES: usize = 21844;

// FROM N: a run of the pool
fn copy_piece(pool: &[u8], from: usize, n: usize, out: &mut [u8]) -> Result<usize, TextError>
    ensures { IfOk result (λ k. k ≤ length out.new) }
{
    let run = pool
        .get(from..)
        .and_then(|rest| rest.get(..n))
        .ok_or(TextError::TooLarge)?;
    out.get_mut(..n)
        .ok_or(TextError::TooLarge)?
        .copy_from_slice(run);
    Ok(n)
}

// LEN SEED
fn data_piece(len: usize, seed: u16, out: &mut [u8]) -> Result<usize, TextError>
    ensures { IfOk result (λ k. k ≤ length out.new) }
{
    crate::data::fill(out.get_mut(..len).ok_or(TextError::TooLarge)?, seed);
    Ok(len)
}

// N BYTES
fn plain_piece(n: usize, digits: &[u8], out: &mut [u8]) -> Result<usize, TextError>
    ensures { IfOk result (λ k. k ≤ length out.new) }
{
    let bytes = test_text::bytes(digits, out)?;
    if bytes.len() == n {
        Ok(n)
    } else {
        Err(TextError::TooLarge)
    }
}

// Puts the next piece at the start of out, and answers its length.
fn piece(fields: &mut Fields, pool: &[u8], out: &mut [u8]) -> Result<usize, TextError>
    ensures { IfOk result (λ k. k ≤ length out.new) }
{
    match fields.take() {
        b"c" => copy_piece(pool, fields.take_number()?, fields.take_number()?, out),
        b"g" => data_piece(fields.take_number()?, fields.take_number()?, out),
        b"x" => plain_piece(fields.take_number()?, fields.take(), out),
        _ => Err(TextError::UnknownWord),
    }
}

// Puts all pieces into out, which is zeros.
pub fn image(mut fields: Fields, pool: &[u8], out: &mut [u8; PAGE_SIZE]) -> Result<(), TextError> {
    let mut at = 0;
    for _ in 0..=MOST_PIECES {
        if fields.rest().is_empty() {
            return Ok(());
        }
        at += piece(&mut fields, pool, &mut out[at..])?;
    }
    Err(TextError::TooLarge)
}
