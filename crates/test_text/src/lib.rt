// The text of a recorded list: lines, the fields of a line with one space between two, and numbers and byte strings in
// hexadecimal. A field that is not there is empty, and no number or byte string is. Module line cuts a list into lines and
// a line into fields, and module head reads a version's.
#![tactic(auto)]

pub mod head;
pub mod line;

ghost use Rattle.std.specs.Prelude.{◌≡◌, ◌==◌, ◌<◌, ◌≤◌, IfOk, IfSome, length, position};

use std::io;
use std::io::Read;

// Why a text does not say what it has to.
#[derive(Clone, Copy, Debug, PartialEq, Eq)]
pub enum TextError {
    // It is empty, has another character than 0 to 9 and a to f, or half a byte.
    NotHexadecimal,
    // The number does not fit its type, or the bytes do not fit their place.
    TooLarge,
    // It is none of the words that may stand there.
    UnknownWord,
}

// Reads standard input into `out` until it is full or the input ends, and answers how many bytes were read. The array goes by a
// reference to it: where a long one is lent as a slice, the prover counts it.
pub fn read_full<const N: usize>(rt: &impl Input, out: &mut [u8; N]) -> io::Result<usize>
    ensures { IfOk result (λ n. n ≤ length out.new) }
{
    let mut input = rt.reader();
    let list = &mut out[..];
    let mut n = 0;
    while n < list.len() {
        let got = input.read(&mut list[n..])?;
        if got == 0 {
            break;
        }
        n += got;
    }
    Ok(n)
}

// The list that standard input has, read into `room`; None where it fills the room, since it may go on.
pub fn read_list<'a, const N: usize>(
    rt: &impl Input,
    room: &'a mut [u8; N],
) -> io::Result<Option<&'a [u8]>>
    ensures { IfOk result (λ r. IfSome r (λ list. length list.now < N)) }
{
    let n = read_full(rt, room)?;
    Ok(if n < N { Some(&room[..n]) } else { None })
}

// Where the first byte b stands in s.
pub fn find(s: &[u8], b: u8) -> Option<usize>
    ensures within { IfSome result (λ i. i < length s.now) }
    ensures first { result ≡ position (λ x. x == b) s.now }
{
    s.iter().position(|x| *x == b)
}

// The mark of an absent stamp or pointer, or of no bytes.
pub fn is_dash(s: &[u8]) -> bool {
    matches!(s, b"-")
}

// What c stands for as a hexadecimal digit.
fn digit(c: u8) -> Option<u64> {
    match c {
        b'0'..=b'9' => Some(u64::from(c - b'0')),
        b'a'..=b'f' => Some(u64::from(c - b'a') + 10),
        _ => None,
    }
}

// The number that s spells, if its type holds it.
pub fn number<T: TryFrom<u64>>(s: &[u8]) -> Result<T, TextError>
where
    T::Error: Drop,
    ensures { IfOk result (λ n. 0 < length s.now) }
{
    if s.is_empty() {
        return Err(TextError::NotHexadecimal);
    }
    let mut value: u64 = 0;
    for c in s {
        let digit = digit(*c).ok_or(TextError::NotHexadecimal)?;
        value = value
            .checked_mul(16)
            .and_then(|high| high.checked_add(digit))
            .ok_or(TextError::TooLarge)?;
    }
    T::try_from(value).map_err(|_| TextError::TooLarge)
}

// Puts the bytes that s spells at the start of out, and gives them back.
pub fn bytes<'a>(s: &[u8], out: &'a mut [u8]) -> Result<&'a [u8], TextError>
    ensures { IfOk result (λ b. length b.now ≤ length out.old) }
{
    if is_dash(s) {
        return Ok(&[]);
    }
    let n = s.len() / 2;
    if n == 0 || s.len() % 2 == 1 {
        return Err(TextError::NotHexadecimal);
    }
    if out.len() < n {
        return Err(TextError::TooLarge);
    }
    for (byte, pair) in out.iter_mut().zip(s.chunks_exact(2)) {
        *byte = number(pair)?;
    }
    Ok(&out[..n])
}
