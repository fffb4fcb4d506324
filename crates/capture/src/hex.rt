// Lines of hexadecimal digits, and the frames that they spell.
ghost use Rattle.std.specs.Prelude.{◌≡◌, IfOk, vec_items};
ghost use Rattle.std.specs.Option.{option_map};
ghost use Rattle.capture.specs.Hex.{digit_of, pair_of, spelled, said};

use faults::{Cause, Fault};
use frames::read;
use messages::Message;
use std::alloc::{AllocError, Global};

// The value of a digit. The cases are the characters that count as digits.
fn digit(c: u8) -> Option<u8>
    ensures { result ≡ digit_of c }
{
    match c {
        b'0'..=b'9' => Some(c - b'0'),
        b'a'..=b'f' => Some(c - b'a' + 10),
        _ => None,
    }
}

// The byte that two digits spell.
fn pair(high: u8, low: u8) -> Option<u8>
    ensures { result ≡ pair_of (digit_of high) (digit_of low) }
{
    let high = digit(high)?;
    let low = digit(low)?;
    Some(high * 16 + low)
}

// The bytes that a text spells, if it is whole pairs of digits. (The library's `hex` takes capital letters too.)
fn decode(heap: Global, text: &[u8]) -> Result<Option<Vec<u8>>, AllocError>
    ensures { IfOk result (λ o. option_map vec_items o ≡ spelled text.now) }
{
    let (pairs, []) = text.as_chunks::<2>() else {
        return Ok(None);
    };
    let mut bytes = Vec::with_capacity(heap, pairs.len())?;
    for [high, low] in pairs {
        let Some(byte) = pair(*high, *low) else {
            return Ok(None);
        };
        bytes.push(byte)?;
    }
    Ok(Some(bytes))
}

// The message whose frame a line spells, or what is wrong with the line.
pub fn interpret(heap: Global, line: &[u8]) -> Result<Result<Message, Fault>, AllocError>
    ensures { IfOk result (λ m. m ≡ said line.now) }
{
    if line.is_empty() {
        return Ok(Err(Cause::Number.into()));
    }
    let Some(bytes) = decode(heap, line)? else {
        return Ok(Err(Cause::Number.into()));
    };
    Ok(read(bytes.as_slice()))
}
