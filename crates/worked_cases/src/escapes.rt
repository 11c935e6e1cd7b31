//! Bytes that a line of text can't show.
use crate::failed::Failed;

/// The value of a hexadecimal digit.
fn digit(byte: u8) -> Option<u8> {
    match byte {
        b'0'..=b'9' => Some(byte - b'0'),
        b'A'..=b'F' => Some(byte - b'A' + 10),
        _ => None,
    }
}

/// The byte that two hexadecimal digits write.
fn byte_of(digits: &[u8]) -> Option<u8> {
    match digits {
        [high, low, ..] => Some((digit(*high)? & 15) << 4 | (digit(*low)? & 15)),
        _ => None,
    }
}

/// Puts a byte behind others, so many times.
fn put_many(bytes: &mut Vec<u8>, byte: u8, count: usize) -> Result<(), Failed> {
    let len = bytes.len();
    bytes.resize(len.saturating_add(count), byte)?;
    Ok(())
}

/// The number before a `)` that repeats a byte, and what stands behind it.
fn repeats(text: &[u8]) -> Option<(usize, &[u8])> {
    let mut count = 0usize;
    for (i, byte) in text.iter().enumerate() {
        match *byte {
            b'0'..=b'9' => count = count
                .saturating_mul(10)
                .saturating_add((*byte - b'0') as usize),
            b')' => return Some((count, &text[i + 1..])),
            _ => return None,
        }
    }
    None
}

/// Puts what an escape stands for behind other bytes; what is left of the text behind it.
/// `%0D` is the byte 0x0D, `%(30)0D` is thirty of them.
fn put_escape<'a>(bytes: &mut Vec<u8>, text: &'a [u8]) -> Result<&'a [u8], Failed> {
    let (count, digits) = match text {
        [b'(', rest @ ..] => match repeats(rest) {
            Some(found) => found,
            None => return Err(Failed),
        },
        _ => (1, text),
    };
    let Some(byte) = byte_of(digits) else {
        return Err(Failed);
    };
    put_many(bytes, byte, count)?;
    match digits {
        [_, _, rest @ ..] => Ok(rest),
        _ => Err(Failed),
    }
}

/// Puts a line behind other bytes, with an LF; without one where the line ends in `%.`.
pub(crate) fn put_line(bytes: &mut Vec<u8>, line: &[u8]) -> Result<(), Failed> {
    let mut left = line;
    for _part in 0..line.len() {
        let [first, rest @ ..] = left else {
            break;
        };
        if *first != b'%' {
            bytes.push(*first)?;
            left = rest;
        } else if rest == b".".as_slice() {
            return Ok(());
        } else {
            left = put_escape(bytes, rest)?;
        }
    }
    bytes.push(b'\n')?;
    Ok(())
}
