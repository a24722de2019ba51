// Text of the table with its escapes: \n, \r and \xHH.
use anyhow::bail;
use std::alloc::Global;

// The byte that a part stands for that followed a backslash, and what follows the escape.
fn escaped(part: &[u8]) -> anyhow::Result<(u8, &[u8])> {
    match part {
        [b'n', rest @ ..] => Ok((b'\n', rest)),
        [b'r', rest @ ..] => Ok((b'\r', rest)),
        [b'x', high, low, rest @ ..] => Ok((nibble(*high)? << 4 | nibble(*low)?, rest)),
        _ => bail!("no such escape"),
    }
}

// Capitals only, as sheets have them; char::to_digit takes small letters too.
fn nibble(digit: u8) -> anyhow::Result<u8> {
    match digit {
        b'0'..=b'9' => Ok(digit - b'0'),
        b'A'..=b'F' => Ok(digit - b'A' + 10),
        _ => bail!("no digit in an escape"),
    }
}

pub(crate) fn unescape(heap: Global, text: &str) -> anyhow::Result<Vec<u8>> {
    let mut parts = text.split('\\');
    let mut bytes = Vec::new(heap);
    bytes.extend_from_slice(parts.next().unwrap_or("").as_bytes())?;
    for part in parts {
        let (byte, rest) = escaped(part.as_bytes())?;
        bytes.push(byte)?;
        bytes.extend_from_slice(rest)?;
    }
    Ok(bytes)
}
