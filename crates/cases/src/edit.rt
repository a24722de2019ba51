// Changes of a base sheet's text.
use crate::escape::unescape;
use anyhow::bail;
use std::alloc::{AllocError, Global};

#[derive(Drop)]
pub enum Edit {
    // only so many bytes are kept
    Cut(usize),
    // these bytes stand from a place on
    Put(usize, Vec<u8>),
    // a line, from 1, has these bytes before its line feed
    Line(usize, Vec<u8>),
    // these bytes follow the text
    Add(Vec<u8>),
}

// A number and the bytes after it.
fn numbered(heap: Global, words: &str) -> anyhow::Result<(usize, Vec<u8>)> {
    let (number, text) = words.split_once(' ').unwrap_or((words, ""));
    Ok((number.parse::<usize>()?, unescape(heap, text)?))
}

// The text in which a line is replaced.
fn with_line(heap: Global, text: &[u8], number: usize, line: &[u8]) -> Result<Vec<u8>, AllocError> {
    let mut edited = Vec::new(heap);
    let replaced = number.checked_sub(1);
    for (at, found) in text.split_inclusive(|byte| *byte == b'\n').enumerate() {
        if replaced != Some(at) {
            edited.extend_from_slice(found)?;
        } else if found.ends_with(b"\n") {
            edited.extend_from_slice(line)?;
            edited.push(b'\n')?;
        }
    }
    Ok(edited)
}

// Only as far as the text reaches: to copy a slice, both would have to be cut first.
fn put(text: &mut Vec<u8>, at: usize, bytes: &[u8]) {
    for (slot, byte) in text.iter_mut().skip(at).zip(bytes) {
        *slot = *byte;
    }
}

impl Edit {
    pub(crate) fn parse(heap: Global, words: &str) -> anyhow::Result<Edit> {
        let (verb, rest) = words.split_once(' ').unwrap_or((words, ""));
        match verb {
            "cut" => Ok(Edit::Cut(rest.parse::<usize>()?)),
            "add" => Ok(Edit::Add(unescape(heap, rest)?)),
            "put" => {
                let (at, bytes) = numbered(heap, rest)?;
                Ok(Edit::Put(at, bytes))
            }
            "line" => {
                let (number, bytes) = numbered(heap, rest)?;
                Ok(Edit::Line(number, bytes))
            }
            _ => {
                // what stands behind the verb is judged before it
                let _ = numbered(heap, rest)?;
                bail!("no such edit")
            }
        }
    }

    pub(crate) fn apply(self, heap: Global, text: &mut Vec<u8>) -> Result<(), AllocError> {
        match self {
            Edit::Cut(length) => text.truncate(length),
            Edit::Put(at, bytes) => put(text, at, &bytes),
            Edit::Line(number, line) => *text = with_line(heap, text, number, &line)?,
            Edit::Add(bytes) => text.extend_from_slice(&bytes)?,
        }
        Ok(())
    }
}
