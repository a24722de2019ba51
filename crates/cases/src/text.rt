// The fields of a table's lines, and the texts that they tell of.
use crate::edit::Edit;
use crate::escape::unescape;
use std::alloc::{AllocError, Global};
use std::fs;
use std::rt::Files;

// The fields of a line, at most `count`, with bars between them.
pub(crate) fn fields(heap: Global, line: &str, count: usize) -> Result<Vec<&str>, AllocError> {
    line.splitn(count, '|')
        .map(|field| field.trim())
        .collect(heap)
}

// The text of a literal, or of the file of a base sheet, `@NAME`.
fn base(rt: &(impl Files + AllocGlobal), words: &str) -> anyhow::Result<Vec<u8>> {
    let heap = rt.alloc();
    match words.strip_prefix("@") {
        Some(name) => Ok(fs::read(rt, format!(in heap; "{name}.sheet")?)?),
        None => unescape(heap, words),
    }
}

// The whole text: the base, then each edit after a semicolon.
pub(crate) fn text_of(rt: &(impl Files + AllocGlobal), words: &str) -> anyhow::Result<Vec<u8>> {
    let heap = rt.alloc();
    let mut parts = words.split(';').map(|part| part.trim());
    let mut text = base(rt, parts.next().unwrap_or(""))?;
    for words in parts {
        Edit::parse(heap, words)?.apply(heap, &mut text)?;
    }
    Ok(text)
}
