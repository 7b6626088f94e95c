//! Words of command lines.

use cn_cli::{WordsFault, parse_words};
use std::alloc::{AllocError, Global};

/// The words of a line.
pub(crate) fn words(alloc: Global, line: &str) -> Result<Vec<String>, AllocError> {
    let mut words = Vec::new(alloc);
    for word in line.split_whitespace() {
        words.push(String::from_str(alloc, word)?)?;
    }
    Ok(words)
}

/// Whether want of memory has this line.
fn has_line(alloc: Global, line: &str) -> bool {
    match WordsFault::Memory.to_string(alloc) {
        Ok(text) => text.as_str() == line,
        Err(_) => false,
    }
}

#[test]
fn want_of_memory_has_its_line(rt: HostRuntime) {
    let found = (
        has_line(rt.alloc(), "renamer: memory"),
        WordsFault::Memory.status(),
    );
    assert_eq!(rt; found, (true, 3));
}

/// The status if there is not even the program's name.
fn status_of_no_words(alloc: Global) -> Option<u8> {
    Some(parse_words(alloc, Vec::new(alloc)).err()?.status())
}

#[test]
fn no_words_at_all(rt: HostRuntime) {
    assert_eq!(rt; status_of_no_words(rt.alloc()), Some(2));
}
