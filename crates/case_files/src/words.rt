use std::alloc::Global;
use type_kinds::{List, Memory};

/// The words of a line, one space between two, where `''` is the word of no characters. A line of no characters has no words.
pub fn words_of(alloc: Global, line: &str) -> Result<List<&str>, Memory> {
    let mut words = List::new(alloc);
    if !line.is_empty() {
        for word in line.split(' ') {
            words.add(if word == "''" { "" } else { word })?;
        }
    }
    Ok(words)
}
