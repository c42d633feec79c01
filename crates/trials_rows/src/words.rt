//! Words and lines of a text.
use std::alloc::Global;

/// The words of a text, which spaces part; none where memory runs out.
pub fn words_in(alloc: Global, text: &str) -> Option<Vec<String>> {
    let mut list = Vec::new(alloc);
    for word in text.split(' ') {
        if !word.is_empty() {
            list.push(String::from_str(alloc, word).ok()?).ok()?;
        }
    }
    Some(list)
}

/// What stands there over several lines, in one.
pub fn joined(alloc: Global, lines: &str) -> Option<String> {
    let mut text = String::new(alloc);
    for line in lines.lines() {
        text.push_str(line).ok()?;
    }
    Some(text)
}
