//! Captures of several parts.
use std::alloc::Global;
use trials_rows::{FILE_HEADER, change_bytes, file_of};

// Adds the records of a part, `SETTINGS: PACKETS`, which `trials_rows` reads; the first part is the file itself.
fn add_part(alloc: Global, file: &mut Vec<u8>, part: &str) -> Option<()> {
    let (settings, packets) = part.split_once(": ")?;
    let (_, part) = file_of(alloc, settings, packets)?;
    let from = if file.is_empty() {
        0
    } else {
        FILE_HEADER.len()
    };
    file.extend_from_slice(part.get(from..)?).ok()
}

/// The file of these parts, one after the other, `SETTINGS: PACKETS; ..`, with these changes, `PLACE=BYTE ..`; none where
/// a part has none or memory runs out.
pub fn file_with(alloc: Global, parts: &str, changes: &str) -> Option<Vec<u8>> {
    let mut file = Vec::new(alloc);
    for part in parts.split("; ") {
        add_part(alloc, &mut file, part)?;
    }
    change_bytes(&mut file, changes)?;
    Some(file)
}
