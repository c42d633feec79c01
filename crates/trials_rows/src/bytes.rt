//! Bytes as rows write them.
use std::alloc::Global;

/// The bytes of a text in hexadecimal digits, which spaces and ends of lines may part; none where it is
/// no such text or memory runs out.
pub fn bytes_of(alloc: Global, text: &str) -> Option<Vec<u8>> {
    let digits = text.replace(alloc, " ", "").ok()?;
    let digits = digits.replace(alloc, "\n", "").ok()?;
    hex::decode(alloc, digits.as_str()).ok()
}
