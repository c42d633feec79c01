//! What the first bytes of a file tell of it.
ghost use Rattle.std.specs.Prelude.{◌≡◌};
ghost use Rattle.std.specs.List.{list_all};
ghost use Rattle.seatmelon_failures.specs.FileKinds.{begins_capture, holds_text, is_text_character, kind_of_start};

/// What kind a file seems to be.
#[derive(Clone, Copy, Debug, PartialEq, Eq)]
pub enum FileKind {
    Capture,
    Gzip,
    Pcapng,
    Text,
    Other,
}

// The first bytes of classic captures: with microseconds, lowest byte first and highest byte first.
const MICROSECONDS: [u8; 4] = [0xd4, 0xc3, 0xb2, 0xa1];

const MICROSECONDS_SWAPPED: [u8; 4] = [0xa1, 0xb2, 0xc3, 0xd4];

// And with nanoseconds.
const NANOSECONDS: [u8; 4] = [0x4d, 0x3c, 0xb2, 0xa1];

const NANOSECONDS_SWAPPED: [u8; 4] = [0xa1, 0xb2, 0x3c, 0x4d];

const GZIP: [u8; 2] = [0x1f, 0x8b];

const PCAPNG: [u8; 4] = [0x0a, 0x0d, 0x0d, 0x0a];

// Whether a text may have this byte: a line end, a tab, or printable ASCII.
fn is_text_byte(byte: u8) -> bool
    ensures { result ≡ is_text_character byte }
{
    matches!(byte, b'\t' | b'\n' | b'\r' | b' '..=b'~')
}

// Whether a text may have all these bytes.
fn are_text_bytes(bytes: &[u8]) -> bool
    ensures { result ≡ list_all is_text_character bytes.now }
{
    bytes.iter().all(|&byte| is_text_byte(byte))
}

// Whether these are bytes of a text, at least one.
fn is_text(bytes: &[u8]) -> bool
    ensures { result ≡ holds_text bytes.now }
{
    !bytes.is_empty() && are_text_bytes(bytes)
}

// Whether these are the first bytes of a classic capture.
fn is_capture(start: &[u8]) -> bool
    ensures { result ≡ begins_capture start.now }
{
    start.starts_with(&MICROSECONDS)
        || start.starts_with(&MICROSECONDS_SWAPPED)
        || start.starts_with(&NANOSECONDS)
        || start.starts_with(&NANOSECONDS_SWAPPED)
}

/// The kind of a file with these first bytes.
pub fn kind_of_start(start: &[u8]) -> FileKind
    ensures { result ≡ kind_of_start start.now }
{
    if is_capture(start) {
        FileKind::Capture
    } else if start.starts_with(&GZIP) {
        FileKind::Gzip
    } else if start.starts_with(&PCAPNG) {
        FileKind::Pcapng
    } else if is_text(start) {
        FileKind::Text
    } else {
        FileKind::Other
    }
}
