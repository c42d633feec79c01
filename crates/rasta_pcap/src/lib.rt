//! Captures in the classic libpcap format: faults, devices, and the records of a file.
#![tactic(auto)]

mod buffered;
mod counted;
pub mod devices;
mod fault;
mod filling;
pub mod laws;
mod pcap;
pub mod stream;
mod time;
pub mod walk;

pub use buffered::{BUFFER, Buffered};
pub use counted::{Counted, Sink, Source, read_all, write_all};
pub use fault::{Fault, Side};
pub use pcap::{MAX_RECORDS, Pcap, Record};
pub use stream::Stream;
pub use time::{CaptureTime, FractionUnit};
