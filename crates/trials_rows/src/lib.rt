//! What rows of text name, for tests: bytes, parameters, PDUs, connections and captures; and what captures are made of:
//! frames, records, and the blocks of pcapng files. The product stands on none of this.
#![tactic(auto)]

mod blocks;
mod bytes;
mod captures;
mod connections;
mod frames;
mod lines;
mod parameters;
mod words;

pub use blocks::{CUT_BLOCK, blocks_of, pcapng_with};
pub use bytes::bytes_of;
pub use captures::{change_bytes, channel_of, file_of};
pub use connections::lines_of;
pub use frames::{FILE_HEADER, push_cut_record, push_frame, push_record};
pub use lines::{datagram, datagrams, parts_of, pdu_of, side_at, side_of};
pub use parameters::{CHANNELS, RFC_WORDS, params, params_of};
pub use words::{joined, words_in};
