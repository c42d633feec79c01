//! Two ends of a RaSTA connection over a network that loses, repeats, delays and reorders: the model of
//! what they may send, and its laws; and the lists of what each side of a capture sent.
#![tactic(auto)]

mod checker;
mod datagrams;
mod dense_list;
mod follower;
pub mod laws;
mod listing;
mod map_list;
mod packet_store;
mod passage;
mod place_table;
mod report;
mod resent;
mod seen;
mod sent_list;
mod sent_packets;
mod sent_reading;
mod shown;
mod sights;
mod span_list;
mod store_builder;
mod store_reading;
mod surely_taken;

pub use checker::{check, check_lists, check_sent, check_store};
pub use dense_list::DenseList;
pub use map_list::MapList;
pub use packet_store::Store;
pub use passage::Passage;
pub use rasta_pcap::{Fault, Side, Sink, Source};
pub use report::{Report, Taken, TakenList};
pub use resent::ResentUnit;
pub use sent_list::{FirstCopy, SentList};
pub use sent_packets::Sent;
pub use sent_reading::sent;
pub use shown::{Shown, ShownLists};
pub use sights::ShownUnit;
pub use span_list::SpanList;
pub use store_builder::StoreBuilder;
pub use store_reading::store;
