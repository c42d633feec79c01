//! Files that are refused, and the texts on them.

const FILES: &str = r#"
== data plain: - | 0=0 |  | plain |  | Another format.
refused by 10 NotPcap:
  this is not a classic libpcap file

may be the cause:
  the file has another format, or is compressed
look next at:
  editcap -F pcap IN OUT, which converts a capture (gunzip it first, if it is compressed)
== data plain: - | 6=5 |  | plain |  | Another version.
refused by 11 Version:
  this is not version 2.4 of the libpcap format

may be the cause:
  the file has another format, or is compressed
look next at:
  editcap -F pcap IN OUT, which converts a capture (gunzip it first, if it is compressed)
== data plain: - | 20=113 |  | plain |  | Frames of Linux's interface any.
refused by 12 LinkType:
  the frames are not Ethernet frames but of link type 113 (Linux cooked capture)

may be the cause:
  the capture was made on the interface 'any'
look next at:
  the capture of Ethernet frames that this command makes of it: seatmelon convert CAPTURE > OUT
== data plain: - | 20=200 |  | plain |  | Frames of a link type without a name.
refused by 12 LinkType:
  the frames are not Ethernet frames but of link type 200

may be the cause:
  the capture was made on another kind of interface
look next at:
  an Ethernet interface, on which to capture again
== data plain: - | 23=64 |  | plain |  | Ethernet frames, of which the link type says more.
refused by 12 LinkType:
  the field of the link type says more of the frames than that they are Ethernet

may be the cause:
  each frame ends with its check sequence, as the field of the link type can say
look next at:
  the settings of the capture, which has to be made again without the check sequences
== data plain: - cut |  |  | plain |  | A file that is cut in its header.
refused by 13 CutHeader:
  the file ends inside its header

may be the cause:
  the file is not whole
look next at:
  where the file comes from: it has to be copied again
== data plain: 0 1 cut |  |  | plain |  | A file that is cut in a record.
refused by 14 CutRecord:
  the file ends inside this record

record 2

may be the cause:
  the file is not whole
look next at:
  last_record in the parameters, which can end the window before it
up to there:
  the 1 packet before it is explained by itself:
    client to server: 0 of 0 messages surely taken
    server to client: 0 of 0 messages surely taken
    with last_record = 1 in the parameters, that is told whole
== data plain: 0%50 | 16=50 17=0 18=0 19=0 |  | plain |  | A datagram that wasn't captured whole.
refused by 15 CutPacket:
  a datagram between the recorded hosts was not captured whole
  snapshot length in the file's header: 50 bytes

record 1, 1970-01-01 00:00:00.000000 UTC

may be the cause:
  the snapshot length of the capture was too small
look next at:
  the settings of the capture, which has to be made again
== data plain: 0 | 60=32 |  | plain |  | More fragments follow.
refused by 16 Fragment:
  this is an IPv4 fragment between the recorded hosts

record 1, 1970-01-01 00:00:00.000000 UTC

may be the cause:
  the frame isn't one of the connection, or is damaged
look next at:
  the frame; if it isn't part of the connection, leave it out with --without
== data plain: 0 | 34=5 |  | plain |  | A record of more bytes than one may have.
refused by 18 RecordTooLong:
  this record has more than 262144 bytes

record 1

may be the cause:
  the file is damaged, or segmentation was offloaded
look next at:
  the frame; if it isn't part of the connection, leave it out with --without
== data plain: 0 | 79=0 |  | plain |  | A wrong length of UDP.
refused by 19 BadUdp:
  the lengths of IPv4 and UDP contradict each other

record 1, 1970-01-01 00:00:00.000000 UTC

may be the cause:
  the frame isn't one of the connection, or is damaged
look next at:
  the frame; if it isn't part of the connection, leave it out with --without
"#;

/// The cases of refused files.
pub fn files() -> &'static str {
    FILES
}
