//! Packets that are refused, and the texts on them.

const PACKETS: &str = r#"
== data plain: 0 | 82=51 |  | plain |  | A wrong length of the redundancy layer.
refused by 20 RedundancyLength:
  the length field isn't the datagram's length

record 1, 1970-01-01 00:00:00.000000 UTC, channel 1, from the client
  bytes of the datagram: 50
  type: 6200, connection request
  length field: 51
  redundancy number: 7
  length field of the safety layer: 42
  receiver: 97
  sender: 96
  SN: 100
  CS: 0
  TS: 1000
  CTS: 0
  payload and codes: 3033303314000000000000000000
what is wrong with it:
  length field due: 50

may be the cause:
  a stranger on the recorded addresses; an end that broke the rules; a damaged packet; or,
  at the first packet, a wrong length of a code in the parameters
look next at:
  the packet's sender, and what --without with its record says
== data plain: 2 |  |  | code16 |  | A heartbeat without a safety code, where one of 16 bytes is recorded.
refused by 21 TooShort:
  the datagram is too short for a PDU with these code lengths

record 1, 1970-01-01 00:00:00.000000 UTC, channel 1, from the client
  bytes of the datagram: 36
  type: 6220, heartbeat
  length field: 36
  redundancy number: 8
  length field of the safety layer: 28
  receiver: 97
  sender: 96
  SN: 101
  CS: 500
  TS: 1010
  CTS: 9000
what is wrong with it:
  bytes of the datagram due: 52 or more
  lengths that it fits: check code 0, safety code 0

may be the cause:
  a stranger on the recorded addresses; an end that broke the rules; a damaged packet; or,
  at the first packet, a wrong length of a code in the parameters
look next at:
  the packet's sender, and what --without with its record says
== data plain: 0 | 90=41 |  | plain |  | A wrong length of the safety layer.
refused by 22 SafetyLength:
  the length field of the safety layer is wrong

record 1, 1970-01-01 00:00:00.000000 UTC, channel 1, from the client
  bytes of the datagram: 50
  type: 6200, connection request
  length field: 50
  redundancy number: 7
  length field of the safety layer: 41
  receiver: 97
  sender: 96
  SN: 100
  CS: 0
  TS: 1000
  CTS: 0
  payload and codes: 3033303314000000000000000000
what is wrong with it:
  length field of the safety layer due: 42

may be the cause:
  a stranger on the recorded addresses; an end that broke the rules; a damaged packet; or,
  at the first packet, a wrong length of a code in the parameters
look next at:
  the packet's sender, and what --without with its record says
== data plain: 0 | 92=0 |  | plain |  | An unknown type.
refused by 23 Type:
  this is none of the eight types of PDU

record 1, 1970-01-01 00:00:00.000000 UTC, channel 1, from the client
  bytes of the datagram: 50
  type: 6144, none of the eight types
  length field: 50
  redundancy number: 7
  length field of the safety layer: 42
  receiver: 97
  sender: 96
  SN: 100
  CS: 0
  TS: 1000
  CTS: 0
  payload and codes: 3033303314000000000000000000
what is wrong with it:
  type due: 6200, 6201, 6212, 6213, 6216, 6220, 6240 or 6241
  type found: 6144

may be the cause:
  a stranger on the recorded addresses; an end that broke the rules; a damaged packet; or,
  at the first packet, a wrong length of a code in the parameters
look next at:
  the packet's sender, and what --without with its record says
== data code16: 0 |  |  | plain |  | A safety code where none is recorded.
refused by 24 Payload:
  the payload doesn't have the layout of its type

record 1, 1970-01-01 00:00:00.000000 UTC, channel 1, from the client
  bytes of the datagram: 66
  type: 6200, connection request
  length field: 66
  redundancy number: 7
  length field of the safety layer: 58
  receiver: 97
  sender: 96
  SN: 100
  CS: 0
  TS: 1000
  CTS: 0
  payload and codes: 3033303314000000000000000000aa52f7692e24d7945792518053f85026
what is wrong with it:
  payload due: 14 bytes, which begin with a version of four digits
  bytes of the payload: 30
  lengths that it fits: check code 0, safety code 16

may be the cause:
  a stranger on the recorded addresses; an end that broke the rules; a damaged packet; or,
  at the first packet, a wrong length of a code in the parameters
look next at:
  the packet's sender, and what --without with its record says
== data code16: 0 1 2 2 flip |  |  | code16 |  | A late copy with a flipped bit.
refused by 25 Code:
  the safety code is wrong

record 4, 1970-01-01 00:00:00.000000 UTC, channel 1, from the client
  bytes of the datagram: 52
  type: 6220, heartbeat
  length field: 52
  redundancy number: 8
  length field of the safety layer: 44
  receiver: 97
  sender: 96
  SN: 101
  CS: 500
  TS: 1010
  CTS: 9000
  payload and codes: 7a9bef200a8e93ad6ea9b769f0c39b06
what is wrong with it:
  safety code found: 7a9bef200a8e93ad6ea9b769f0c39b06
  safety code due: 7a9bef200a8e93ad6ea9b769f0c39b07
  another packet with its number: record 3, 1970-01-01 00:00:00.000000 UTC, channel 1
  byte 51 of the datagram: 06, in the first copy 07

may be the cause:
  a bit flipped on the line, if it is a later copy; a stranger; an end that broke the rules;
  or, at the first packet, wrong start words
look next at:
  how this packet differs from its first copy, and what --without with its record says
up to there:
  the 3 packets before it are explained by themselves:
    client to server: 0 of 0 messages surely taken
    server to client: 0 of 0 messages surely taken
    with last_record = 3 in the parameters, that is told whole
== data plain: 0 | 94=98 |  | plain |  | The ids of other ends.
refused by 26 Ids:
  sender or receiver isn't the recorded one

record 1, 1970-01-01 00:00:00.000000 UTC, channel 1, from the client
  bytes of the datagram: 50
  type: 6200, connection request
  length field: 50
  redundancy number: 7
  length field of the safety layer: 42
  receiver: 98
  sender: 96
  SN: 100
  CS: 0
  TS: 1000
  CTS: 0
  payload and codes: 3033303314000000000000000000
what is wrong with it:
  receiver due: 97
  sender due: 96

may be the cause:
  a stranger on the recorded addresses, or a wrong id in the parameters
look next at:
  the packet's sender, and what --without with its record says
== data plain: 0 1 2 3 4 5 6@2 |  |  | plain |  | A number that was used twice.
refused by 27 CopyDiffers:
  this redundancy number has crossed before, with other bytes

record 7, 1970-01-01 00:00:00.000000 UTC, channel 2, from the client
  bytes of the datagram: 40
  type: 6216, disconnection request
  length field: 40
  redundancy number: 10
  length field of the safety layer: 32
  receiver: 97
  sender: 96
  SN: 103
  CS: 501
  TS: 2815
  CTS: 9050
  payload and codes: 00000400
what is wrong with it:
  another packet with its number: record 6, 1970-01-01 00:00:00.000000 UTC, channel 1
  byte 28 of the datagram: ff, in the first copy fe

may be the cause:
  a bit flipped on the line; a stranger; or an end that used a number twice
look next at:
  how this packet differs from its first copy, and what --without with its record says
up to there:
  the 6 packets before it are explained by themselves:
    client to server: 2 of 2 messages surely taken
    server to client: 0 of 0 messages surely taken
    with last_record = 6 in the parameters, that is told whole
== data plain: 0 1 3 2 |  |  | plain |  | The missing packet crosses later.
refused by 28 NumberGap:
  this redundancy number has not crossed before, and isn't the next

record 3, 1970-01-01 00:00:00.000000 UTC, channel 1, from the client
  bytes of the datagram: 42
  type: 6240, data
  length field: 42
  redundancy number: 9
  length field of the safety layer: 34
  receiver: 97
  sender: 96
  SN: 102
  CS: 500
  TS: 1020
  CTS: 9000
  payload and codes: 0200ab010000
what is wrong with it:
  redundancy number due: 8
  redundancy number found: 9
  SN due: 101
  SN found: 102
  the end's last number before it: 7, SN 100, first copy in record 1, 1970-01-01 00:00:00.000000 UTC, channel 1
  8 crosses later: record 4, 1970-01-01 00:00:00.000000 UTC, channel 1
  the capture has the opening of the connection

may be the cause:
  on channel 2 no packet was captured: one of its addresses in the parameters is wrong, or its tap is missing
  the packet that was due was overtaken before it reached the tap
look next at:
  the packets of this end around the missing number, with seatmelon show; if the tap may have missed
  PDUs, what --suppose N says; behind the gap the capture can be explained from a quiet point, of
  which seatmelon draft CAPTURE N --after RECORD PARAMS proposes some
up to there:
  the 2 packets before it are explained by themselves:
    client to server: 0 of 0 messages surely taken
    server to client: 0 of 0 messages surely taken
    with last_record = 2 in the parameters, that is told whole
== data plain: 0 1 3 |  |  | plain |  | A packet is missing.
refused by 28 NumberGap:
  this redundancy number has not crossed before, and isn't the next

record 3, 1970-01-01 00:00:00.000000 UTC, channel 1, from the client
  bytes of the datagram: 42
  type: 6240, data
  length field: 42
  redundancy number: 9
  length field of the safety layer: 34
  receiver: 97
  sender: 96
  SN: 102
  CS: 500
  TS: 1020
  CTS: 9000
  payload and codes: 0200ab010000
what is wrong with it:
  redundancy number due: 8
  redundancy number found: 9
  SN due: 101
  SN found: 102
  the end's last number before it: 7, SN 100, first copy in record 1, 1970-01-01 00:00:00.000000 UTC, channel 1
  8 doesn't cross later in the window
  both numbers skip 1, as where so many whole PDUs never reached the tap or were cut from the file
  the capture has the opening of the connection

may be the cause:
  on channel 2 no packet was captured: one of its addresses in the parameters is wrong, or its tap is missing
  the tap missed whole PDUs, or they were cut from the file
look next at:
  the packets of this end around the missing number, with seatmelon show; if the tap may have missed
  PDUs, what --suppose N says; behind the gap the capture can be explained from a quiet point, of
  which seatmelon draft CAPTURE N --after RECORD PARAMS proposes some
up to there:
  the 2 packets before it are explained by themselves:
    client to server: 0 of 0 messages surely taken
    server to client: 0 of 0 messages surely taken
    with last_record = 2 in the parameters, that is told whole
== data plain: 0 1 2 3 |  | 3 | plain |  | The same where the heartbeat of a whole capture is left out.
refused by 28 NumberGap without record 3:
  this redundancy number has not crossed before, and isn't the next

record 4, 1970-01-01 00:00:00.000000 UTC, channel 1, from the client
  bytes of the datagram: 42
  type: 6240, data
  length field: 42
  redundancy number: 9
  length field of the safety layer: 34
  receiver: 97
  sender: 96
  SN: 102
  CS: 500
  TS: 1020
  CTS: 9000
  payload and codes: 0200ab010000
what is wrong with it:
  redundancy number due: 8
  redundancy number found: 9
  SN due: 101
  SN found: 102
  the end's last number before it: 7, SN 100, first copy in record 1, 1970-01-01 00:00:00.000000 UTC, channel 1
  8 doesn't cross later in the window
  both numbers skip 1, as where so many whole PDUs never reached the tap or were cut from the file
  the capture has the opening of the connection

may be the cause:
  on channel 2 no packet was captured: one of its addresses in the parameters is wrong, or its tap is missing
  the tap missed whole PDUs, or they were cut from the file
look next at:
  the packets of this end around the missing number, with seatmelon show; if the tap may have missed
  PDUs, what --suppose N says; behind the gap the capture can be explained from a quiet point, of
  which seatmelon draft CAPTURE N --after RECORD PARAMS proposes some
up to there:
  the 2 packets before it are explained by themselves:
    client to server: 0 of 0 messages surely taken
    server to client: 0 of 0 messages surely taken
    with last_record = 3 in the parameters, that is told whole
== data plain: 2 |  |  | plain |  | A heartbeat, and no opening before it.
refused by 60 NotFound:
  no two ends that keep the rules send packets that begin with those up to this one

the client's PDU in record 1, 1970-01-01 00:00:00.000000 UTC, channel 1
  type: 6220, heartbeat
  redundancy number: 8
  SN: 101
  CS: 500
  TS: 1010
  CTS: 9000
the rule that it breaks, found by a second pass, on which the verdict doesn't rest:
  CS 500 confirms a PDU of the server, and none crosses

may be the cause:
  on channel 2 no packet was captured: one of its addresses in the parameters is wrong, or its tap is missing
  the capture begins in the middle of the connection, and the parameters record no quiet point;
  or the opening is there, but outside the window or on a channel that isn't recorded
look next at:
  the quiet points that seatmelon draft proposes, one of which the engineering data or a log
  has to confirm; or the window and the channels in the parameters
== data plain: 0 2 |  |  | plain |  | A heartbeat of a client that nobody answered.
refused by 60 NotFound:
  no two ends that keep the rules send packets that begin with those up to this one

the client's PDU in record 2, 1970-01-01 00:00:00.000000 UTC, channel 1
  type: 6220, heartbeat
  redundancy number: 8
  SN: 101
  CS: 500
  TS: 1010
  CTS: 9000
the rule that it breaks, found by a second pass, on which the verdict doesn't rest:
  CS 500 confirms a PDU of the server, and none crosses

may be the cause:
  on channel 2 no packet was captured: one of its addresses in the parameters is wrong, or its tap is missing
  an end broke the rules; a stranger; a wrong parameter or quiet point; or an honest end
  repeated a retransmission request, both opened as client, or the connection was opened twice
look next at:
  this packet and those before it, with seatmelon show; and what --without says
"#;

/// The cases of refused packets.
pub fn packets() -> &'static str {
    PACKETS
}
