//! Captures, and what their texts name as the cause of a packet that is missing or that no run explains.
/// What the text says after this line.
pub const CAUSES: &str = "may be the cause:\n";

// The second channel has no packet, but for the first case, where it has one of twelve.
const CASES: &str = r#"
== heartbeats plain: 0 1 2 3 4 5 6 7 8 9 10 12@2 |  |  | plain |  | A heartbeat is missing.
  on channel 2 few packets were captured: 1, and on the fullest 11
  the tap missed whole PDUs, or they were cut from the file
look next at:
  the packets of this end around the missing number, with seatmelon show; if the tap may have missed
  PDUs, what --suppose N says; behind the gap the capture can be explained from a quiet point, of
  which seatmelon draft CAPTURE N --after RECORD PARAMS proposes some
up to there:
  the 11 packets before it are explained by themselves:
    client to server: 0 of 0 messages surely taken
    server to client: 0 of 0 messages surely taken
    with last_record = 11 in the parameters, that is told whole
== data plain: 0 1 3 | 24=9 |  | plain |  | The first record is later than the second.
  on channel 2 no packet was captured: one of its addresses in the parameters is wrong, or its tap is missing
  times fall, first in record 2: files in the wrong order, or taps whose clocks differ
  the tap missed whole PDUs, or they were cut from the file
look next at:
  the packets of this end around the missing number, with seatmelon show; if the tap may have missed
  PDUs, what --suppose N says; behind the gap the capture can be explained from a quiet point, of
  which seatmelon draft CAPTURE N --after RECORD PARAMS proposes some
up to there:
  the 2 packets before it are explained by themselves:
    client to server: 0 of 0 messages surely taken
    server to client: 0 of 0 messages surely taken
    with last_record = 2 in the parameters, that is told whole
== data plain: 0 1 3 2 | 240=9 |  | plain |  | The record of the number that was due is earlier.
  on channel 2 no packet was captured: one of its addresses in the parameters is wrong, or its tap is missing
  times fall, first in record 4: files in the wrong order, or taps whose clocks differ
  the packet that was due was overtaken before it reached the tap
look next at:
  the packets of this end around the missing number, with seatmelon show; if the tap may have missed
  PDUs, what --suppose N says; behind the gap the capture can be explained from a quiet point, of
  which seatmelon draft CAPTURE N --after RECORD PARAMS proposes some
up to there:
  the 2 packets before it are explained by themselves:
    client to server: 0 of 0 messages surely taken
    server to client: 0 of 0 messages surely taken
    with last_record = 2 in the parameters, that is told whole
== data plain: 0 1 3 2 4 | 340=9 |  | plain |  | Times fall behind that record alone.
  on channel 2 no packet was captured: one of its addresses in the parameters is wrong, or its tap is missing
  the packet that was due was overtaken before it reached the tap
look next at:
  the packets of this end around the missing number, with seatmelon show; if the tap may have missed
  PDUs, what --suppose N says; behind the gap the capture can be explained from a quiet point, of
  which seatmelon draft CAPTURE N --after RECORD PARAMS proposes some
up to there:
  the 2 packets before it are explained by themselves:
    client to server: 0 of 0 messages surely taken
    server to client: 0 of 0 messages surely taken
    with last_record = 2 in the parameters, that is told whole
== data plain: 0 2 1 |  |  | plain |  | What the client confirms crosses later.
  on channel 2 no packet was captured: one of its addresses in the parameters is wrong, or its tap is missing
  SN 500 is confirmed before it crosses: two taps whose clocks differ, or files in the wrong order
  an end broke the rules; a stranger; a wrong parameter or quiet point; or an honest end
  repeated a retransmission request, both opened as client, or the connection was opened twice
look next at:
  this packet and those before it, with seatmelon show; and what --without says
== lost plain: 7 9 10 11 |  |  | plain |  | The capture begins in the middle: a number of the client is missing.
  on channel 2 no packet was captured: one of its addresses in the parameters is wrong, or its tap is missing
  the first packets of the capture may be late copies of PDUs from before it; from record 2 on the numbers of each end rise by one
  the capture begins in the middle of the connection, and the parameters record no quiet point;
  or the tap missed PDUs right at the beginning
look next at:
  what the packets show alone, below; or a quiet point behind these packets, of which
  seatmelon draft CAPTURE N --after RECORD PARAMS proposes some
up to there:
  the packets before it aren't explained by themselves either: refused by 60 NotFound, record 1
"#;

/// The cases of causes.
pub fn causes() -> &'static str {
    CASES
}
