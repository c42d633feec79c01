//! Captures, and what their texts say of the rule behind a 60, or of a payload.
/// What the text says after this line.
pub const RULE: &str =
    "the rule that it breaks, found by a second pass, on which the verdict doesn't rest:\n";

/// What the text says after this line.
pub const TROUBLE: &str = "what is wrong with it:\n";

const RULES: &str = r#"
== data plain: 0 2 |  |  | plain |  | The client's opening offers a PDU that no server answers.
  CS 500 confirms a PDU of the server, and none crosses
== opened plain: 0 1 6 |  |  | plain
  CS 499 is the SN of no PDU of the server in the window
== data plain: 0 2 1 |  |  | plain
  CS 500 confirms a PDU of the server that crosses later
  that PDU: SN 500, record 3, 1970-01-01 00:00:00.000000 UTC, channel 1
== heartbeats plain: 0 1 2 3 14 15 | 510=245 518=50 |  | plain |  | The first of two data confirms 501 and its time stamp, the other 500.
  CS 500 confirms less than was confirmed before: SN 501
== lost plain: 0 1 2 3 4 5 10 | 704=103 |  | plain |  | After its request the server confirms 103, which came before any response.
  CS 103 confirms PDUs of the client after a retransmission request, but no response to it
== byes plain: 0 4 5 |  |  | plain |  | The server ends before it answers, and the client goes on.
  CS 500 confirms a PDU of the server that this end can't accept
  that PDU: SN 500, record 2, 1970-01-01 00:00:00.000000 UTC, channel 1
== byes plain: 0 1 5 7 |  |  | plain
  no retransmission request of the client is left that crossed before and can be answered
== lost plain: 0 1 2 3 4 5 11 |  |  | plain |  | A request, and the same again.
  no PDU of the client is left that crossed before and makes this end request a retransmission
== timed plain: 0 1 2 14 |  |  | plain
  SN isn't the next one of this end
  SN due: 102
  SN found: 112
== quiet plain: 4 |  |  | other |  | From a quiet point at which another SN was next.
  SN isn't the next one of this end
  SN due: 103
  SN found: 102
== timed plain: 0 1 3 |  |  | plain
  CTS is none of the time stamps that the end can confirm
  CTS found: 9001
== timed plain: 0 1 2 5 |  |  | plain
  the deadline and the slack have passed
  the PDU that set the deadline: SN 101, record 3, 1970-01-01 00:00:00.000000 UTC, channel 1
  TS found: 10801
  clock: 10801
  confirmed time: 9000
  T_max: 1800, slack: 0
  deadline: 10800
== byes plain: 0 1 5 6 |  |  | plain |  | A second opening.
  the client is connected: it may send what it owes, or else data, a heartbeat or a disconnection request
== byes plain: 0 6 | 194=8 210=101 |  | plain |  | A second opening before the first one is answered.
  the client is opening: before it takes the connection response it may send only a disconnection request
== byes plain: 1 | 92=56 |  | plain |  | The server opens.
  the server waits for a connection request, and may send nothing before it
== byes plain: 0 1 1 | 302=41 318=245 |  | plain |  | A second connection response.
  the server is opening: it may send one connection response, and else only a disconnection request
== lost plain: 0 1 2 3 4 5 1 | 684=42 690=56 700=246 |  | plain |  | The server opens while it asks.
  the server asks for a retransmission: it may send what it owes, or else data, a heartbeat or a disconnection request
== lost plain: 0 1 2 3 4 5 6 1 | 778=42 794=246 798=104 802=130 803=35 806=46 807=4 |  | plain |  | The server answers an opening in a retransmission.
  the server takes a retransmission: it may send what it owes, or else data, a heartbeat or a disconnection request
"#;

/// The cases of rules behind a 60.
pub fn rules() -> &'static str {
    RULES
}

const LAYOUTS: &str = r#"
== data code16: 2 |  |  | plain |  | The safety code is no part of a payload.
  payload due: none
  bytes of the payload: 16
  lengths that it fits: check code 0, safety code 16
== data code16: 5 |  |  | plain
  payload due: 4 bytes
  bytes of the payload: 20
  lengths that it fits: check code 0, safety code 16
== data plain: 0 | 118=255 |  | plain
  payload due: 14 bytes, which begin with a version of four digits
  bytes of the payload: 14
  version found: hex ff333033, text \xff303
== data plain: 3 | 118=5 |  | plain
  payload due: one or more messages, each after its length in 2 bytes, and nothing else
  bytes of the payload: 6
  length of the message at byte 0 of the payload: 5
  bytes of the payload after it: 4
== data plain: 3 | 122=1 |  | plain
  payload due: one or more messages, each after its length in 2 bytes, and nothing else
  bytes of the payload: 6
  length of the message at byte 4 of the payload: 1
  bytes of the payload after it: 0
== data plain: 3 | 118=3 |  | plain
  payload due: one or more messages, each after its length in 2 bytes, and nothing else
  bytes of the payload: 6
  length of the message at byte 5 of the payload: cut after one byte
"#;

/// The cases of payloads that don't have the layout of their type.
pub fn layouts() -> &'static str {
    LAYOUTS
}
