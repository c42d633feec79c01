//! Certificates of which an end can't do an entry, and the texts on them.

const STEPS: &str = r#"
== data plain: 0 1 2 |  |  | plain | rasta-certificate 1; client; make 0 1000 open; take 2 40; make 2 1011 reply; server; take 1 7; make 1 9000 reply; end;  | The clock of a make is not the time stamp of its PDU.
refused by 36 ClockDiffers:
  the PDU's time stamp isn't the clock of the make

entry 3 of the client's script, line 5 of the certificate
the client's PDU in record 3, 1970-01-01 00:00:00.000000 UTC, channel 1
  type: 6220, heartbeat
  redundancy number: 8
  SN: 101
  CS: 500
  TS: 1010
  CTS: 9000

may be the cause:
  the certificate is wrong: another one may explain the same packets
look next at:
  the entry and those before it; and what seatmelon explain says without a certificate
== wrapped plain: 0 1 2 3 4 |  |  | plain | rasta-certificate 1; client; make 0 4294967280 open; take 2 40; make 2 4 reply; server; end;  | A clock that isn't carried on past 32 bits.
refused by 37 ClockFalls:
  the clock is below that of the make before

entry 3 of the client's script, line 5 of the certificate
the client's PDU in record 3, 1970-01-01 00:00:00.000000 UTC, channel 1
  type: 6220, heartbeat
  redundancy number: 0
  SN: 0
  CS: 500
  TS: 4
  CTS: 9000

may be the cause:
  the certificate is wrong: another one may explain the same packets
look next at:
  the entry and those before it; and what seatmelon explain says without a certificate
== data plain: 0 1 2 3 8 |  |  | plain | rasta-certificate 1; client; make 0 1000 open; take 2 40; make 2 1010 reply; make 3 1020 fresh; server; take 1 7; make 1 9000 reply; take 4 8; take 4 9; make 4 10801 beat; end;  | It makes a PDU past its deadline.
refused by 38 PastDeadline:
  the deadline and the slack have passed

entry 5 of the server's script, line 12 of the certificate
the server's PDU in record 5, 1970-01-01 00:00:00.000000 UTC, channel 1
  type: 6220, heartbeat
  redundancy number: 41
  SN: 501
  CS: 102
  TS: 10801
  CTS: 1020

may be the cause:
  the certificate is wrong: another one may explain the same packets
look next at:
  the entry and those before it; and what seatmelon explain says without a certificate
== data plain: 0 1 2 3 4 |  |  | plain | rasta-certificate 1; client; make 0 1000 open; take 2 40; make 2 1010 reply; make 3 1020 fresh; server; take 1 7; make 1 9000 reply; take 4 8; make 4 9050 beat; end;  | What the PDU confirms isn't taken.
refused by 39 ConfirmedNumber:
  CS isn't the SN of the PDU accepted last

entry 4 of the server's script, line 11 of the certificate
the server's PDU in record 5, 1970-01-01 00:00:00.000000 UTC, channel 1
  type: 6220, heartbeat
  redundancy number: 41
  SN: 501
  CS: 102
  TS: 9050
  CTS: 1020

may be the cause:
  the certificate is wrong: another one may explain the same packets
look next at:
  the entry and those before it; and what seatmelon explain says without a certificate
== opened plain: 0 1 7 |  |  | plain | rasta-certificate 1; client; make 0 1000 open; take 2 40; make 2 1010 reply; server; take 1 7; make 1 9000 reply; end;  | The time stamp that is confirmed is none of the peer's.
refused by 40 ConfirmedTime:
  CTS is none of the time stamps that the end can confirm

entry 3 of the client's script, line 5 of the certificate
the client's PDU in record 3, 1970-01-01 00:00:00.000000 UTC, channel 1
  type: 6220, heartbeat
  redundancy number: 8
  SN: 101
  CS: 500
  TS: 1010
  CTS: 8999

may be the cause:
  the certificate is wrong: another one may explain the same packets
look next at:
  the entry and those before it; and what seatmelon explain says without a certificate
== data plain: 0 1 2 |  |  | plain | rasta-certificate 1; client; make 0 1000 open; take 2 40; make 2 1010 reply; server; take 1 7; make 1 9000 beat; end;  | An entry of the server.
refused by 41 NotAllowed:
  the end can't make this PDU in this phase for this reason

entry 2 of the server's script, line 8 of the certificate
the server's PDU in record 2, 1970-01-01 00:00:00.000000 UTC, channel 1
  type: 6201, connection response
  redundancy number: 40
  SN: 500
  CS: 100
  TS: 9000
  CTS: 1000

may be the cause:
  the certificate is wrong: another one may explain the same packets
look next at:
  the entry and those before it; and what seatmelon explain says without a certificate
== data plain: 0 1 2 3 4 |  |  | plain | rasta-certificate 1; client; make 0 1000 open; take 2 40; make 2 1010 beat; server; end;  | A reply is owed, and a heartbeat of its own is made.
refused by 42 ReplyOwed:
  the end owes something else first, or may not take anything yet

entry 3 of the client's script, line 5 of the certificate
the client's PDU in record 3, 1970-01-01 00:00:00.000000 UTC, channel 1
  type: 6220, heartbeat
  redundancy number: 8
  SN: 101
  CS: 500
  TS: 1010
  CTS: 9000

may be the cause:
  the certificate is wrong: another one may explain the same packets
look next at:
  the entry and those before it; and what seatmelon explain says without a certificate
== lost plain: 0 1 2 3 4 5 6 7 14 |  |  | plain | rasta-certificate 1; client; make 0 1000 open; take 2 40; make 2 1010 reply; make 3 1020 fresh; make 4 1030 fresh; take 6 41; make 6 1070 reply; make 7 1071 again 0; make 8 1072 again 1; server; end;  | A PDU that is sent again is another one.
refused by 43 ResendDiffers:
  data that is sent again differs from what was sent first

entry 9 of the client's script, line 11 of the certificate
the client's PDU in record 9, 1970-01-01 00:00:00.000000 UTC, channel 1
  type: 6241, retransmitted data
  redundancy number: 13
  SN: 106
  CS: 501
  TS: 1072
  CTS: 9060
  message: hex 03, text \x03

may be the cause:
  the certificate is wrong: another one may explain the same packets
look next at:
  the entry and those before it; and what seatmelon explain says without a certificate
== byes plain: 0 1 2 6 |  |  | plain | rasta-certificate 1; client; make 0 1000 open; make 2 1010 bye; make 3 1020 open; server; end;  | An end that gave up opens again.
refused by 44 Closed:
  the connection of this end is over

entry 3 of the client's script, line 5 of the certificate
the client's PDU in record 4, 1970-01-01 00:00:00.000000 UTC, channel 1
  type: 6200, connection request
  redundancy number: 9
  SN: 102
  CS: 0
  TS: 1020
  CTS: 0

may be the cause:
  the certificate is wrong: another one may explain the same packets
look next at:
  the entry and those before it; and what seatmelon explain says without a certificate
== data slack: 0 1 2 3 4 5 |  |  | slack | rasta-certificate 1; client; make 0 1000 open; take 2 40; make 2 1010 reply; make 3 1020 fresh; take 5 41; make 5 2814 expired; server; end;  | It gives up too early.
refused by 46 TooEarlyTimeout:
  the end gave up before its deadline

entry 6 of the client's script, line 8 of the certificate
the client's PDU in record 6, 1970-01-01 00:00:00.000000 UTC, channel 1
  type: 6216, disconnection request
  redundancy number: 10
  SN: 103
  CS: 501
  TS: 2814
  CTS: 9050

may be the cause:
  the certificate is wrong: another one may explain the same packets
look next at:
  the entry and those before it; and what seatmelon explain says without a certificate
== quiet other: 0 1 |  |  | other | rasta-certificate 1; client; make 0 1020 fresh; server; end;  | The quiet point has another SN.
refused by 47 SequenceNumber:
  SN isn't the next one of this end

entry 1 of the client's script, line 3 of the certificate
the client's PDU in record 1, 1970-01-01 00:00:00.000000 UTC, channel 1
  type: 6240, data
  redundancy number: 9
  SN: 102
  CS: 500
  TS: 1020
  CTS: 9000
  message: hex ab01, text \xab\x01
  message: empty

may be the cause:
  the certificate is wrong: another one may explain the same packets
look next at:
  the entry and those before it; and what seatmelon explain says without a certificate
"#;

/// The cases of refused steps.
pub fn steps() -> &'static str {
    STEPS
}
