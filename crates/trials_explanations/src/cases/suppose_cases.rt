//! Captures with gaps, and what is told of PDUs that are supposed there.

/// What stands before the part on what is supposed: the end of the words on what the packets alone show.
pub const GAP: &str = "and that the tap missed nothing.\n\n";

const SUPPOSED: &str = r#"
== heartbeats plain: 0 1 2 3 5 |  | suppose=1 | plain |  | A heartbeat is missing, and data would do as well.
explained with 1 supposed PDU, as a hypothesis: if the tap missed what follows, the rules can explain all packets
  from the server, redundancy number 42, SN 502, just before record 5, 1970-01-01 00:00:00.000000 UTC, channel 1
    types that fit: 2 of 2 that were tried
    6220, heartbeat, for example CS 101, TS 9010, CTS 1010
    6240, data, its messages not known, for example CS 101, TS 9010, CTS 1010
client to server: 0 of 0 captured messages surely taken under each of these 2 fillings, and under these alone
server to client: 0 of 0 captured messages surely taken under each of these 2 fillings, and under these alone
== lost plain: 0 1 2 3 4 5 7 8 9 10 |  | suppose=1 | plain |  | A response is missing.
explained with 1 supposed PDU, as a hypothesis: if the tap missed what follows, the rules can explain all packets
  from the client, redundancy number 11, SN 104, just before record 7, 1970-01-01 00:00:00.000000 UTC, channel 1
    types that fit: 1 of 3 that were tried
    6213, retransmission response, for example CS 501, TS 1030, CTS 9060
client to server: 2 of 2 captured messages surely taken under this filling, and under this alone
server to client: 0 of 0 captured messages surely taken under this filling, and under this alone
== lost plain: 0 1 2 3 5 6 7 8 9 10 |  | suppose=1 | plain |  | Data are missing that the other end missed something before.
explained with 1 supposed PDU, as a hypothesis: if the tap missed what follows, the rules can explain all packets
  from the client, redundancy number 10, SN 103, just before record 5, 1970-01-01 00:00:00.000000 UTC, channel 1
    types that fit: 1 of 2 that were tried
    6240, data, its messages not known, for example CS 500, TS 1020, CTS 9000
client to server: 1 of 1 captured messages surely taken under this filling, and under this alone
server to client: 0 of 0 captured messages surely taken under this filling, and under this alone
== lost plain: 0 1 2 3 4 6 7 8 9 10 |  | suppose=1 | plain |  | A request is missing.
explained with 1 supposed PDU, as a hypothesis: if the tap missed what follows, the rules can explain all packets
  from the server, redundancy number 41, SN 501, just before record 6, 1970-01-01 00:00:00.000000 UTC, channel 1
    types that fit: 1 of 3 that were tried
    6212, retransmission request, for example CS 101, TS 9060, CTS 1010
client to server: 2 of 2 captured messages surely taken under this filling, and under this alone
server to client: 0 of 0 captured messages surely taken under this filling, and under this alone
== crossed plain: 0 1 2 3 4 5 6 7 8 10 11 12 13 14 15 16 |  | suppose=1 | plain |  | The response to a request is missing that wasn't in sequence.
explained with 1 supposed PDU, as a hypothesis: if the tap missed what follows, the rules can explain all packets
  from the client, redundancy number 12, SN 105, just before record 10, 1970-01-01 00:00:00.000000 UTC, channel 1
    types that fit: 1 of 4 that were tried
    6213, retransmission response, for example CS 500, TS 1040, CTS 9000
client to server: 2 of 2 captured messages surely taken under this filling, and under this alone
server to client: 2 of 2 captured messages surely taken under this filling, and under this alone
== heartbeats plain: 0 1 2 3 6 |  | suppose=2 | plain |  | Two PDUs are missing together.
explained with 2 supposed PDUs, as a hypothesis: if the tap missed what follows, the rules can explain all packets
  from the server, redundancy number 42, SN 502, just before record 5, 1970-01-01 00:00:00.000000 UTC, channel 1
    types that fit: 2 of 2 that were tried
    6220, heartbeat, for example CS 101, TS 9010, CTS 1010; filling 1
    6240, data, its messages not known, for example CS 101, TS 9010, CTS 1010; filling 2
  from the server, redundancy number 43, SN 503, just before record 5, 1970-01-01 00:00:00.000000 UTC, channel 1
    6220, heartbeat, for example CS 101, TS 9010, CTS 1010; filling 1
    6240, data, its messages not known, for example CS 101, TS 9010, CTS 1010; filling 2
client to server: 0 of 0 captured messages surely taken under each of these 2 fillings, and under these alone
server to client: 0 of 0 captured messages surely taken under each of these 2 fillings, and under these alone
== heartbeats plain: 0 1 2 3 5 7 |  | suppose=2 | plain |  | Two PDUs are missing apart.
explained with 2 supposed PDUs, as a hypothesis: if the tap missed what follows, the rules can explain all packets
  from the server, redundancy number 42, SN 502, just before record 5, 1970-01-01 00:00:00.000000 UTC, channel 1
    types that fit: 2 of 2 that were tried
    6220, heartbeat, for example CS 101, TS 9010, CTS 1010; filling 1, 3
    6240, data, its messages not known, for example CS 101, TS 9010, CTS 1010; filling 2
  from the server, redundancy number 44, SN 504, just before record 6, 1970-01-01 00:00:00.000000 UTC, channel 1
    types that fit: 2 of 2 that were tried
    6220, heartbeat, for example CS 101, TS 9030, CTS 1010; filling 1, 2
    6240, data, its messages not known, for example CS 101, TS 9030, CTS 1010; filling 3
client to server: 0 of 0 captured messages surely taken under each of these 3 fillings, and under these alone
server to client: 0 of 0 captured messages surely taken under each of these 3 fillings, and under these alone
== equal plain: 0 1 2 5 6 7 8 9 |  | suppose=2 | plain |  | Of equal data one is sent again. By filling 1 it is the captured one, which was then surely taken; by filling 2 not.
explained with 2 supposed PDUs, as a hypothesis: if the tap missed what follows, the rules can explain all packets
  from the server, redundancy number 41, SN 501, just before record 4, 1970-01-01 00:00:00.000000 UTC, channel 1
    types that fit: 2 of 2 that were tried
    6220, heartbeat, for example CS 101, TS 9000, CTS 1010; filling 1
    6240, data, its messages not known, for example CS 101, TS 9000, CTS 1010; filling 2
  from the server, redundancy number 42, SN 502, just before record 4, 1970-01-01 00:00:00.000000 UTC, channel 1
    6220, heartbeat, for example CS 101, TS 9000, CTS 1010; filling 1
    6240, data, its messages not known, for example CS 101, TS 9000, CTS 1010; filling 2
client to server: 0 of 0 captured messages surely taken under each of these 2 fillings, and under these alone
server to client: 0 of 1 captured messages surely taken under each of these 2 fillings, and under these alone
== equal plain: 0 1 2 5 6 7 8 9 10 |  | suppose=2 | plain |  | The heartbeat behind shows that nothing else is sent again, which filling 1 alone fits.
explained with 2 supposed PDUs, as a hypothesis: if the tap missed what follows, the rules can explain all packets
  from the server, redundancy number 41, SN 501, just before record 4, 1970-01-01 00:00:00.000000 UTC, channel 1
    types that fit: 1 of 2 that were tried
    6220, heartbeat, for example CS 101, TS 9000, CTS 1010
  from the server, redundancy number 42, SN 502, just before record 4, 1970-01-01 00:00:00.000000 UTC, channel 1
    6220, heartbeat, for example CS 101, TS 9000, CTS 1010
client to server: 0 of 0 captured messages surely taken under this filling, and under this alone
server to client: 1 of 1 captured messages surely taken under this filling, and under this alone
== heartbeats plain: 0 1 2 3 6 |  | suppose=1 | plain |  | More PDUs are missing than may be supposed.
nothing is supposed: more PDUs are missing than may be supposed, or number and SN don't skip alike
== heartbeats plain: 0 1 2 3 5 18 |  | suppose=1 | plain |  | Behind the gap the server asks for what nobody sent.
no filling of the gaps was found with which the rules can explain all packets
  from the server, 1 missing, before record 5, 1970-01-01 00:00:00.000000 UTC, channel 1
    6220, heartbeat: explains all packets before record 6, 1970-01-01 00:00:00.000000 UTC, channel 1
    6240, data: explains all packets before record 6, 1970-01-01 00:00:00.000000 UTC, channel 1
"#;

/// Cases with what is told of PDUs that are supposed.
pub fn supposed() -> &'static str {
    SUPPOSED
}
