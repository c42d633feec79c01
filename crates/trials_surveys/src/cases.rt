//! Captures, and the texts that are wanted of them.

/// A capture, which is a file of these parts with these changes ([`crate::files::file_with`]), what it has of its own,
/// and a text on it.
#[derive(Clone, Copy)]
pub struct Case<'a> {
    pub parts: &'a str,
    pub changes: &'a str,
    pub name: &'a str,
    pub want: &'a str,
}

/// The case of these lines: `PARTS | CHANGES | NAME`, and the text.
pub fn case_in(lines: &str) -> Option<Case<'_>> {
    let (head, want) = lines.split_once('\n')?;
    let mut words = head.split(" | ");
    Some(Case {
        parts: words.next()?,
        changes: words.next()?,
        name: words.next()?,
        want,
    })
}

// Each form of a survey, behind `== ` a case. One text, and one function that names it: each of many texts costs its
// proof more than all of them in one.
const SURVEYS: &str = r#"
== data plain: 0 1 2 |  | Handshake.
records: 3
packets of RaSTA: 3
other records, passed over: 0

connection 1
  client id 96, version 0303, N_sendmax 20
  server id 97, version 0303, N_sendmax 20
  records 1 to 3
  captured from 1970-01-01 00:00:00.000000 to 1970-01-01 00:00:00.000000 UTC
  opened by the client at record 1
  no disconnection request was captured
  channel 1: 10.0.0.1:5000 - 10.0.0.2:5000, packets to the server: 2, to the client: 1
  a safety code of 0 bytes fits the length of 3 of 3 packets
  a check code of 0 bytes fits the length of 3 of 3 packets
  client sent connection request: 1
  client sent heartbeat: 1
  server sent connection response: 1
== data code16: 0 1 2 3 4 5 |  | With codes.
records: 6
packets of RaSTA: 6
other records, passed over: 0

connection 1
  client id 96, version 0303, N_sendmax 20
  server id 97, version 0303, N_sendmax 20
  records 1 to 6
  captured from 1970-01-01 00:00:00.000000 to 1970-01-01 00:00:00.000000 UTC
  opened by the client at record 1
  ended by the client at record 6, reason 4
  channel 1: 10.0.0.1:5000 - 10.0.0.2:5000, packets to the server: 4, to the client: 2
  a safety code of 16 bytes fits the length of 6 of 6 packets
    MD4's own start words fit 6 of these
  a check code of 0 bytes fits the length of 6 of 6 packets
  client sent connection request: 1
  client sent disconnection request: 1
  client sent heartbeat: 1
  client sent data: 1
  server sent connection response: 1
  server sent heartbeat: 1
== data zeros16: 4 3 |  | Other start words.
records: 2
packets of RaSTA: 2
other records, passed over: 0

connection 1
  end 1 id 97
  end 2 id 96
  records 1 to 2
  captured from 1970-01-01 00:00:00.000000 to 1970-01-01 00:00:00.000000 UTC
  no opening was captured
  no disconnection request was captured
  channel 1: 10.0.0.2:5000 - 10.0.0.1:5000, packets to the end 2: 1, to the end 1: 1
  a safety code of 16 bytes fits the length of 2 of 2 packets
    MD4's own start words fit 0 of these
  a check code of 0 bytes fits the length of 2 of 2 packets
  end 1 sent heartbeat: 1
  end 2 sent data: 1
== checked check4: 0 0@2 1@2 1 2 0@2 |  | Two channels.
records: 6
packets of RaSTA: 6
other records, passed over: 0

connection 1
  client id 96, version 0303, N_sendmax 20
  server id 97, version 0303, N_sendmax 20
  records 1 to 6
  captured from 1970-01-01 00:00:00.000000 to 1970-01-01 00:00:00.000000 UTC
  opened by the client at record 1
  no disconnection request was captured
  channel 1: 10.0.0.1:5000 - 10.0.0.2:5000, packets to the server: 2, to the client: 1
  channel 2: 10.0.1.1:5001 - 10.0.1.2:5001, packets to the server: 2, to the client: 1
  a safety code of 0 bytes fits the length of 6 of 6 packets
  a check code of 4 bytes fits the length of 6 of 6 packets
  client sent connection request: 1
  client sent heartbeat: 1
  client's copies: 2
  server sent connection response: 1
  server's copies: 1
== lost plain: 0 1 2 4 3 3 6 12 |  | Gap.
records: 8
packets of RaSTA: 8
other records, passed over: 0

connection 1
  client id 96, version 0303, N_sendmax 20
  server id 97, version 0303, N_sendmax 20
  records 1 to 8
  captured from 1970-01-01 00:00:00.000000 to 1970-01-01 00:00:00.000000 UTC
  opened by the client at record 1
  no disconnection request was captured
  channel 1: 10.0.0.1:5000 - 10.0.0.2:5000, packets to the server: 7, to the client: 1
  a safety code of 0 bytes fits the length of 8 of 8 packets
  a check code of 0 bytes fits the length of 8 of 8 packets
  client sent connection request: 1
  client sent retransmission response: 1
  client sent heartbeat: 1
  client sent data: 2
  client's gaps: 1, numbers missing: 1, the first: 9 at record 4
  client's numbers that came late: 1
  client's copies: 1
  client's copies that differ: 1
  server sent connection response: 1
== byes plain: 0 1 2 6 |  | Another request begins another connection.
records: 4
packets of RaSTA: 4
other records, passed over: 0

connection 1
  client id 96, version 0303, N_sendmax 20
  server id 97, version 0303, N_sendmax 20
  records 1 to 3
  captured from 1970-01-01 00:00:00.000000 to 1970-01-01 00:00:00.000000 UTC
  opened by the client at record 1
  ended by the client at record 3, reason 0
  channel 1: 10.0.0.1:5000 - 10.0.0.2:5000, packets to the server: 2, to the client: 1
  a safety code of 0 bytes fits the length of 3 of 3 packets
  a check code of 0 bytes fits the length of 3 of 3 packets
  client sent connection request: 1
  client sent disconnection request: 1
  server sent connection response: 1

connection 2
  client id 96, version 0303, N_sendmax 20
  server id 97
  records 4 to 4
  captured from 1970-01-01 00:00:00.000000 to 1970-01-01 00:00:00.000000 UTC
  opened by the client at record 4
  no disconnection request was captured
  channel 1: 10.0.0.1:5000 - 10.0.0.2:5000, packets to the server: 1, to the client: 0
  a safety code of 0 bytes fits the length of 1 of 1 packets
  a check code of 0 bytes fits the length of 1 of 1 packets
  client sent connection request: 1
== data plain: 0 1 2 3 4 5 0 1 |  | The opening crosses once more after the client has ended the connection.
records: 8
packets of RaSTA: 8
other records, passed over: 0

connection 1
  client id 96, version 0303, N_sendmax 20
  server id 97, version 0303, N_sendmax 20
  records 1 to 8
  captured from 1970-01-01 00:00:00.000000 to 1970-01-01 00:00:00.000000 UTC
  opened by the client at record 1
  ended by the client at record 6, reason 4
  late copies of its opening and of what came behind it: 2, the first in record 7, the last in record 8
  channel 1: 10.0.0.1:5000 - 10.0.0.2:5000, packets to the server: 5, to the client: 3
  a safety code of 0 bytes fits the length of 8 of 8 packets
  a check code of 0 bytes fits the length of 8 of 8 packets
  client sent connection request: 1
  client sent disconnection request: 1
  client sent heartbeat: 1
  client sent data: 1
  client's copies: 1
  server sent connection response: 1
  server sent heartbeat: 1
  server's copies: 1
== byes plain: 0 4 0@2 4@2 |  | The same after the server has, on another channel.
records: 4
packets of RaSTA: 4
other records, passed over: 0

connection 1
  client id 96, version 0303, N_sendmax 20
  server id 97
  records 1 to 4
  captured from 1970-01-01 00:00:00.000000 to 1970-01-01 00:00:00.000000 UTC
  opened by the client at record 1
  ended by the server at record 2, reason 0
  late copies of its opening and of what came behind it: 2, the first in record 3, the last in record 4
  channel 1: 10.0.0.1:5000 - 10.0.0.2:5000, packets to the server: 1, to the client: 1
  channel 2: 10.0.1.1:5001 - 10.0.1.2:5001, packets to the server: 1, to the client: 1
  a safety code of 0 bytes fits the length of 4 of 4 packets
  a check code of 0 bytes fits the length of 4 of 4 packets
  client sent connection request: 1
  client's copies: 1
  server sent disconnection request: 1
  server's copies: 1
== data plain: 0 1 5 0 0 2 1 | 412=98 628=98 | Packets of another client, whose id is 98, are between.
records: 7
packets of RaSTA: 7
other records, passed over: 0

connection 1
  client id 96, version 0303, N_sendmax 20
  server id 97, version 0303, N_sendmax 20
  records 1 to 7
  captured from 1970-01-01 00:00:00.000000 to 1970-01-01 00:00:00.000000 UTC
  opened by the client at record 1
  ended by the client at record 3, reason 4
  late copies of its opening and of what came behind it: 2, the first in record 5, the last in record 7
  channel 1: 10.0.0.1:5000 - 10.0.0.2:5000, packets to the server: 3, to the client: 2
  a safety code of 0 bytes fits the length of 5 of 5 packets
  a check code of 0 bytes fits the length of 5 of 5 packets
  client sent connection request: 1
  client sent disconnection request: 1
  client's gaps: 1, numbers missing: 2, the first: 8 at record 3
  client's copies: 1
  server sent connection response: 1
  server's copies: 1

connection 2
  client id 98, version 0303, N_sendmax 20
  server id 97
  records 4 to 6
  captured from 1970-01-01 00:00:00.000000 to 1970-01-01 00:00:00.000000 UTC
  opened by the client at record 4
  no disconnection request was captured
  channel 1: 10.0.0.1:5000 - 10.0.0.2:5000, packets to the server: 2, to the client: 0
  a safety code of 0 bytes fits the length of 2 of 2 packets
  a check code of 0 bytes fits the length of 2 of 2 packets
  client sent connection request: 1
  client sent heartbeat: 1
== byes plain: 0 1 2 6 0 1 2 7 |  | Another connection between the ends has begun since: the late copies belong to the earlier one, which ends where it ended, and the packets of the later one still to that.
records: 8
packets of RaSTA: 8
other records, passed over: 0

connection 1
  client id 96, version 0303, N_sendmax 20
  server id 97, version 0303, N_sendmax 20
  records 1 to 3
  captured from 1970-01-01 00:00:00.000000 to 1970-01-01 00:00:00.000000 UTC
  opened by the client at record 1
  ended by the client at record 3, reason 0
  late copies of its opening and of what came behind it: 3, the first in record 5, the last in record 7
  channel 1: 10.0.0.1:5000 - 10.0.0.2:5000, packets to the server: 4, to the client: 2
  a safety code of 0 bytes fits the length of 6 of 6 packets
  a check code of 0 bytes fits the length of 6 of 6 packets
  client sent connection request: 1
  client sent disconnection request: 1
  client's copies: 2
  server sent connection response: 1
  server's copies: 1

connection 2
  client id 96, version 0303, N_sendmax 20
  server id 97
  records 4 to 8
  captured from 1970-01-01 00:00:00.000000 to 1970-01-01 00:00:00.000000 UTC
  opened by the client at record 4
  no disconnection request was captured
  channel 1: 10.0.0.1:5000 - 10.0.0.2:5000, packets to the server: 1, to the client: 1
  a safety code of 0 bytes fits the length of 2 of 2 packets
  a check code of 0 bytes fits the length of 2 of 2 packets
  client sent connection request: 1
  server sent retransmission response: 1
== byes plain: 0 1 2 6 2 |  | Without a late copy of the opening, a copy of an earlier connection's packet belongs to the last connection.
records: 5
packets of RaSTA: 5
other records, passed over: 0

connection 1
  client id 96, version 0303, N_sendmax 20
  server id 97, version 0303, N_sendmax 20
  records 1 to 3
  captured from 1970-01-01 00:00:00.000000 to 1970-01-01 00:00:00.000000 UTC
  opened by the client at record 1
  ended by the client at record 3, reason 0
  channel 1: 10.0.0.1:5000 - 10.0.0.2:5000, packets to the server: 2, to the client: 1
  a safety code of 0 bytes fits the length of 3 of 3 packets
  a check code of 0 bytes fits the length of 3 of 3 packets
  client sent connection request: 1
  client sent disconnection request: 1
  server sent connection response: 1

connection 2
  client id 96, version 0303, N_sendmax 20
  server id 97
  records 4 to 5
  captured from 1970-01-01 00:00:00.000000 to 1970-01-01 00:00:00.000000 UTC
  opened by the client at record 4
  ended by the client at record 5, reason 0
  channel 1: 10.0.0.1:5000 - 10.0.0.2:5000, packets to the server: 2, to the client: 0
  a safety code of 0 bytes fits the length of 2 of 2 packets
  a check code of 0 bytes fits the length of 2 of 2 packets
  client sent connection request: 1
  client sent disconnection request: 1
  client's numbers that came late: 1
== data plain: 0 1 2 5; byes plain: 6 0; lost plain: 2 4 | 303=1 397=1 | The first connection's client has come to the numbers 264 and 266. Behind the late copy of its opening, its heartbeat 8 is too old to be compared, and doesn't go on with the second connection; the data PDU 10 does.
records: 8
packets of RaSTA: 8
other records, passed over: 0

connection 1
  client id 96, version 0303, N_sendmax 20
  server id 97, version 0303, N_sendmax 20
  records 1 to 4
  captured from 1970-01-01 00:00:00.000000 to 1970-01-01 00:00:00.000000 UTC
  opened by the client at record 1
  ended by the client at record 4, reason 4
  late copies of its opening and of what came behind it: 1, the first in record 6, the last in record 6
  channel 1: 10.0.0.1:5000 - 10.0.0.2:5000, packets to the server: 5, to the client: 1
  a safety code of 0 bytes fits the length of 6 of 6 packets
  a check code of 0 bytes fits the length of 6 of 6 packets
  client sent connection request: 1
  client sent disconnection request: 1
  client sent heartbeat: 1
  client's gaps: 2, numbers missing: 257, the first: 8 at record 3
  client's numbers too old to be compared: 2
  server sent connection response: 1

connection 2
  client id 96, version 0303, N_sendmax 20
  server id 97
  records 5 to 8
  captured from 1970-01-01 00:00:00.000000 to 1970-01-01 00:00:00.000000 UTC
  opened by the client at record 5
  no disconnection request was captured
  channel 1: 10.0.0.1:5000 - 10.0.0.2:5000, packets to the server: 2, to the client: 0
  a safety code of 0 bytes fits the length of 2 of 2 packets
  a check code of 0 bytes fits the length of 2 of 2 packets
  client sent connection request: 1
  client sent data: 1
== data plain: 0 1 0@9 1@9 2 2@9 | 310=96 314=97 418=97 422=96 620=96 624=97 | Between other hosts the ids are exchanged: another connection.
records: 6
packets of RaSTA: 6
other records, passed over: 0

connection 1
  client id 96, version 0303, N_sendmax 20
  server id 97, version 0303, N_sendmax 20
  records 1 to 5
  captured from 1970-01-01 00:00:00.000000 to 1970-01-01 00:00:00.000000 UTC
  opened by the client at record 1
  no disconnection request was captured
  channel 1: 10.0.0.1:5000 - 10.0.0.2:5000, packets to the server: 2, to the client: 1
  a safety code of 0 bytes fits the length of 3 of 3 packets
  a check code of 0 bytes fits the length of 3 of 3 packets
  client sent connection request: 1
  client sent heartbeat: 1
  server sent connection response: 1

connection 2
  client id 97, version 0303, N_sendmax 20
  server id 96, version 0303, N_sendmax 20
  records 3 to 6
  captured from 1970-01-01 00:00:00.000000 to 1970-01-01 00:00:00.000000 UTC
  opened by the client at record 3
  no disconnection request was captured
  channel 1: 10.9.9.9:5000 - 10.9.9.8:5000, packets to the server: 2, to the client: 1
  a safety code of 0 bytes fits the length of 3 of 3 packets
  a check code of 0 bytes fits the length of 3 of 3 packets
  client sent connection request: 1
  client sent heartbeat: 1
  server sent connection response: 1
== data plain: 2 2@9 4 4@9 | 188=96 192=97 376=97 380=96 | The same from the middle: the first packet of the end 97 between the other hosts confirms no packet of the first connection.
records: 4
packets of RaSTA: 4
other records, passed over: 0

connection 1
  end 1 id 96
  end 2 id 97
  records 1 to 3
  captured from 1970-01-01 00:00:00.000000 to 1970-01-01 00:00:00.000000 UTC
  no opening was captured
  no disconnection request was captured
  channel 1: 10.0.0.1:5000 - 10.0.0.2:5000, packets to the end 2: 1, to the end 1: 1
  a safety code of 0 bytes fits the length of 2 of 2 packets
  a check code of 0 bytes fits the length of 2 of 2 packets
  end 1 sent heartbeat: 1
  end 2 sent heartbeat: 1

connection 2
  end 1 id 97
  end 2 id 96
  records 2 to 4
  captured from 1970-01-01 00:00:00.000000 to 1970-01-01 00:00:00.000000 UTC
  no opening was captured
  no disconnection request was captured
  channel 1: 10.9.9.9:5000 - 10.9.9.8:5000, packets to the end 2: 1, to the end 1: 1
  a safety code of 0 bytes fits the length of 2 of 2 packets
  a check code of 0 bytes fits the length of 2 of 2 packets
  end 1 sent heartbeat: 1
  end 2 sent heartbeat: 1
== data plain: 0 1@2 4@2 2 |  | The server's first packet crosses on a second network, and confirms one that crossed on the first: one connection.
records: 4
packets of RaSTA: 4
other records, passed over: 0

connection 1
  client id 96, version 0303, N_sendmax 20
  server id 97, version 0303, N_sendmax 20
  records 1 to 4
  captured from 1970-01-01 00:00:00.000000 to 1970-01-01 00:00:00.000000 UTC
  opened by the client at record 1
  no disconnection request was captured
  channel 1: 10.0.0.1:5000 - 10.0.0.2:5000, packets to the server: 2, to the client: 0
  channel 2: 10.0.1.1:5001 - 10.0.1.2:5001, packets to the server: 0, to the client: 2
  a safety code of 0 bytes fits the length of 4 of 4 packets
  a check code of 0 bytes fits the length of 4 of 4 packets
  client sent connection request: 1
  client sent heartbeat: 1
  server sent connection response: 1
  server sent heartbeat: 1
== data plain: 2 4 3@2 |  | The next packet of an end crosses on a second network: one connection.
records: 3
packets of RaSTA: 3
other records, passed over: 0

connection 1
  end 1 id 96
  end 2 id 97
  records 1 to 3
  captured from 1970-01-01 00:00:00.000000 to 1970-01-01 00:00:00.000000 UTC
  no opening was captured
  no disconnection request was captured
  channel 1: 10.0.0.1:5000 - 10.0.0.2:5000, packets to the end 2: 1, to the end 1: 1
  channel 2: 10.0.1.1:5001 - 10.0.1.2:5001, packets to the end 2: 1, to the end 1: 0
  a safety code of 0 bytes fits the length of 3 of 3 packets
  a check code of 0 bytes fits the length of 3 of 3 packets
  end 1 sent heartbeat: 1
  end 1 sent data: 1
  end 2 sent heartbeat: 1
== data plain: 2 4 0 |  | The opening comes late, in a capture from the middle.
records: 3
packets of RaSTA: 3
other records, passed over: 0

connection 1
  end 1 id 96, version 0303, N_sendmax 20
  end 2 id 97
  records 1 to 3
  captured from 1970-01-01 00:00:00.000000 to 1970-01-01 00:00:00.000000 UTC
  opened before the capture began
  no disconnection request was captured
  channel 1: 10.0.0.1:5000 - 10.0.0.2:5000, packets to the end 2: 2, to the end 1: 1
  a safety code of 0 bytes fits the length of 3 of 3 packets
  a check code of 0 bytes fits the length of 3 of 3 packets
  end 1 sent connection request: 1
  end 1 sent heartbeat: 1
  end 1's numbers that came late: 1
  end 2 sent heartbeat: 1
== data plain: 0%50 |  | Cut packet.
records: 1
packets of RaSTA: 0
other records, passed over: 1
no packet of a RaSTA connection
UDP datagrams that were captured cut: 1
== data plain: 0%60 1%60 |  | Cut packets up to their types.
records: 2
packets of RaSTA: 0
other records, passed over: 2
no packet of a RaSTA connection
UDP datagrams that were captured cut: 2

only in datagrams that were captured cut: 10.0.0.1:5000 - 10.0.0.2:5000, 2 datagrams
== data plain: 0 1 2%60 |  | A cut packet of a connection.
records: 3
packets of RaSTA: 2
other records, passed over: 1
UDP datagrams that were captured cut: 1

connection 1
  client id 96, version 0303, N_sendmax 20
  server id 97, version 0303, N_sendmax 20
  records 1 to 2
  captured from 1970-01-01 00:00:00.000000 to 1970-01-01 00:00:00.000000 UTC
  opened by the client at record 1
  no disconnection request was captured
  channel 1: 10.0.0.1:5000 - 10.0.0.2:5000, packets to the server: 1, to the client: 1
  a safety code of 0 bytes fits the length of 2 of 2 packets
  a check code of 0 bytes fits the length of 2 of 2 packets
  client sent connection request: 1
  server sent connection response: 1
  1 datagram of these hosts was captured cut
== data plain: 0 1 2 cut |  | Cut in its last record.
records: 2
packets of RaSTA: 2
other records, passed over: 0

connection 1
  client id 96, version 0303, N_sendmax 20
  server id 97, version 0303, N_sendmax 20
  records 1 to 2
  captured from 1970-01-01 00:00:00.000000 to 1970-01-01 00:00:00.000000 UTC
  opened by the client at record 1
  no disconnection request was captured
  channel 1: 10.0.0.1:5000 - 10.0.0.2:5000, packets to the server: 1, to the client: 1
  a safety code of 0 bytes fits the length of 2 of 2 packets
  a check code of 0 bytes fits the length of 2 of 2 packets
  client sent connection request: 1
  server sent connection response: 1

the file ends inside record 3 (14 CutRecord)
== data plain: 0 cut |  | Cut in its first record.
records: 0
packets of RaSTA: 0
other records, passed over: 0
no packet of a RaSTA connection

the file ends inside record 1 (14 CutRecord)
== data plain: 0 | 34=8 | A record that says it has 524380 bytes.
records: 0
packets of RaSTA: 0
other records, passed over: 0
no packet of a RaSTA connection

record 1 has more than 262144 bytes (18 RecordTooLong)
== data plain: - |  | Empty.
records: 0
packets of RaSTA: 0
other records, passed over: 0
no packet of a RaSTA connection
"#;

/// The lines of the cases of a survey.
pub fn surveys() -> &'static str {
    SURVEYS
}

/// What stands before each case.
pub const MARK: &str = "== ";
