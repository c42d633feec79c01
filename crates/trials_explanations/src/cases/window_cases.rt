//! Captures of which only some records are judged.
use crate::cases::{Case, case_in};

/// A case, and the records of its window. What is wanted: the front of the text, what it has from the number of records
/// on, as far as `text` goes, and words that stand later in it; and two parts of the JSON.
#[derive(Clone, Copy)]
pub struct WindowCase<'a> {
    pub case: Case<'a>,
    pub first_record: u32,
    pub last_record: u32,
    pub verdict: &'a str,
    pub text: &'a str,
    pub later: &'a str,
    pub json: &'a str,
    pub later_json: &'a str,
}

// The next part of what is wanted, behind the line with its name.
fn next_part<'a>(rest: &mut &'a str) -> Option<&'a str> {
    let (part, behind) = rest.split_once("-- ")?;
    let (_, behind) = behind.split_once('\n')?;
    *rest = behind;
    Some(part)
}

/// The case of these lines: those of a case, `FIRST to LAST`, and behind a line each, which begins with `-- `, what is
/// wanted.
pub fn window_case_in(lines: &str) -> Option<WindowCase<'_>> {
    let case = case_in(lines)?;
    let mut rest = case.want;
    let (first, last) = next_part(&mut rest)?.trim_end().split_once(" to ")?;
    Some(WindowCase {
        case,
        first_record: first.parse().ok()?,
        last_record: last.parse().ok()?,
        verdict: next_part(&mut rest)?,
        text: next_part(&mut rest)?,
        later: next_part(&mut rest)?,
        json: next_part(&mut rest)?,
        later_json: rest,
    })
}

const WINDOWS: &str = r#"
== data plain: 3 4 0 1 2 3 4 0 1 |  |  | plain |  | Records before the window and behind it.
3 to 7
-- verdict
explained: two ends that keep the rules can have sent these 5 packets, the packets in records 3 to 7
-- text
  records read: 9
  window: records 3 to 7
  packets of the connection: 5
    on channel 1, 10.0.0.1:5000 - 10.0.0.2:5000: from the client 3, from the server 2
    on channel 2, 10.0.1.1:5001 - 10.0.1.2:5001: no packet
  end of the connection: none, it is still open at the end of the window
  packets of the recorded channels before the window: 2, behind it: 2
  records passed over: 0
-- later
  What is judged begins before the opening of the connection, and no copy of an earlier packet comes after it.

-- json
"records_read":9,"window":{"first_record":3,"last_record":7,"packets_before":2,"packets_behind":2},"packets":5,
"channels":[{"channel":1,"from_client":3,"from_server":2},{"channel":2,"from_client":0,"from_server":0}],
"begins_with_opening":true,"disconnection":null,"another_opening":null,
"records_passed_over":0,"passed_over":{"left_out":0,"not_udp":0,"tagged":0,"elsewhere":0,"unreadable":0},
-- later json
"What is judged begins before the opening of the connection, and no copy of an earlier packet comes after it."],
"quiet_point":null,
== data plain: 3 4 0 1 2 3 4 0 1 |  | 2 | plain |  | One of those before it is left out.
3 to 7
-- verdict
explained without record 2: two ends that keep the rules can have sent these 5 packets, the packets in records 3 to 7
-- text
  records read: 9
  read without record 2: left out as of no connection
  window: records 3 to 7
  packets of the connection: 5
    on channel 1, 10.0.0.1:5000 - 10.0.0.2:5000: from the client 3, from the server 2
    on channel 2, 10.0.1.1:5001 - 10.0.1.2:5001: no packet
  end of the connection: none, it is still open at the end of the window
  packets of the recorded channels before the window: 1, behind it: 2
  records passed over: 1
    left out: 1
-- later
  What is judged begins before the opening of the connection, and no copy of an earlier packet comes after it.

-- json
"without":[2],"records_read":9,
"window":{"first_record":3,"last_record":7,"packets_before":1,"packets_behind":2},"packets":5,
-- later json
"What is judged begins before the opening of the connection, and no copy of an earlier packet comes after it."],
"quiet_point":null,
== data plain: 0 1 2 3 4 |  |  | plain |  | The beginning of a connection: nothing stands before it.
1 to 4
-- verdict
explained: two ends that keep the rules can have sent these 4 packets, the packets in records 1 to 4
-- text
  records read: 5
  window: records 1 to 4
  packets of the connection: 4
    on channel 1, 10.0.0.1:5000 - 10.0.0.2:5000: from the client 3, from the server 1
    on channel 2, 10.0.1.1:5001 - 10.0.1.2:5001: no packet
  end of the connection: none, it is still open at the end of the window
  packets of the recorded channels before the window: 0, behind it: 1
  records passed over: 0
-- later
  What is judged begins before the opening of the connection.

-- json
"records_read":5,"window":{"first_record":1,"last_record":4,"packets_before":0,"packets_behind":1},"packets":4,
-- later json
"What is judged begins before the opening of the connection."],"quiet_point":null,
== data plain: 0 1 2 2@9 3 4 |  |  | quiet |  | The same connection from a quiet point on, and a record of other hosts.
4 to 4000000000
-- verdict
explained: two ends that keep the rules can have sent these 2 packets, the packets in records 4 to 6
-- text
  records read: 6
  window: records 4 to 6
  packets of the connection: 2
    on channel 1, 10.0.0.1:5000 - 10.0.0.2:5000: from the client 1, from the server 1
    on channel 2, 10.0.1.1:5001 - 10.0.1.2:5001: no packet
  end of the connection: none, it is still open at the end of the window
  packets of the recorded channels before the window: 3, behind it: 0
  records passed over: 1
    other addresses or ports: 1
-- later
  The quiet point before record 4 is true, and no copy of an earlier packet comes after it:
-- json
"records_read":6,"window":{"first_record":4,"last_record":6,"packets_before":3,"packets_behind":0},"packets":2,
-- later json
"The quiet point before record 4 is true, and no copy of an earlier packet comes after it."],
"quiet_point":{"first_record":4,
== data plain: 0 1 2@9 3 4 |  |  | plain |  | The window has nothing but a record of other hosts.
3 to 3
-- verdict
no packet of the connection in records 3 to 3

No record of the window was sent between the recorded addresses and ports.
This says nothing about the ends.
May be the cause: an address or a port of a channel is wrong, or the window is.
-- text
  records read: 5
  window: records 3 to 3
  packets of the connection: 0
    on channel 1, 10.0.0.1:5000 - 10.0.0.2:5000: no packet
    on channel 2, 10.0.1.1:5001 - 10.0.1.2:5001: no packet
  packets of the recorded channels before the window: 2, behind it: 2
  records passed over: 1
    other addresses or ports: 1
-- later
-- json
"records_read":5,"window":{"first_record":3,"last_record":3,"packets_before":2,"packets_behind":2},"packets":0,
-- later json
"offers":[],"versions":null,"verdict":"no_packets"}
== data plain: 0 1 2 |  | 1 | plain |  | The window begins behind the last record, of which the first is left out.
30 to 4000000000
-- verdict
no packet of the connection in records from 30 on without record 1
-- text
  records read: 3
  read without record 1: left out as of no connection
  window: records from 30 on, and the capture has none
  packets of the connection: 0
    on channel 1, 10.0.0.1:5000 - 10.0.0.2:5000: no packet
    on channel 2, 10.0.1.1:5001 - 10.0.1.2:5001: no packet
  packets of the recorded channels before the window: 2, behind it: 0
  records passed over: 1
    left out: 1
-- later
-- json
"records_read":3,"window":{"first_record":30,"last_record":null,"packets_before":2,"packets_behind":0},"packets":0,
-- later json
"offers":[],"versions":null,"verdict":"no_packets"}
== data plain: 0 1 2 3 cut |  |  | plain |  | The file ends inside the window.
2 to 9
-- verdict
refused by 14 CutRecord:
  the file ends inside this record

record 4
-- text
  records read: 3
  window: records 2 to 3
  packets of the connection: 2
    on channel 1, 10.0.0.1:5000 - 10.0.0.2:5000: from the client 1, from the server 1
    on channel 2, 10.0.1.1:5001 - 10.0.1.2:5001: no packet
  end of the connection: none, it is still open at the end of the window
  packets of the recorded channels before the window: 1, behind it: 0
  records passed over: 0
-- later
-- json
"records_read":3,"window":{"first_record":2,"last_record":3,"packets_before":1,"packets_behind":0},"packets":2,
-- later json
"verdict":"refused","fault":{"number":14,"name":"CutRecord",
== data plain: 3 0 1 3 2 |  |  | plain |  | A number of the client is missing inside the window, and crosses behind it.
2 to 4
-- verdict
refused by 28 NumberGap:
  this redundancy number has not crossed before, and isn't the next

record 4, 1970-01-01 00:00:00.000000 UTC, channel 1, from the client
-- text
  records read: 5
  window: records 2 to 4
  packets of the connection: 3
    on channel 1, 10.0.0.1:5000 - 10.0.0.2:5000: from the client 2, from the server 1
    on channel 2, 10.0.1.1:5001 - 10.0.1.2:5001: no packet
  end of the connection: none, it is still open at the end of the window
  packets of the recorded channels before the window: 1, behind it: 1
  records passed over: 0
-- later
  8 doesn't cross later in the window
-- json
"records_read":5,"window":{"first_record":2,"last_record":4,"packets_before":1,"packets_behind":1},"packets":3,
-- later json
"trouble":{"number_due":8,"number_found":9,"sn_due":101,"sn_found":102,"numbers_skipped":1,"numbers_back":null,"sns_skipped":1,
"last_before":{"packet":{"record":2,"time":"1970-01-01 00:00:00.000000 UTC","channel":1},"redundancy_number":7,"sn":100},
"crosses_later":null,"has_opening":true},
== data plain: 0 1 2 |  |  | narrow |  | The ends offer another N_sendmax than the parameters have.
1 to 4000000000
-- verdict
explained: two ends that keep the rules can have sent these 3 packets
-- text
  limits: N_sendmax 1, T_max 1800, slack 0
  quiet point: none
  the client's opening offers N_sendmax 20, and the parameters have 1
  the server's opening offers N_sendmax 20, and the parameters have 1
-- later

Messages (times are UTC; those without a date are of 1970-01-01):
none
-- json
"offers":[{"end":"client","offered":20,"recorded":1},{"end":"server","offered":20,"recorded":1}],"versions":null,
-- later json
"verdict":"explained","packets_explained":3,
"#;

/// The cases of windows.
pub fn windows() -> &'static str {
    WINDOWS
}
