//! Captures, the parameters by which they are audited, and the texts that are wanted.
use crate::made::{capture_of, params_in};
use rasta_pdu::Params;
use std::alloc::Global;
use trials_rows::{change_bytes, joined};

/// What stands before each case of a table.
pub const MARK: &str = "== ";

/// The packets of a capture, a change of its bytes, the connections, and what is wanted: the exit status, the text, and
/// the JSON, which goes over several lines.
#[derive(Clone, Copy)]
pub struct Case<'a> {
    packets: &'a str,
    change: &'a str,
    connections: &'a str,
    pub status: u8,
    pub text: &'a str,
    pub json: &'a str,
}

/// The case of these lines: `PACKETS | CHANGE | CONNECTIONS | STATUS | NAME`, the text, and the JSON behind a line
/// `-- json`.
pub fn case_in(lines: &str) -> Option<Case<'_>> {
    let (head, want) = lines.split_once('\n')?;
    let mut words = head.split(" | ");
    let (text, json) = want.split_once("-- json\n")?;
    Some(Case {
        packets: words.next()?,
        change: words.next()?,
        connections: words.next()?,
        status: words.next()?.parse().ok()?,
        text,
        json,
    })
}

/// What a case gives to an audit.
#[derive(Drop)]
pub struct Given {
    pub file: Vec<u8>,
    pub names: Vec<String>,
    pub params: Vec<Params>,
}

impl Given {
    // Adds the connections, each `NAME NET FIRST LAST` or `NAME NET FIRST LAST QUIET`; `-` is none.
    fn add_connections(&mut self, alloc: Global, connections: &str) -> Option<()> {
        if connections == "-" {
            return Some(());
        }
        for connection in connections.split(", ") {
            let (name, words) = connection.split_once(' ')?;
            self.names.push(String::from_str(alloc, name).ok()?).ok()?;
            self.params.push(params_in(words)?).ok()?;
        }
        Some(())
    }
}

impl Case<'_> {
    /// What the case gives; none where it has no form or memory runs out.
    pub fn given(&self, alloc: Global) -> Option<Given> {
        let mut file = capture_of(alloc, self.packets)?;
        if self.change != "-" {
            change_bytes(&mut file, self.change)?;
        }
        let mut given = Given {
            file,
            names: Vec::new(alloc),
            params: Vec::new(alloc),
        };
        given.add_connections(alloc, self.connections)?;
        Some(given)
    }
}

/// The line of JSON that stands there over several lines.
pub fn line_of(alloc: Global, lines: &str) -> Option<String> {
    let mut text = joined(alloc, lines)?;
    text.push('\n').ok()?;
    Some(text)
}

// Worked out by hand from the lines of `trials_rows`. `data` is an opening in three packets, data with two messages, and the
// heartbeat of the server whose CS is the SN of the data: so both messages are surely taken. Where its third packet is
// missing, the client's redundancy numbers go from 7 to 9 (28, at the record of the fourth). What begins with the third
// packet, a client's heartbeat before any opening, no run sends (60, at its first packet). Of both the packets alone show
// that the messages were taken: the heartbeat that confirms the SN of the data is there. `lost` has data with one message in
// the place of `data`'s, with the same numbers. In `crossed` each end sends two messages, asks for them again and gets them,
// and each one's last heartbeat confirms the other's last PDU; messages that are sent again count once. An end of a
// connection can disconnect at any time (`quiet/2`, with reason 0). The client's opening in `wrapped` lies otherwise to its
// redundancy number than PDUs of `data`, so it is of another connection, and so is that of `byes` with a later TS.
const AUDITS: &str = r#"
== 1/data/0 2/data/0 1/data/1 9/data/0 2/data/1 1/data/2 2/data/3 1/data/3 2/data/4 1/data/4 | - | a.toml 1 1 4000000000, b.toml 2 1 4000000000, c.toml 3 1 4000000000, d.toml 1 1 6, e.toml 1 6 10 | 1 | Two connections in turn, a stranger's packet, one connection without packets, and two windows of the first one.
a.toml: explained, 5 packets; client to server: 2 of 2 messages surely taken; server to client: 0 of 0
b.toml: refused by 28 NumberGap, record 7, 1970-01-01 00:00:07.000000 UTC, client; the 2 packets before it are explained; client to server: 2 of 2 captured messages surely taken; server to client: 0 of 0, by 4 packets, whatever was missed
c.toml: no packets
d.toml: explained, 3 packets; client to server: 0 of 0 messages surely taken; server to client: 0 of 0
e.toml: refused by 60 NotFound, record 6, 1970-01-01 00:00:06.000000 UTC; client to server: 2 of 2 captured messages surely taken; server to client: 0 of 0, by 3 packets, whatever was missed
5 connections: 2 explained, 2 refused, 1 without packets; 9 packets; 1 record of none of these connections
-- json
{"connections":[
{"name":"a.toml","verdict":"explained","packets":5,"client":{"sent":2,"surely_taken":2},"server":{"sent":0,"surely_taken":0},
"window":null,"quiet_point":null,"first":{"record":1,"time":"1970-01-01 00:00:01.000000 UTC"},"last":{"record":10,"time":"1970-01-01 00:00:10.000000 UTC"},"begins_with_opening":true,"disconnection":null,"another_opening":null},
{"name":"b.toml","verdict":"refused","fault":{"number":28,"name":"NumberGap"},"record":7,"time":"1970-01-01 00:00:07.000000 UTC","end":"client","from_the_middle":{"packets":4,"all_fit":true,"client":{"captured":2,"surely_taken":2},"server":{"captured":0,"surely_taken":0}},
"before_fault":{"verdict":"explained","packets":2,"client":{"sent":0,"surely_taken":0},"server":{"sent":0,"surely_taken":0}},
"window":null,"quiet_point":null,"first":{"record":2,"time":"1970-01-01 00:00:02.000000 UTC"},"last":{"record":9,"time":"1970-01-01 00:00:09.000000 UTC"},"begins_with_opening":true,"disconnection":null,"another_opening":null},
{"name":"c.toml","verdict":"no_packets",
"window":null,"quiet_point":null,"first":null,"last":null,"begins_with_opening":null,"disconnection":null,"another_opening":null},
{"name":"d.toml","verdict":"explained","packets":3,"client":{"sent":0,"surely_taken":0},"server":{"sent":0,"surely_taken":0},
"window":{"first_record":1,"last_record":6},"quiet_point":null,"first":{"record":1,"time":"1970-01-01 00:00:01.000000 UTC"},"last":{"record":6,"time":"1970-01-01 00:00:06.000000 UTC"},"begins_with_opening":true,"disconnection":null,"another_opening":null},
{"name":"e.toml","verdict":"refused","fault":{"number":60,"name":"NotFound"},"record":6,"time":"1970-01-01 00:00:06.000000 UTC","end":null,"from_the_middle":{"packets":3,"all_fit":true,"client":{"captured":2,"surely_taken":2},"server":{"captured":0,"surely_taken":0}},
"before_fault":null,
"window":{"first_record":6,"last_record":10},"quiet_point":null,"first":{"record":6,"time":"1970-01-01 00:00:06.000000 UTC"},"last":{"record":10,"time":"1970-01-01 00:00:10.000000 UTC"},"begins_with_opening":false,"disconnection":null,"another_opening":null}
],"records":10,"packets":9,"others":1,"fault":null}
== 1/lost/3 1/data/4 | - | a.toml 1 1 4000000000 | 1 | Neither opening nor quiet point, and one message.
a.toml: refused by 60 NotFound, record 1, 1970-01-01 00:00:01.000000 UTC; client to server: 1 of 1 captured message surely taken; server to client: 0 of 0, by 2 packets, whatever was missed
1 connection: 1 refused; 2 packets; 0 records of none of these connections
-- json
{"connections":[
{"name":"a.toml","verdict":"refused","fault":{"number":60,"name":"NotFound"},"record":1,"time":"1970-01-01 00:00:01.000000 UTC","end":null,"from_the_middle":{"packets":2,"all_fit":true,"client":{"captured":1,"surely_taken":1},"server":{"captured":0,"surely_taken":0}},
"before_fault":null,
"window":null,"quiet_point":null,"first":{"record":1,"time":"1970-01-01 00:00:01.000000 UTC"},"last":{"record":2,"time":"1970-01-01 00:00:02.000000 UTC"},"begins_with_opening":false,"disconnection":null,"another_opening":null}
],"records":2,"packets":2,"others":0,"fault":null}
== 2/crossed/0 1/lost/0 2/crossed/1 2/crossed/2 2/crossed/3 1/lost/1 2/crossed/4 2/crossed/5 2/crossed/6 1/lost/2 1/lost/3 2/crossed/7 2/crossed/8 2/crossed/9 2/crossed/10 2/crossed/11 2/crossed/12 1/data/4 2/crossed/13 2/crossed/14 2/crossed/15 2/crossed/16 | - | a.toml 1 1 4000000000, b.toml 2 1 4000000000 | 0 | Both are explained.
a.toml: explained, 5 packets; client to server: 1 of 1 message surely taken; server to client: 0 of 0
b.toml: explained, 17 packets; client to server: 2 of 2 messages surely taken; server to client: 2 of 2
2 connections: 2 explained; 22 packets; 0 records of none of these connections
-- json
{"connections":[
{"name":"a.toml","verdict":"explained","packets":5,"client":{"sent":1,"surely_taken":1},"server":{"sent":0,"surely_taken":0},
"window":null,"quiet_point":null,"first":{"record":2,"time":"1970-01-01 00:00:02.000000 UTC"},"last":{"record":18,"time":"1970-01-01 00:00:18.000000 UTC"},"begins_with_opening":true,"disconnection":null,"another_opening":null},
{"name":"b.toml","verdict":"explained","packets":17,"client":{"sent":2,"surely_taken":2},"server":{"sent":2,"surely_taken":2},
"window":null,"quiet_point":null,"first":{"record":1,"time":"1970-01-01 00:00:01.000000 UTC"},"last":{"record":22,"time":"1970-01-01 00:00:22.000000 UTC"},"begins_with_opening":true,"disconnection":null,"another_opening":null}
],"records":22,"packets":22,"others":0,"fault":null}
== 1/data/0 1/data/1 cut | - | a.toml 1 1 4000000000, b.toml 1 1 1, c.toml 3 1 4000000000 | 1 | The file ends inside its second record, which is behind the window of one connection; of another one nothing crossed before.
a.toml: cut at 14 CutRecord, record 2; the 1 packet up to there is explained; client to server: 0 of 0 messages surely taken; server to client: 0 of 0
b.toml: explained, 1 packet; client to server: 0 of 0 messages surely taken; server to client: 0 of 0
c.toml: refused by 14 CutRecord, record 2
the file ends inside record 2 (14 CutRecord)
3 connections: 1 explained, 1 cut, 1 refused; 1 packet; 0 records of none of these connections
-- json
{"connections":[
{"name":"a.toml","verdict":"cut","fault":{"number":14,"name":"CutRecord"},"record":2,"time":null,"end":null,"from_the_middle":null,
"before_fault":{"verdict":"explained","packets":1,"client":{"sent":0,"surely_taken":0},"server":{"sent":0,"surely_taken":0}},
"window":null,"quiet_point":null,"first":{"record":1,"time":"1970-01-01 00:00:01.000000 UTC"},"last":{"record":1,"time":"1970-01-01 00:00:01.000000 UTC"},"begins_with_opening":true,"disconnection":null,"another_opening":null},
{"name":"b.toml","verdict":"explained","packets":1,"client":{"sent":0,"surely_taken":0},"server":{"sent":0,"surely_taken":0},
"window":{"first_record":1,"last_record":1},"quiet_point":null,"first":{"record":1,"time":"1970-01-01 00:00:01.000000 UTC"},"last":{"record":1,"time":"1970-01-01 00:00:01.000000 UTC"},"begins_with_opening":true,"disconnection":null,"another_opening":null},
{"name":"c.toml","verdict":"refused","fault":{"number":14,"name":"CutRecord"},"record":2,"time":null,"end":null,"from_the_middle":null,
"before_fault":null,
"window":null,"quiet_point":null,"first":null,"last":null,"begins_with_opening":null,"disconnection":null,"another_opening":null}
],"records":1,"packets":1,"others":0,"fault":{"number":14,"name":"CutRecord","record":2}}
== 1/data/0 1/data/1 1/data/2 1/data/3 2/data/2 1/data/4 1/data/5 cut | - | a.toml 1 1 4000000000, b.toml 2 1 4000000000 | 1 | The file ends inside a record: one connection is explained up to there, and the other one is not.
a.toml: cut at 14 CutRecord, record 7; the 5 packets up to there are explained; client to server: 2 of 2 messages surely taken; server to client: 0 of 0
b.toml: refused by 14 CutRecord, record 7; the 1 packet before it isn't explained by itself (60 NotFound); client to server: 0 of 0 captured messages surely taken; server to client: 0 of 0, by 1 packet, whatever was missed
the file ends inside record 7 (14 CutRecord)
2 connections: 1 cut, 1 refused; 6 packets; 0 records of none of these connections
-- json
{"connections":[
{"name":"a.toml","verdict":"cut","fault":{"number":14,"name":"CutRecord"},"record":7,"time":null,"end":null,"from_the_middle":null,
"before_fault":{"verdict":"explained","packets":5,"client":{"sent":2,"surely_taken":2},"server":{"sent":0,"surely_taken":0}},
"window":null,"quiet_point":null,"first":{"record":1,"time":"1970-01-01 00:00:01.000000 UTC"},"last":{"record":6,"time":"1970-01-01 00:00:06.000000 UTC"},"begins_with_opening":true,"disconnection":null,"another_opening":null},
{"name":"b.toml","verdict":"refused","fault":{"number":14,"name":"CutRecord"},"record":7,"time":null,"end":null,"from_the_middle":{"packets":1,"all_fit":true,"client":{"captured":0,"surely_taken":0},"server":{"captured":0,"surely_taken":0}},
"before_fault":{"verdict":"refused","packets":1,"fault":{"number":60,"name":"NotFound"}},
"window":null,"quiet_point":null,"first":{"record":5,"time":"1970-01-01 00:00:05.000000 UTC"},"last":{"record":5,"time":"1970-01-01 00:00:05.000000 UTC"},"begins_with_opening":false,"disconnection":null,"another_opening":null}
],"records":6,"packets":6,"others":0,"fault":{"number":14,"name":"CutRecord","record":7}}
== 1/data/0 | 34=4 | a.toml 1 1 4000000000 | 1 | The length of the record is 262144 more.
a.toml: refused by 18 RecordTooLong, record 1
record 1 has more than 262144 bytes (18 RecordTooLong)
1 connection: 1 refused; 0 packets; 0 records of none of these connections
-- json
{"connections":[
{"name":"a.toml","verdict":"refused","fault":{"number":18,"name":"RecordTooLong"},"record":1,"time":null,"end":null,"from_the_middle":null,
"before_fault":null,
"window":null,"quiet_point":null,"first":null,"last":null,"begins_with_opening":null,"disconnection":null,"another_opening":null}
],"records":0,"packets":0,"others":0,"fault":{"number":18,"name":"RecordTooLong","record":1}}
== 1/data/0 | 0=0 | a.toml 1 1 4000000000, b.toml 1 2 4000000000 | 1 | The header is refused.
a.toml: refused by 10 NotPcap
b.toml: refused by 10 NotPcap
this is not a classic libpcap file (10 NotPcap)
2 connections: 2 refused; 0 packets; 0 records of none of these connections
-- json
{"connections":[
{"name":"a.toml","verdict":"refused","fault":{"number":10,"name":"NotPcap"},"record":null,"time":null,"end":null,"from_the_middle":null,
"before_fault":null,
"window":null,"quiet_point":null,"first":null,"last":null,"begins_with_opening":null,"disconnection":null,"another_opening":null},
{"name":"b.toml","verdict":"refused","fault":{"number":10,"name":"NotPcap"},"record":null,"time":null,"end":null,"from_the_middle":null,
"before_fault":null,
"window":{"first_record":2,"last_record":null},"quiet_point":null,"first":null,"last":null,"begins_with_opening":null,"disconnection":null,"another_opening":null}
],"records":0,"packets":0,"others":0,"fault":{"number":10,"name":"NotPcap","record":null}}
== 1/data/0 1/data/1 1/data/3 1/data/5 1/data/3 1/data/4 1/wrapped/0 1/data/5 | - | a.toml 1 1 4000000000 | 1 | Behind a gap the client disconnects; behind that come a late copy, a new PDU, and another opening.
a.toml: refused by 28 NumberGap, record 3, 1970-01-01 00:00:03.000000 UTC, client; the 2 packets before it are explained; client to server: 2 of 2 captured messages surely taken; server to client: 0 of 0, by the first 6 packets, whatever was missed
1 connection: 1 refused; 8 packets; 0 records of none of these connections
-- json
{"connections":[
{"name":"a.toml","verdict":"refused","fault":{"number":28,"name":"NumberGap"},"record":3,"time":"1970-01-01 00:00:03.000000 UTC","end":"client","from_the_middle":{"packets":6,"all_fit":false,"client":{"captured":2,"surely_taken":2},"server":{"captured":0,"surely_taken":0}},
"before_fault":{"verdict":"explained","packets":2,"client":{"sent":0,"surely_taken":0},"server":{"sent":0,"surely_taken":0}},
"window":null,"quiet_point":null,"first":{"record":1,"time":"1970-01-01 00:00:01.000000 UTC"},"last":{"record":8,"time":"1970-01-01 00:00:08.000000 UTC"},"begins_with_opening":true,"disconnection":{"end":"client","reason":4,"detail":0,"record":4,"time":"1970-01-01 00:00:04.000000 UTC","new_pdus_behind":1,"late_copies_behind":1},"another_opening":{"record":7,"time":"1970-01-01 00:00:07.000000 UTC"}}
],"records":8,"packets":8,"others":0,"fault":null}
== 9/data/0 1/data/0 1/data/1 1/data/2 1/quiet/2 1/data/2 | - | a.toml 1 1 4000000000 | 0 | The server disconnects, and a late copy comes behind.
a.toml: explained, 5 packets; client to server: 0 of 0 messages surely taken; server to client: 0 of 0
1 connection: 1 explained; 5 packets; 1 record of none of these connections
-- json
{"connections":[
{"name":"a.toml","verdict":"explained","packets":5,"client":{"sent":0,"surely_taken":0},"server":{"sent":0,"surely_taken":0},
"window":null,"quiet_point":null,"first":{"record":2,"time":"1970-01-01 00:00:02.000000 UTC"},"last":{"record":6,"time":"1970-01-01 00:00:06.000000 UTC"},"begins_with_opening":true,"disconnection":{"end":"server","reason":0,"detail":0,"record":5,"time":"1970-01-01 00:00:05.000000 UTC","new_pdus_behind":0,"late_copies_behind":1},"another_opening":null}
],"records":6,"packets":5,"others":1,"fault":null}
== 1/data/0 1/data/1 1/data/2 1/byes/6 | - | a.toml 1 1 4000000000 | 1 | Another opening crosses, which no run sends, and which does not fit to the first one.
a.toml: refused by 60 NotFound, record 4, 1970-01-01 00:00:04.000000 UTC; client to server: 0 of 0 captured messages surely taken; server to client: 0 of 0, by the first 3 packets, whatever was missed
1 connection: 1 refused; 4 packets; 0 records of none of these connections
-- json
{"connections":[
{"name":"a.toml","verdict":"refused","fault":{"number":60,"name":"NotFound"},"record":4,"time":"1970-01-01 00:00:04.000000 UTC","end":null,"from_the_middle":{"packets":3,"all_fit":false,"client":{"captured":0,"surely_taken":0},"server":{"captured":0,"surely_taken":0}},
"before_fault":null,
"window":null,"quiet_point":null,"first":{"record":1,"time":"1970-01-01 00:00:01.000000 UTC"},"last":{"record":4,"time":"1970-01-01 00:00:04.000000 UTC"},"begins_with_opening":true,"disconnection":null,"another_opening":null}
],"records":4,"packets":4,"others":0,"fault":null}
== 1/data/2 1/data/4 1/lost/4 | - | a.toml 1 1 4000000000 | 1 | Before a gap stand packets that no run sends.
a.toml: refused by 28 NumberGap, record 3, 1970-01-01 00:00:03.000000 UTC, client; the 2 packets before it aren't explained by themselves (60 NotFound); client to server: 0 of 1 captured message surely taken; server to client: 0 of 0, by 3 packets, whatever was missed
1 connection: 1 refused; 3 packets; 0 records of none of these connections
-- json
{"connections":[
{"name":"a.toml","verdict":"refused","fault":{"number":28,"name":"NumberGap"},"record":3,"time":"1970-01-01 00:00:03.000000 UTC","end":"client","from_the_middle":{"packets":3,"all_fit":true,"client":{"captured":1,"surely_taken":0},"server":{"captured":0,"surely_taken":0}},
"before_fault":{"verdict":"refused","packets":2,"fault":{"number":60,"name":"NotFound"}},
"window":null,"quiet_point":null,"first":{"record":1,"time":"1970-01-01 00:00:01.000000 UTC"},"last":{"record":3,"time":"1970-01-01 00:00:03.000000 UTC"},"begins_with_opening":false,"disconnection":null,"another_opening":null}
],"records":3,"packets":3,"others":0,"fault":null}
== 1/data/0 1/data/1 1/data/3 1/data/4 | - | a.toml 1 3 4000000000 quiet | 0 | A quiet point before the third record.
a.toml: explained, 2 packets; client to server: 2 of 2 messages surely taken; server to client: 0 of 0
1 connection: 1 explained; 2 packets; 2 records of none of these connections
-- json
{"connections":[
{"name":"a.toml","verdict":"explained","packets":2,"client":{"sent":2,"surely_taken":2},"server":{"sent":0,"surely_taken":0},
"window":{"first_record":3,"last_record":4},"quiet_point":3,"first":{"record":3,"time":"1970-01-01 00:00:03.000000 UTC"},"last":{"record":4,"time":"1970-01-01 00:00:04.000000 UTC"},"begins_with_opening":false,"disconnection":null,"another_opening":null}
],"records":4,"packets":2,"others":2,"fault":null}
== 1/data/0 1/data/1 | - | - | 0 | No connection.
0 connections; 0 packets; 2 records of none of these connections
-- json
{"connections":[
],"records":2,"packets":0,"others":2,"fault":null}
"#;

/// Captures, and what is wanted of their audits.
pub fn audits() -> &'static str {
    AUDITS
}

/// Two connections in turn, and the texts on them.
pub fn in_turn() -> Option<Case<'static>> {
    case_in(AUDITS.split(MARK).nth(1)?)
}

/// What is wanted of an audit of which one connection has no memory, and the counts of the other one are above 2^53.
pub const GREAT_TEXT: &str = "\
a \"b\".toml: out of memory
c.toml: explained, 9007199254740993 packets; client to server: 9007199254740992 of 9007199254740993 messages surely taken; server to client: 0 of 1
2 connections: 1 explained, 1 out of memory; 6 packets; 1 record of none of these connections
";

/// The same as JSON.
pub const GREAT_JSON: &str = r#"
{"connections":[
{"name":"a \"b\".toml","verdict":"out_of_memory",
"window":{"first_record":2,"last_record":7},"quiet_point":2,"first":{"record":3,"time":"1970-01-01 00:00:03.000000 UTC"},"last":{"record":5,"time":"1970-01-01 00:00:05.000000 UTC"},"begins_with_opening":false,"disconnection":null,"another_opening":null},
{"name":"c.toml","verdict":"explained","packets":"9007199254740993","client":{"sent":"9007199254740993","surely_taken":9007199254740992},
"server":{"sent":1,"surely_taken":0},
"window":null,"quiet_point":null,"first":null,"last":null,"begins_with_opening":null,"disconnection":null,"another_opening":null}
],"records":7,"packets":6,"others":1,"fault":null}
"#;
