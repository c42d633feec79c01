//! Captures, and the drafts that are wanted of a connection in them.
use crate::cases::{Case, case_in};
use seatmelon_survey::Behind;

/// A capture, the place of a connection in it, the record behind which a quiet point is wanted, if one is, and the draft.
#[derive(Clone, Copy)]
pub struct DraftCase<'a> {
    pub place: usize,
    pub behind: Option<Behind>,
    pub case: Case<'a>,
}

/// The case of these lines: `PLACE | PARTS | CHANGES | NAME`, and the draft. Behind the place may stand `behind RECORD`.
pub fn draft_case_in(lines: &str) -> Option<DraftCase<'_>> {
    let (words, lines) = lines.split_once(" | ")?;
    let (place, record) = match words.split_once(" behind ") {
        Some((place, record)) => (place, Some(record.parse().ok()?)),
        None => (words, None),
    };
    let place = place.parse().ok()?;
    Some(DraftCase {
        place,
        behind: record.map(|record| Behind { place, record }),
        case: case_in(lines)?,
    })
}

// Each form of a draft, behind `== ` a case.
const DRAFTS: &str = r#"
== 0 | data plain: 0 1 2 |  | Handshake.
# A draft of the parameters of the connection in the records 1 to 3 of a capture.
# Each line tells where its value was seen; one from the engineering data is a placeholder.
# A draft is a guess from the form of packets: compare each line with the engineering data.

client_id = 96 # sender of the connection request in record 1
server_id = 97 # its receiver
code_length = 0 # fits the length of 3 of 3 packets
md4_start = "67452301efcdab8998badcfe10325476" # MD4's own start words; without a safety code they have no effect
check_length = 0 # fits the length of 3 of 3 packets
n_sendmax = 20 # the client offered 20 in record 1, the server 20 in record 2
t_max = 1800 # from the engineering data, in milliseconds
slack = 0 # from the engineering data, in milliseconds
first_record = 1 # the connection's first packet
last_record = 3 # the connection's last packet

[[channel]]
client = "10.0.0.1:5000" # seen in record 1
server = "10.0.0.2:5000" # seen in record 1
== 0 | data code16: 0 1 2 3 4 5 |  | Own start words.
# A draft of the parameters of the connection in the records 1 to 6 of a capture.
# Each line tells where its value was seen; one from the engineering data is a placeholder.
# A draft is a guess from the form of packets: compare each line with the engineering data.

client_id = 96 # sender of the connection request in record 1
server_id = 97 # its receiver
code_length = 16 # fits the length of 6 of 6 packets
md4_start = "67452301efcdab8998badcfe10325476" # MD4's own start words fit 6 of 6 safety codes
check_length = 0 # fits the length of 6 of 6 packets
n_sendmax = 20 # the client offered 20 in record 1, the server 20 in record 2
t_max = 1800 # from the engineering data, in milliseconds
slack = 0 # from the engineering data, in milliseconds
first_record = 1 # the connection's first packet
last_record = 6 # the connection's last packet

[[channel]]
client = "10.0.0.1:5000" # seen in record 1
server = "10.0.0.2:5000" # seen in record 1
== 0 | checked check4: 0 0@2 1@2 1 2 0@2 |  | The opening crossed on both channels.
# A draft of the parameters of the connection in the records 1 to 6 of a capture.
# Each line tells where its value was seen; one from the engineering data is a placeholder.
# A draft is a guess from the form of packets: compare each line with the engineering data.

client_id = 96 # sender of the connection request in record 1
server_id = 97 # its receiver
code_length = 0 # fits the length of 6 of 6 packets
md4_start = "67452301efcdab8998badcfe10325476" # MD4's own start words; without a safety code they have no effect
check_length = 4 # fits the length of 6 of 6 packets
n_sendmax = 20 # the client offered 20 in record 1, the server 20 in record 3
t_max = 1800 # from the engineering data, in milliseconds
slack = 0 # from the engineering data, in milliseconds
first_record = 1 # the connection's first packet
last_record = 6 # the connection's last packet

[[channel]]
client = "10.0.0.1:5000" # seen in record 1
server = "10.0.0.2:5000" # seen in record 1

[[channel]]
client = "10.0.1.1:5001" # seen in record 2
server = "10.0.1.2:5001" # seen in record 2
== 1 | data plain: 0 1 5 0 1 | 436=0 | The second of two connections; its request offers 0, which no parameter file can have.
# A draft of the parameters of the connection in the records 4 to 5 of a capture.
# Each line tells where its value was seen; one from the engineering data is a placeholder.
# A draft is a guess from the form of packets: compare each line with the engineering data.

client_id = 96 # sender of the connection request in record 4
server_id = 97 # its receiver
code_length = 0 # fits the length of 2 of 2 packets
md4_start = "67452301efcdab8998badcfe10325476" # MD4's own start words; without a safety code they have no effect
check_length = 0 # fits the length of 2 of 2 packets
n_sendmax = 20 # offered by the server in record 5
t_max = 1800 # from the engineering data, in milliseconds
slack = 0 # from the engineering data, in milliseconds
first_record = 4 # the connection's first packet
last_record = 5 # the connection's last packet

[[channel]]
client = "10.0.0.1:5000" # seen in record 4
server = "10.0.0.2:5000" # seen in record 4
== 0 | data plain: 0 1 5 0 1 |  | The opening crosses once more after the end.
# A draft of the parameters of the connection in the records 1 to 5 of a capture.
# Each line tells where its value was seen; one from the engineering data is a placeholder.
# A draft is a guess from the form of packets: compare each line with the engineering data.

client_id = 96 # sender of the connection request in record 1
server_id = 97 # its receiver
code_length = 0 # fits the length of 5 of 5 packets
md4_start = "67452301efcdab8998badcfe10325476" # MD4's own start words; without a safety code they have no effect
check_length = 0 # fits the length of 5 of 5 packets
n_sendmax = 20 # the client offered 20 in record 1, the server 20 in record 2
t_max = 1800 # from the engineering data, in milliseconds
slack = 0 # from the engineering data, in milliseconds
first_record = 1 # the connection's first packet
last_record = 5 # the connection's last packet, a late copy

[[channel]]
client = "10.0.0.1:5000" # seen in record 1
server = "10.0.0.2:5000" # seen in record 1
== 0 | data plain: 0 1 5 0 1 4 |  | The same, and then another packet.
# A draft of the parameters of the connection in the records 1 to 6 of a capture.
# Each line tells where its value was seen; one from the engineering data is a placeholder.
# A draft is a guess from the form of packets: compare each line with the engineering data.

client_id = 96 # sender of the connection request in record 1
server_id = 97 # its receiver
code_length = 0 # fits the length of 6 of 6 packets
md4_start = "67452301efcdab8998badcfe10325476" # MD4's own start words; without a safety code they have no effect
check_length = 0 # fits the length of 6 of 6 packets
n_sendmax = 20 # the client offered 20 in record 1, the server 20 in record 2
t_max = 1800 # from the engineering data, in milliseconds
slack = 0 # from the engineering data, in milliseconds
first_record = 1 # the connection's first packet
last_record = 6 # the connection's last packet

[[channel]]
client = "10.0.0.1:5000" # seen in record 1
server = "10.0.0.2:5000" # seen in record 1
== 0 | byes plain: 0 1 2 0 6 0 1 |  | The opening crosses once more after the end, and again after another connection has begun.
# A draft of the parameters of the connection in the records 1 to 4 of a capture.
# Each line tells where its value was seen; one from the engineering data is a placeholder.
# A draft is a guess from the form of packets: compare each line with the engineering data.

client_id = 96 # sender of the connection request in record 1
server_id = 97 # its receiver
code_length = 0 # fits the length of 6 of 6 packets
md4_start = "67452301efcdab8998badcfe10325476" # MD4's own start words; without a safety code they have no effect
check_length = 0 # fits the length of 6 of 6 packets
n_sendmax = 20 # the client offered 20 in record 1, the server 20 in record 2
t_max = 1800 # from the engineering data, in milliseconds
slack = 0 # from the engineering data, in milliseconds
first_record = 1 # the connection's first packet
last_record = 4 # the connection's last packet, a late copy

[[channel]]
client = "10.0.0.1:5000" # seen in record 1
server = "10.0.0.2:5000" # seen in record 1
== 0 | data plain: 0 1 | 122=10 | The client offers 10.
# A draft of the parameters of the connection in the records 1 to 2 of a capture.
# Each line tells where its value was seen; one from the engineering data is a placeholder.
# A draft is a guess from the form of packets: compare each line with the engineering data.

client_id = 96 # sender of the connection request in record 1
server_id = 97 # its receiver
code_length = 0 # fits the length of 2 of 2 packets
md4_start = "67452301efcdab8998badcfe10325476" # MD4's own start words; without a safety code they have no effect
check_length = 0 # fits the length of 2 of 2 packets
n_sendmax = 20 # from the engineering data: the client offered 10 in record 1, the server 20 in record 2
t_max = 1800 # from the engineering data, in milliseconds
slack = 0 # from the engineering data, in milliseconds
first_record = 1 # the connection's first packet
last_record = 2 # the connection's last packet

[[channel]]
client = "10.0.0.1:5000" # seen in record 1
server = "10.0.0.2:5000" # seen in record 1
== 0 | data plain: 0 1 | 122=0 230=0 | Both ends offer 0.
# A draft of the parameters of the connection in the records 1 to 2 of a capture.
# Each line tells where its value was seen; one from the engineering data is a placeholder.
# A draft is a guess from the form of packets: compare each line with the engineering data.

client_id = 96 # sender of the connection request in record 1
server_id = 97 # its receiver
code_length = 0 # fits the length of 2 of 2 packets
md4_start = "67452301efcdab8998badcfe10325476" # MD4's own start words; without a safety code they have no effect
check_length = 0 # fits the length of 2 of 2 packets
n_sendmax = 20 # from the engineering data: no offer of one was captured
t_max = 1800 # from the engineering data, in milliseconds
slack = 0 # from the engineering data, in milliseconds
first_record = 1 # the connection's first packet
last_record = 2 # the connection's last packet

[[channel]]
client = "10.0.0.1:5000" # seen in record 1
server = "10.0.0.2:5000" # seen in record 1
== 0 | data plain: 1 2 |  | The request was not captured, but the response was.
# A draft of the parameters of the connection in the records 1 to 2 of a capture.
# Each line tells where its value was seen; one from the engineering data is a placeholder.
# A draft is a guess from the form of packets: compare each line with the engineering data.

client_id = 96 # receiver of what the server sent
server_id = 97 # sender of the connection response in record 1
code_length = 0 # fits the length of 2 of 2 packets
md4_start = "67452301efcdab8998badcfe10325476" # MD4's own start words; without a safety code they have no effect
check_length = 0 # fits the length of 2 of 2 packets
n_sendmax = 20 # offered by the server in record 1
t_max = 1800 # from the engineering data, in milliseconds
slack = 0 # from the engineering data, in milliseconds
first_record = 1 # the connection's first packet
last_record = 2 # the connection's last packet

# No opening was captured. An audit needs a quiet point, from the engineering data or a log.

[[channel]]
client = "10.0.0.1:5000" # seen in record 1
server = "10.0.0.2:5000" # seen in record 1
== 0 | data zeros16: 4 3 |  | Other start words.
# A draft of the parameters of the connection in the records 1 to 2 of a capture.
# Each line tells where its value was seen; one from the engineering data is a placeholder.
# A draft is a guess from the form of packets: compare each line with the engineering data.

client_id = 97 # from the engineering data: end 1 of the survey, which may be the server
server_id = 96 # from the engineering data: end 2 of the survey
code_length = 16 # fits the length of 2 of 2 packets
md4_start = "67452301efcdab8998badcfe10325476" # from the engineering data: MD4's own start words fit 0 of 2 safety codes
check_length = 0 # fits the length of 2 of 2 packets
n_sendmax = 20 # from the engineering data: no offer of one was captured
t_max = 1800 # from the engineering data, in milliseconds
slack = 0 # from the engineering data, in milliseconds
first_record = 1 # the connection's first packet
last_record = 2 # the connection's last packet

# No opening was captured. An audit needs a quiet point, from the engineering data or a log.

[[channel]]
client = "10.0.0.2:5000" # seen in record 1
server = "10.0.0.1:5000" # seen in record 1
== 0 | data plain: 0 1 2; data code16: 3 4 |  | Packets without a safety code, and then packets with one.
# A draft of the parameters of the connection in the records 1 to 5 of a capture.
# Each line tells where its value was seen; one from the engineering data is a placeholder.
# A draft is a guess from the form of packets: compare each line with the engineering data.

client_id = 96 # sender of the connection request in record 1
server_id = 97 # its receiver
code_length = 0 # from the engineering data, since none fits all packets: fits the length of 3 of 5 packets; 16 fits 2
md4_start = "67452301efcdab8998badcfe10325476" # MD4's own start words; without a safety code they have no effect
check_length = 0 # fits the length of 5 of 5 packets
n_sendmax = 20 # the client offered 20 in record 1, the server 20 in record 2
t_max = 1800 # from the engineering data, in milliseconds
slack = 0 # from the engineering data, in milliseconds
first_record = 1 # the connection's first packet
last_record = 5 # the connection's last packet

[[channel]]
client = "10.0.0.1:5000" # seen in record 1
server = "10.0.0.2:5000" # seen in record 1
== 0 | data plain: 0 0 0 0 0 0 | 182=20 290=21 398=22 506=23 614=24 | Copies of a request from six ports.
# A draft of the parameters of the connection in the records 1 to 6 of a capture.
# Each line tells where its value was seen; one from the engineering data is a placeholder.
# A draft is a guess from the form of packets: compare each line with the engineering data.

client_id = 96 # sender of the connection request in record 1
server_id = 97 # its receiver
code_length = 0 # fits the length of 6 of 6 packets
md4_start = "67452301efcdab8998badcfe10325476" # MD4's own start words; without a safety code they have no effect
check_length = 0 # fits the length of 6 of 6 packets
n_sendmax = 20 # offered by the client in record 1
t_max = 1800 # from the engineering data, in milliseconds
slack = 0 # from the engineering data, in milliseconds
first_record = 1 # the connection's first packet
last_record = 6 # the connection's last packet

[[channel]]
client = "10.0.0.1:5000" # seen in record 1
server = "10.0.0.2:5000" # seen in record 1

[[channel]]
client = "10.0.0.1:5256" # seen in record 2
server = "10.0.0.2:5000" # seen in record 2

[[channel]]
client = "10.0.0.1:5512" # seen in record 3
server = "10.0.0.2:5000" # seen in record 3

[[channel]]
client = "10.0.0.1:5768" # seen in record 4
server = "10.0.0.2:5000" # seen in record 4

# A further channel, seen in record 5, which can't stand beside those above:
# client 10.0.0.1:6024, server 10.0.0.2:5000

# A further channel, seen in record 6, which can't stand beside those above:
# client 10.0.0.1:6280, server 10.0.0.2:5000
== 0 | data plain: 0 0 | 177=2 181=1 | A copy of the request whose addresses are exchanged.
# A draft of the parameters of the connection in the records 1 to 2 of a capture.
# Each line tells where its value was seen; one from the engineering data is a placeholder.
# A draft is a guess from the form of packets: compare each line with the engineering data.

client_id = 96 # sender of the connection request in record 1
server_id = 97 # its receiver
code_length = 0 # fits the length of 2 of 2 packets
md4_start = "67452301efcdab8998badcfe10325476" # MD4's own start words; without a safety code they have no effect
check_length = 0 # fits the length of 2 of 2 packets
n_sendmax = 20 # offered by the client in record 1
t_max = 1800 # from the engineering data, in milliseconds
slack = 0 # from the engineering data, in milliseconds
first_record = 1 # the connection's first packet
last_record = 2 # the connection's last packet

[[channel]]
client = "10.0.0.1:5000" # seen in record 1
server = "10.0.0.2:5000" # seen in record 1

# A further channel, seen in record 2, which can't stand beside those above:
# client 10.0.0.2:5000, server 10.0.0.1:5000
== 0 | data plain: 3 4 2 4 2 4 | 280=10 296=103 300=245 304=6 305=4 374=42 390=246 394=103 398=92 468=11 484=104 488=246 492=10 493=4 562=43 578=247 582=104 586=94 | Begun in the midst of a connection: data, and then heartbeats of both ends in turn.
# A draft of the parameters of the connection in the records 1 to 6 of a capture.
# Each line tells where its value was seen; one from the engineering data is a placeholder.
# A draft is a guess from the form of packets: compare each line with the engineering data.

client_id = 96 # from the engineering data: end 1 of the survey, which may be the server
server_id = 97 # from the engineering data: end 2 of the survey
code_length = 0 # fits the length of 6 of 6 packets
md4_start = "67452301efcdab8998badcfe10325476" # MD4's own start words; without a safety code they have no effect
check_length = 0 # fits the length of 6 of 6 packets
n_sendmax = 20 # from the engineering data: no offer of one was captured
t_max = 1800 # from the engineering data, in milliseconds
slack = 0 # from the engineering data, in milliseconds
first_record = 3 # the first record after the quiet point
last_record = 6 # the connection's last packet

# No opening was captured. After record 2 both ends seem to be up and to owe each other nothing: a quiet point.
# It is a premise of every answer: only the engineering data or a log can confirm it.
quiet.client = { next_sn = 103, clock = 1020, handed_ts = 1020 } # its last PDU is in record 1, its last data in record 1
quiet.server = { next_sn = 502, clock = 9050, handed_ts = 9000 } # its last PDU is in record 2; an older time stamp is confirmed in record 3

# Another quiet point:
# first_record = 4
# quiet.client = { next_sn = 104, clock = 1030, handed_ts = 1020 } # its last PDU is in record 3, its last data in record 1
# quiet.server = { next_sn = 502, clock = 9050, handed_ts = 9000 } # its last PDU is in record 2; an older time stamp is confirmed in record 5

# Another quiet point:
# first_record = 5
# quiet.client = { next_sn = 104, clock = 1030, handed_ts = 1020 } # its last PDU is in record 3, its last data in record 1
# quiet.server = { next_sn = 503, clock = 9052, handed_ts = 9000 } # its last PDU is in record 4; an older time stamp is confirmed in record 5

[[channel]]
client = "10.0.0.1:5000" # seen in record 1
server = "10.0.0.2:5000" # seen in record 1
== 0 | data plain: 3 4 2 4 3 2 4 | 280=10 296=103 300=245 304=6 305=4 374=42 390=246 394=103 398=92 568=11 584=104 588=246 592=10 593=4 662=43 678=247 682=104 686=94 | The same, where the data PDU crosses once more after the fourth packet.
# A draft of the parameters of the connection in the records 1 to 7 of a capture.
# Each line tells where its value was seen; one from the engineering data is a placeholder.
# A draft is a guess from the form of packets: compare each line with the engineering data.

client_id = 96 # from the engineering data: end 1 of the survey, which may be the server
server_id = 97 # from the engineering data: end 2 of the survey
code_length = 0 # fits the length of 7 of 7 packets
md4_start = "67452301efcdab8998badcfe10325476" # MD4's own start words; without a safety code they have no effect
check_length = 0 # fits the length of 7 of 7 packets
n_sendmax = 20 # from the engineering data: no offer of one was captured
t_max = 1800 # from the engineering data, in milliseconds
slack = 0 # from the engineering data, in milliseconds
first_record = 6 # the first record after the quiet point
last_record = 7 # the connection's last packet

# No opening was captured. After record 5 both ends seem to be up and to owe each other nothing: a quiet point.
# It is a premise of every answer: only the engineering data or a log can confirm it.
quiet.client = { next_sn = 104, clock = 1030, handed_ts = 1020 } # its last PDU is in record 3, its last data in record 1
quiet.server = { next_sn = 503, clock = 9052, handed_ts = 9000 } # its last PDU is in record 4; an older time stamp is confirmed in record 6

[[channel]]
client = "10.0.0.1:5000" # seen in record 1
server = "10.0.0.2:5000" # seen in record 1
== 0 | lost plain: 2 3 4 5 6 7 8 9 10 18 |  | Begun before a retransmission: the point after it is the first quiet one.
# A draft of the parameters of the connection in the records 1 to 10 of a capture.
# Each line tells where its value was seen; one from the engineering data is a placeholder.
# A draft is a guess from the form of packets: compare each line with the engineering data.

client_id = 96 # from the engineering data: end 1 of the survey, which may be the server
server_id = 97 # from the engineering data: end 2 of the survey
code_length = 0 # fits the length of 10 of 10 packets
md4_start = "67452301efcdab8998badcfe10325476" # MD4's own start words; without a safety code they have no effect
check_length = 0 # fits the length of 10 of 10 packets
n_sendmax = 20 # from the engineering data: no offer of one was captured
t_max = 1800 # from the engineering data, in milliseconds
slack = 0 # from the engineering data, in milliseconds
first_record = 9 # the first record after the quiet point
last_record = 10 # the connection's last packet

# No opening was captured. After record 8 both ends seem to be up and to owe each other nothing: a quiet point.
# It is a premise of every answer: only the engineering data or a log can confirm it.
quiet.client = { next_sn = 108, clock = 1080, handed_ts = 1072 } # its last PDU is in record 8, its last data in record 7
quiet.server = { next_sn = 502, clock = 9060 } # its last PDU is in record 4

[[channel]]
client = "10.0.0.1:5000" # seen in record 1
server = "10.0.0.2:5000" # seen in record 1
== 0 behind 4 | lost plain: 0 1 2 4 5 6 7 8 9 10 18 |  | A packet is missing before record 4.
# A draft of the parameters of the connection in the records 1 to 11 of a capture.
# Each line tells where its value was seen; one from the engineering data is a placeholder.
# A draft is a guess from the form of packets: compare each line with the engineering data.

client_id = 96 # sender of the connection request in record 1
server_id = 97 # its receiver
code_length = 0 # fits the length of 11 of 11 packets
md4_start = "67452301efcdab8998badcfe10325476" # MD4's own start words; without a safety code they have no effect
check_length = 0 # fits the length of 11 of 11 packets
n_sendmax = 20 # the client offered 20 in record 1, the server 20 in record 2
t_max = 1800 # from the engineering data, in milliseconds
slack = 0 # from the engineering data, in milliseconds
first_record = 10 # the first record after the quiet point
last_record = 11 # the connection's last packet

# Packets before record 4 are not looked at, but for copies. After record 9 both ends seem to be up and to owe each other nothing: a quiet point.
# It is a premise of every answer: only the engineering data or a log can confirm it.
quiet.client = { next_sn = 108, clock = 1080, handed_ts = 1072 } # its last PDU is in record 9, its last data in record 8
quiet.server = { next_sn = 502, clock = 9060 } # its last PDU is in record 5

[[channel]]
client = "10.0.0.1:5000" # seen in record 1
server = "10.0.0.2:5000" # seen in record 1
== 0 behind 4 | data plain: 0 1 2 3 4 |  | Nothing crosses behind the only point.
# The connection in the records 1 to 5 of a capture shows no quiet point behind record 4.
# After record 5 both ends are at rest, but behind it the client sends nothing.
== 0 behind 4 | data plain: 0 1 2 3 4 3 4 |  | The packets cross once more.
# The connection in the records 1 to 7 of a capture shows no quiet point behind record 4.
# After record 7 both ends are at rest, but behind it the client sends nothing.
# The point after record 6 is ruled out by record 7, which has the number of the packet in record 5.
== 0 behind 6 | directly plain: 0 1 2 3 5 6 4 8 |  | A response to a request before record 6.
# The connection in the records 1 to 8 of a capture shows no quiet point behind record 6.
# What the server sends last, in record 8, is of the type retransmission response, and not heartbeat, data or retransmission request.
# The point after record 7 is ruled out by record 8, a retransmission response to what was asked for before it.
== 0 behind 5 | lost plain: 0 1 2 4 5 |  | A request without a response, of the end that alone sends.
# The connection in the records 1 to 5 of a capture shows no quiet point behind record 5.
# From there on the client sends nothing.
== 0 behind 4 | lost plain: 0 1 2 4 5 |  | A request without a response.
# The connection in the records 1 to 5 of a capture shows no quiet point behind record 4.
# The retransmission request of the server in record 5 has no response.
== 0 behind 9 | data plain: 0 1 2 |  | Behind the last record.
# The connection in the records 1 to 3 of a capture shows no quiet point behind record 9.
# From there on the client sends nothing.
"#;

/// The lines of the cases of a draft.
pub fn drafts() -> &'static str {
    DRAFTS
}
