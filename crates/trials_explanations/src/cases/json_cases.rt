//! Captures, and what is wanted of them as JSON. A JSON text stands here over several lines; the line feeds between
//! them are no part of it.

const WHOLE: &str = r#"
== data plain: 0 1 2 3 4 |  |  | plain |  | Data that are confirmed.
{"program":"seatmelon 0.1.0, proved with Rattle, logic dac8208d650f15bf",
"capture":{"name":"c","sha256":"e56454b33ee136b1ec869d81d2ac3181b8675027c9d9a55fbeeda50c6825eb8c"},
"parameters":{"name":"p","sha256":"690d7880e356248a4f526b2a78d7367e4412615a8a85f47eafa354a793430538"},
"certificate":null,"without":[],"records_read":5,"window":null,"packets":5,
"channels":[{"channel":1,"from_client":3,"from_server":2},{"channel":2,"from_client":0,"from_server":0}],
"begins_with_opening":true,"disconnection":null,"another_opening":null,
"records_passed_over":0,"passed_over":{"left_out":0,"not_udp":0,"tagged":0,"elsewhere":0,"unreadable":0},
"times":{"falling":{"records":0,"first":null},"overlong_fractions":{"records":0,"first":null},
"longest_silence":{"client":{"nanoseconds":0,
"from":{"record":1,"time":"1970-01-01 00:00:00.000000 UTC","channel":1},
"to":{"record":3,"time":"1970-01-01 00:00:00.000000 UTC","channel":1},"is_to_end":false},
"server":{"nanoseconds":0,
"from":{"record":2,"time":"1970-01-01 00:00:00.000000 UTC","channel":1},
"to":{"record":5,"time":"1970-01-01 00:00:00.000000 UTC","channel":1},"is_to_end":false}}},
"judged_by":{"client_id":96,"server_id":97,"code_length":0,"md4_start":"67452301efcdab8998badcfe10325476",
"check_length":0,"n_sendmax":20,"t_max":1800,"slack":0,
"channel":[{"client":"10.0.0.1:5000","server":"10.0.0.2:5000"},{"client":"10.0.1.1:5001","server":"10.0.1.2:5001"}]},
"offers":[],"versions":null,
"verdict":"explained","packets_explained":5,
"premises":[
"Whatever an end sent reached the tap, in the order in which it was sent, and the capture has all of it, in that order.",
"Nobody else sent a packet between the recorded addresses.",
"The parameters are right.",
"For 'surely taken': both ends kept the rules.",
"What is judged begins before the opening of the connection."],
"quiet_point":null,
"messages":[{"from":"client","to":"server","surely_taken":2,"sent":2,"not_shown":null,"messages":[
{"message":0,"surely_taken":true,
"data":{"record":4,"time":"1970-01-01 00:00:00.000000 UTC","channel":1},
"proof":{"record":5,"time":"1970-01-01 00:00:00.000000 UTC","channel":1},
"hex":"ab01","text":"\\xab\\x01"},
{"message":1,"surely_taken":true,
"data":{"record":4,"time":"1970-01-01 00:00:00.000000 UTC","channel":1},
"proof":{"record":5,"time":"1970-01-01 00:00:00.000000 UTC","channel":1},
"hex":"","text":""}]},
{"from":"server","to":"client","surely_taken":0,"sent":0,"not_shown":null,"messages":[]}]}
== data plain: 0 1 2 3 4 5 6@2 |  |  | plain |  | A number that was used twice.
{"program":"seatmelon 0.1.0, proved with Rattle, logic dac8208d650f15bf",
"capture":{"name":"c","sha256":"258e24914ad231903b7d57519765f9685bb05da39d69920567de16b223b1ac71"},
"parameters":{"name":"p","sha256":"690d7880e356248a4f526b2a78d7367e4412615a8a85f47eafa354a793430538"},
"certificate":null,"without":[],"records_read":7,"window":null,"packets":7,
"channels":[{"channel":1,"from_client":4,"from_server":2},{"channel":2,"from_client":1,"from_server":0}],
"begins_with_opening":true,
"disconnection":{"end":"client","reason":4,"detail":0,
"packet":{"record":6,"time":"1970-01-01 00:00:00.000000 UTC","channel":1},
"new_pdus_behind":0,"late_copies_behind":1},"another_opening":null,
"records_passed_over":0,"passed_over":{"left_out":0,"not_udp":0,"tagged":0,"elsewhere":0,"unreadable":0},
"times":{"falling":{"records":0,"first":null},"overlong_fractions":{"records":0,"first":null},
"longest_silence":{"client":{"nanoseconds":0,
"from":{"record":1,"time":"1970-01-01 00:00:00.000000 UTC","channel":1},
"to":{"record":3,"time":"1970-01-01 00:00:00.000000 UTC","channel":1},"is_to_end":false},
"server":{"nanoseconds":0,
"from":{"record":2,"time":"1970-01-01 00:00:00.000000 UTC","channel":1},
"to":{"record":5,"time":"1970-01-01 00:00:00.000000 UTC","channel":1},"is_to_end":false}}},
"judged_by":{"client_id":96,"server_id":97,"code_length":0,"md4_start":"67452301efcdab8998badcfe10325476",
"check_length":0,"n_sendmax":20,"t_max":1800,"slack":0,
"channel":[{"client":"10.0.0.1:5000","server":"10.0.0.2:5000"},{"client":"10.0.1.1:5001","server":"10.0.1.2:5001"}]},
"offers":[],"versions":null,
"verdict":"refused",
"fault":{"number":27,"name":"CopyDiffers",
"meaning":"this redundancy number has crossed before, with other bytes",
"conspicuous":[],"cause":"a bit flipped on the line; a stranger; or an end that used a number twice",
"next_step":"how this packet differs from its first copy, and what --without with its record says"},
"link_type":null,"link_type_name":null,"snapshot_length":null,"record":{"record":7,"time":"1970-01-01 00:00:00.000000 UTC"},
"packet":{"end":"client","channel":2,"bytes":40,
"fields":{"type":6216,"type_name":"disconnection request","length_field":40,"redundancy_number":10,
"safety_length_field":32,"receiver":97,"sender":96,"sn":103,"cs":501,"ts":2815,"cts":9050},
"payload_and_codes":"00000400"},
"trouble":{"code_found":null,"code_due":null,
"first_copy":{"record":6,"time":"1970-01-01 00:00:00.000000 UTC","channel":1},"first_copy_bytes":null,
"differences":[{"at":28,"found":"ff","first_copy":"fe"}],"may_differ_further":false},
"lengths_fitting":null,"codes_judged":0,"codes_fitting":0,"line":null,"entry":null,"pdu":null,"rule":null,
"before_fault":{"verdict":"explained","packets":6,"client":{"sent":2,"surely_taken":2},"server":{"sent":0,"surely_taken":0},"last_record":6},"from_the_middle":null}
== data plain: - |  |  | plain |  | No packet at all.
{"program":"seatmelon 0.1.0, proved with Rattle, logic dac8208d650f15bf",
"capture":{"name":"c","sha256":"704e5e5b3234433c01fcfd1b20a306e77e985038120492dc53965c3edd38a4ea"},
"parameters":{"name":"p","sha256":"690d7880e356248a4f526b2a78d7367e4412615a8a85f47eafa354a793430538"},
"certificate":null,"without":[],"records_read":0,"window":null,"packets":0,
"channels":[{"channel":1,"from_client":0,"from_server":0},{"channel":2,"from_client":0,"from_server":0}],
"begins_with_opening":false,"disconnection":null,"another_opening":null,
"records_passed_over":0,"passed_over":{"left_out":0,"not_udp":0,"tagged":0,"elsewhere":0,"unreadable":0},
"times":{"falling":{"records":0,"first":null},"overlong_fractions":{"records":0,"first":null},
"longest_silence":{"client":null,
"server":null}},
"judged_by":{"client_id":96,"server_id":97,"code_length":0,"md4_start":"67452301efcdab8998badcfe10325476",
"check_length":0,"n_sendmax":20,"t_max":1800,"slack":0,
"channel":[{"client":"10.0.0.1:5000","server":"10.0.0.2:5000"},{"client":"10.0.1.1:5001","server":"10.0.1.2:5001"}]},
"offers":[],"versions":null,
"verdict":"no_packets"}
"#;

/// Cases with their whole JSON.
pub fn whole() -> &'static str {
    WHOLE
}

const PARTS: &str = r#"
== data code16: 0 1 2 2 flip |  |  | code16 |  | A late copy with a flipped bit.
"trouble":{"code_found":"7a9bef200a8e93ad6ea9b769f0c39b06","code_due":"7a9bef200a8e93ad6ea9b769f0c39b07",
"first_copy":{"record":3,"time":"1970-01-01 00:00:00.000000 UTC","channel":1},"first_copy_bytes":null,
"differences":[{"at":51,"found":"06","first_copy":"07"}],"may_differ_further":false},
"lengths_fitting":null,"codes_judged":1,"codes_fitting":0,"line":null,"entry":null,"pdu":null,"rule":null,
"before_fault":{"verdict":"explained","packets":3,"client":{"sent":0,"surely_taken":0},"server":{"sent":0,"surely_taken":0},"last_record":3},"from_the_middle":null}
== data plain: 2 |  |  | code16 |  | A heartbeat without a safety code, where one of 16 bytes is recorded.
"sn":101,"cs":500,"ts":1010,"cts":9000},"payload_and_codes":""},
"trouble":{"least_bytes_due":52},"lengths_fitting":{"check_length":0,"code_lengths":[0]},
"codes_judged":0,"codes_fitting":0,"line":null,
== data plain: 0 | 90=41 |  | plain |  | A wrong length of the safety layer.
"trouble":{"safety_length_field_due":42},
"lengths_fitting":null,"codes_judged":0,"codes_fitting":0,"line":null,
== data plain: 0 | 82=51 |  | plain |  | A wrong length of the redundancy layer.
"trouble":{"length_field_due":50},
"lengths_fitting":null,"codes_judged":0,"codes_fitting":0,"line":null,
== data plain: 0 | 94=98 |  | plain |  | The ids of other ends.
"trouble":{"receiver_due":97,"sender_due":96},
"lengths_fitting":null,"codes_judged":0,"codes_fitting":0,"line":null,
== data plain: 0 1 3 2 |  |  | plain |  | The missing packet crosses later.
"trouble":{"number_due":8,"number_found":9,"sn_due":101,"sn_found":102,"numbers_skipped":1,"numbers_back":null,"sns_skipped":1,
"last_before":{"packet":{"record":1,"time":"1970-01-01 00:00:00.000000 UTC","channel":1},"redundancy_number":7,"sn":100},
"crosses_later":{"record":4,"time":"1970-01-01 00:00:00.000000 UTC","channel":1},"has_opening":true},
== data plain: 0 1 cut |  |  | plain |  | A file that is cut in a record.
"record":{"record":2,"time":null},"packet":null,"trouble":null,"lengths_fitting":null,"codes_judged":0,"codes_fitting":0,"line":null,"entry":null,"pdu":null,"rule":null,
"before_fault":{"verdict":"explained","packets":1,"client":{"sent":0,"surely_taken":0},"server":{"sent":0,"surely_taken":0},"last_record":1},"from_the_middle":null}
== data plain: 0 | 20=20 21=1 |  | plain |  | Frames of another link type.
"verdict":"refused","fault":{"number":12,"name":"LinkType","meaning":"the frames are not Ethernet frames",
"conspicuous":[],"cause":"the capture was made on the interface 'any'",
"next_step":"the capture of Ethernet frames that this command makes of it: seatmelon convert CAPTURE > OUT"},
"link_type":276,"link_type_name":"Linux cooked capture v2","snapshot_length":null,"record":null,
== data plain: 0 | 20=200 |  | plain |  | Frames of a link type without a name.
"link_type":200,"link_type_name":null,"snapshot_length":null,"record":null,
== data plain: 0%50 | 16=50 17=0 18=0 19=0 |  | plain |  | A datagram that wasn't captured whole.
"link_type":null,"link_type_name":null,"snapshot_length":50,
== data plain: 0 1 2 |  |  | narrow | rasta-certificate 2;  | A certificate of another version.
"offers":[{"end":"client","offered":20,"recorded":1},{"end":"server","offered":20,"recorded":1}],"versions":null,
"verdict":"refused","fault":{"number":30,"name":"Syntax",
"meaning":"this line isn't one that a certificate has there",
"conspicuous":[],"cause":"the certificate is wrong: another one may explain the same packets",
"next_step":"this line of the certificate"},
"link_type":null,"link_type_name":null,"snapshot_length":null,"record":null,"packet":null,"trouble":null,
"lengths_fitting":null,"codes_judged":null,"codes_fitting":null,"line":1,"entry":null,"pdu":null,"rule":null,
"before_fault":null,"from_the_middle":null}
== data plain: 0 1 2 |  |  | plain | rasta-certificate 1; client; make 0 1000 open; take 2 40; make 2 1010 reply; server; take 1 7; make 1 9000 beat; end;  | An entry of the server.
"line":null,"entry":{"number":2,"end":"server","line":8},
"pdu":{"end":"server","packet":{"record":2,"time":"1970-01-01 00:00:00.000000 UTC","channel":1},
"fields":{"type":6201,"type_name":"connection response","redundancy_number":40,
"sn":500,"cs":100,"ts":9000,"cts":1000,"messages":[]}},"rule":null,
"before_fault":null,"from_the_middle":null}
== data plain: 0 1 2 |  |  | plain | rasta-certificate 1; client; make 0 1000 open; take 2 41; make 2 1010 reply; server; take 1 7; make 1 9000 reply; end;  | It takes a packet that never crosses.
"entry":{"number":2,"end":"client","line":4},"pdu":null,"rule":null,
"before_fault":null,"from_the_middle":null}
== data plain: 3 |  |  | plain |  | Data, and no opening before it.
"cause":"the capture begins in the middle of the connection, and the parameters record no quiet point;
 or the opening is there, but outside the window or on a channel that isn't recorded",
"next_step":"the quiet points that seatmelon draft proposes, one of which the engineering data or a log
 has to confirm; or the window and the channels in the parameters"},
"link_type":null,"link_type_name":null,"snapshot_length":null,"record":null,"packet":null,"trouble":null,
"lengths_fitting":null,"codes_judged":null,"codes_fitting":null,"line":null,"entry":null,
"pdu":{"end":"client","packet":{"record":1,"time":"1970-01-01 00:00:00.000000 UTC","channel":1},
"fields":{"type":6240,"type_name":"data","redundancy_number":9,"sn":102,"cs":500,"ts":1020,"cts":9000,
"messages":[{"hex":"ab01","text":"\\xab\\x01"},{"hex":"","text":""}]}},
"rule":{"words":"CS 500 confirms a PDU of the server, and none crosses",
"number_due":null,"number_found":null,"peer_pdu":null,"deadline":null},
"before_fault":null,"from_the_middle":{"packets":1,"packets_before":null,
"premises":["These packets crossed the tap, and all are of one connection.",
"Nobody else sent a packet between the recorded addresses.",
"The parameters are right.",
"Both ends kept the rules, and neither made more than 2147483647 PDUs in this connection."],
"messages":[{"from":"client","to":"server","surely_taken":0,"captured":2,"not_shown":{"first":0,"last":1},"left_out":0,"messages":[
{"message":0,"surely_taken":false,
"data":{"record":1,"time":"1970-01-01 00:00:00.000000 UTC","channel":1},"proof":null,
"hex":"ab01","text":"\\xab\\x01"},
{"message":1,"surely_taken":false,
"data":{"record":1,"time":"1970-01-01 00:00:00.000000 UTC","channel":1},"proof":null,
"hex":"","text":""}]},
{"from":"server","to":"client","surely_taken":0,"captured":0,"not_shown":null,"left_out":0,"messages":[]}],
"sent_again":[{"from":"client","to":"server","surely_taken":0,"sent_again":0,"messages":[]},
{"from":"server","to":"client","surely_taken":0,"sent_again":0,"messages":[]}]}}
== quiet plain: 0 1 4 |  |  | plain |  | What the packets before one show that doesn't fit to them.
"from_the_middle":{"packets":2,
"packets_before":{"packet":{"record":3,"time":"1970-01-01 00:00:00.000000 UTC","channel":1},"is_opening":false},
"premises":["These packets crossed the tap, and all are of one connection.",
== quiet plain: 0 1 3 |  |  | plain |  | And before an opening.
"packets_before":{"packet":{"record":3,"time":"1970-01-01 00:00:00.000000 UTC","channel":1},"is_opening":true},
== lost plain: 7 8 9 10 |  |  | plain |  | Data that were sent again, and first sent before.
"sent_again":[{"from":"client","to":"server","surely_taken":2,"sent_again":2,"messages":[
{"message":0,"surely_taken":true,
"data":{"record":1,"time":"1970-01-01 00:00:00.000000 UTC","channel":1},
"proof":{"record":4,"time":"1970-01-01 00:00:00.000000 UTC","channel":1},
"hex":"01","text":"\\x01"},
{"message":1,"surely_taken":true,
"data":{"record":2,"time":"1970-01-01 00:00:00.000000 UTC","channel":1},
"proof":{"record":4,"time":"1970-01-01 00:00:00.000000 UTC","channel":1},
"hex":"02","text":"\\x02"}]},
{"from":"server","to":"client","surely_taken":0,"sent_again":0,"messages":[]}]}}
== data plain: 0 | 92=0 |  | plain |  | An unknown type.
"trouble":{"type_found":6144},
"lengths_fitting":null,"codes_judged":0,"codes_fitting":0,"line":null,
== data plain: 0 | 118=255 |  | plain |  | The version of an opening has a byte that is no digit.
"trouble":{"payload_due":"14 bytes, which begin with a version of four digits","payload_bytes":14,
"version":{"hex":"ff333033","text":"\\xff303"},"cut_message":null},
"lengths_fitting":null,"codes_judged":0,"codes_fitting":0,"line":null,
== data plain: 3 | 118=5 |  | plain |  | A message that is cut.
"payload_bytes":6,"version":null,"cut_message":{"at":0,"length":5,"left":4}},
"lengths_fitting":null,"codes_judged":0,"codes_fitting":0,"line":null,
== data plain: 0 2 1 |  |  | plain |  | What the client confirms crosses later.
"rule":{"words":"CS 500 confirms a PDU of the server that crosses later","number_due":null,"number_found":null,
"peer_pdu":{"end":"server","packet":{"record":3,"time":"1970-01-01 00:00:00.000000 UTC","channel":1},
"fields":{"type":6201,"type_name":"connection response","redundancy_number":40,
"sn":500,"cs":100,"ts":9000,"cts":1000,"messages":[]}},"deadline":null},"before_fault":null,"from_the_middle":{"packets":3,
== timed plain: 0 1 2 5 |  |  | plain |  | A packet past its deadline.
"peer_pdu":{"end":"client","packet":{"record":3,"time":"1970-01-01 00:00:00.000000 UTC","channel":1},
"fields":{"type":6220,"type_name":"heartbeat","redundancy_number":8,
"sn":101,"cs":500,"ts":1010,"cts":9000,"messages":[]}},
"deadline":{"clock":10801,"confirmed_time":9000,"t_max":1800,"slack":0,"deadline":10800}},"before_fault":null,"from_the_middle":{"packets":4,
== timed plain: 0 1 2 14 |  |  | plain |  | Another SN than the next one.
"rule":{"words":"SN isn't the next one of this end","number_due":102,"number_found":112,"peer_pdu":null,"deadline":null},"before_fault":null,"from_the_middle":{"packets":3,
== heartbeats plain: 0 1 2 3 5 |  | suppose=1 | plain |  | A heartbeat is missing, and data would do as well.
"supposed":{"fillings":[[{"from":"server","before":{"record":5,"time":"1970-01-01 00:00:00.000000 UTC","channel":1},
"redundancy_number":42,"type":6220,"type_name":"heartbeat","sn":502,"cs":101,"ts":9010,"cts":1010}],
[{"from":"server","before":{"record":5,"time":"1970-01-01 00:00:00.000000 UTC","channel":1},
"redundancy_number":42,"type":6240,"type_name":"data","sn":502,"cs":101,"ts":9010,"cts":1010}]],
"gaps":[{"from":"server","missing":1,"before":{"record":5,"time":"1970-01-01 00:00:00.000000 UTC","channel":1},
"ways":[{"type":6220,"type_name":"heartbeat","explained_before":null},
{"type":6240,"type_name":"data","explained_before":null}]}],
"premises":["The tap missed exactly the supposed PDUs, as one of these fillings has them.",
"Whatever else an end sent reached the tap, in the order in which it was sent, and the capture has 
all of it, in that order."
== heartbeats plain: 0 1 2 3 5 18 |  | suppose=1 | plain |  | Behind the gap the server asks for what nobody sent.
"supposed":{"fillings":[],
"gaps":[{"from":"server","missing":1,"before":{"record":5,"time":"1970-01-01 00:00:00.000000 UTC","channel":1},
"ways":[{"type":6220,"type_name":"heartbeat",
"explained_before":{"record":6,"time":"1970-01-01 00:00:00.000000 UTC","channel":1}},
{"type":6240,"type_name":"data",
"explained_before":{"record":6,"time":"1970-01-01 00:00:00.000000 UTC","channel":1}}]}]}
"#;

/// Cases with a part of their JSON, of each kind.
pub fn parts() -> &'static str {
    PARTS
}

const QUIET: &str = r#"
== data plain: 3 |  |  | plain |  | A capture from a quiet point where one clock is the greatest that is a number.
"The quiet point before record 1 is true, and no copy of an earlier packet comes after it."],
"quiet_point":{"first_record":1,
"client":{"next_sn":102,"clock":1010,"deadline":9007199254740992,"handed_ts":null},
"server":{"next_sn":501,"clock":9000,"deadline":"9007199254740993","handed_ts":8950}},
"messages":[{"from":"client","to":"server","surely_taken":0,"sent":2,"not_shown":{"first":0,"last":1},"messages":[
{"message":0,"surely_taken":false,
"data":{"record":1,"time":"1970-01-01 00:00:00.000000 UTC","channel":1},"proof":null,
"hex":"ab01","text":"\\xab\\x01"},
"#;

/// A case with a part of its JSON, where one clock of its quiet point is the greatest that is a number.
pub fn quiet() -> &'static str {
    QUIET
}
