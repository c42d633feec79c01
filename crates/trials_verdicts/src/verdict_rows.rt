//! Rows of verdicts: a name; further keys of the parameters; the packets; the certificate; the text. A
//! slash stands for the end of a line, and a hyphen for nothing. A packet is `SIDE NUMBER TYPE SN CS TS CTS
//! PAYLOAD`, `SIDE:DATAGRAM` or `frame:FRAME` in hexadecimal, with `@2` after a side on the second
//! channel; `of N` before it is its original length, where it was cut; `magic:MAGIC` before the packets is
//! that of the file; `opened` stands for the three packets of a handshake; `cut` takes the last byte of the file away.

pub const ROWS: &str = "\
nothing | - | \
- | \
rasta-certificate 1/client/server/end | \
explained 0/taken by client 0/taken by server 0\n\
handshake | - | \
opened | \
rasta-certificate 1/client/make 0 1000 open/take 2 40/make 2 1010 reply/server/take 1 7/make 1 9000 reply/end | \
explained 3/0 client make 7 1000 open/1 server take 7/1 server make 40 9000 reply/2 client take 40/\
2 client make 8 1010 reply/taken by client 0/taken by server 0\n\
handed up once | - | \
opened/client 9 6240 102 500 1020 9000 0200ab010000/server 41 6220 501 102 9050 1020 | \
rasta-certificate 1/client/make 0 1000 open/take 2 40/make 2 1010 reply/make 3 1020 fresh/server/take 1 7/\
make 1 9000 reply/take 4 8/take 4 9/make 4 9050 beat/end | \
explained 5/0 client make 7 1000 open/1 server take 7/1 server make 40 9000 reply/2 client take 40/\
2 client make 8 1010 reply/3 client make 9 1020 fresh/4 server take 8/4 server take 9/\
4 server make 41 9050 beat/taken by client 0/taken by server 2/0 3 4 ab01/1 3 4 .\n\
no proof | - | \
opened/client 9 6240 102 500 1020 9000 0200ab010000 | \
rasta-certificate 1/client/make 0 1000 open/take 2 40/make 2 1010 reply/make 3 1020 fresh/server/take 1 7/\
make 1 9000 reply/end | \
explained 4/0 client make 7 1000 open/1 server take 7/1 server make 40 9000 reply/2 client take 40/\
2 client make 8 1010 reply/3 client make 9 1020 fresh/taken by client 0/taken by server 0\n\
numbers wrap | - | \
client 4294967295 6200 4294967295 0 4294967280 0 3033303314000000000000000000/\
server 40 6201 500 4294967295 9000 4294967280 3033303314000000000000000000/client 0 6220 0 500 4 9000/\
client 1 6240 1 500 14 9000 010001/server 41 6220 501 1 9050 14 | \
rasta-certificate 1/client/make 0 4294967280 open/take 2 40/make 2 4294967300 reply/make 3 4294967310 fresh/\
take 5 41/server/take 1 4294967295/make 1 9000 reply/take 4 0/take 4 1/make 4 9050 beat/end | \
explained 5/0 client make 4294967295 4294967280 open/1 server take 4294967295/1 server make 40 9000 reply/\
2 client take 40/2 client make 0 4294967300 reply/3 client make 1 4294967310 fresh/4 server take 0/\
4 server take 1/4 server make 41 9050 beat/5 client take 41/taken by client 0/taken by server 1/0 3 4 01\n\
clock falls | - | \
client 4294967295 6200 4294967295 0 4294967280 0 3033303314000000000000000000/\
server 40 6201 500 4294967295 9000 4294967280 3033303314000000000000000000/client 0 6220 0 500 4 9000/\
client 1 6240 1 500 14 9000 010001/server 41 6220 501 1 9050 14 | \
rasta-certificate 1/client/make 0 4294967280 open/take 2 40/make 2 4 reply/make 3 4294967310 fresh/take 5 41/\
server/take 1 4294967295/make 1 9000 reply/take 4 0/take 4 1/make 4 9050 beat/end | \
refused 37 ClockFalls 3 client\n\
lost unit is resent | - | \
opened/client 9 6240 102 500 1020 9000 010001/client 10 6240 103 500 1030 9000 010002/\
server 41 6212 501 101 9060 1010/client 11 6213 104 501 1070 9060/client 12 6241 105 501 1071 9060 010001/\
client 13 6241 106 501 1072 9060 010002/client 14 6220 107 501 1080 9060/server 42 6220 502 107 9090 1080 | \
rasta-certificate 1/client/make 0 1000 open/take 2 40/make 2 1010 reply/make 3 1020 fresh/make 4 1030 fresh/\
take 6 41/make 6 1070 reply/make 7 1071 again 0/make 8 1072 again 1/make 9 1080 beat/server/take 1 7/\
make 1 9000 reply/take 5 8/take 5 10/make 5 9060 ask/take 10 11/take 10 12/take 10 13/take 10 14/\
make 10 9090 beat/end | \
explained 11/0 client make 7 1000 open/1 server take 7/1 server make 40 9000 reply/2 client take 40/\
2 client make 8 1010 reply/3 client make 9 1020 fresh/4 client make 10 1030 fresh/5 server take 8/\
5 server take 10/5 server make 41 9060 ask/6 client take 41/6 client make 11 1070 reply/\
7 client make 12 1071 again 0/8 client make 13 1072 again 1/9 client make 14 1080 beat/10 server take 11/\
10 server take 12/10 server take 13/10 server take 14/10 server make 42 9090 beat/taken by client 0/\
taken by server 2/0 3 10 01/1 4 10 02\n\
both ask | - | \
opened/client 9 6240 102 500 1020 9000 010001/server 41 6240 501 101 9020 1010 010011/\
client 10 6240 103 500 1030 9000 010002/server 42 6240 502 101 9030 1010 010012/\
client 11 6212 104 500 1040 9000/server 43 6212 503 101 9040 1010/client 12 6213 105 500 1050 9000/\
client 13 6241 106 500 1051 9000 010001/client 14 6241 107 500 1052 9000 010002/\
server 44 6213 504 101 9050 1010/server 45 6241 505 101 9051 1010 010011/\
server 46 6241 506 101 9052 1010 010012/client 15 6220 108 506 1060 9052/server 47 6220 507 108 9060 1060 | \
rasta-certificate 1/client/make 0 1000 open/take 2 40/make 2 1010 reply/make 3 1020 fresh/make 5 1030 fresh/\
take 7 42/make 7 1040 ask/take 9 43/make 9 1050 reply/make 10 1051 again 0/make 11 1052 again 1/take 15 44/\
take 15 45/take 15 46/make 15 1060 beat/server/take 1 7/make 1 9000 reply/take 4 8/make 4 9020 fresh/\
make 6 9030 fresh/take 8 10/make 8 9040 ask/take 12 11/make 12 9050 reply/make 13 9051 again 0/\
make 14 9052 again 1/take 16 12/take 16 13/take 16 14/take 16 15/make 16 9060 beat/end | \
explained 17/0 client make 7 1000 open/1 server take 7/1 server make 40 9000 reply/2 client take 40/\
2 client make 8 1010 reply/3 client make 9 1020 fresh/4 server take 8/4 server make 41 9020 fresh/\
5 client make 10 1030 fresh/6 server make 42 9030 fresh/7 client take 42/7 client make 11 1040 ask/\
8 server take 10/8 server make 43 9040 ask/9 client take 43/9 client make 12 1050 reply/\
10 client make 13 1051 again 0/11 client make 14 1052 again 1/12 server take 11/12 server make 44 9050 reply/\
13 server make 45 9051 again 0/14 server make 46 9052 again 1/15 client take 44/15 client take 45/\
15 client take 46/15 client make 15 1060 beat/16 server take 12/16 server take 13/16 server take 14/\
16 server take 15/16 server make 47 9060 beat/taken by client 2/0 4 15 11/1 6 15 12/taken by server 2/\
0 3 16 01/1 5 16 02\n\
second request in one entry | - | \
opened/client 9 6240 102 500 1020 9000 010001/client 10 6240 103 500 1030 9000 010002/\
server 41 6212 501 101 9060 1010/server 42 6212 502 101 9070 1010 | \
rasta-certificate 1/client/make 0 1000 open/take 2 40/make 2 1010 reply/make 3 1020 fresh/make 4 1030 fresh/\
server/take 1 7/make 1 9000 reply/take 5 8/take 5 10/make 5 9060 ask/make 6 9070 ask/end | \
refused 41 NotAllowed 6 server\n\
copies on two channels | - | \
client 7 6200 100 0 1000 0 3033303314000000000000000000/\
client@2 7 6200 100 0 1000 0 3033303314000000000000000000/\
server 40 6201 500 100 9000 1000 3033303314000000000000000000/client 8 6220 101 500 1010 9000/\
client@2 7 6200 100 0 1000 0 3033303314000000000000000000/client@2 8 6220 101 500 1010 9000/\
server@2 40 6201 500 100 9000 1000 3033303314000000000000000000 | \
rasta-certificate 1/client/make 0 1000 open/take 3 40/make 3 1010 reply/server/take 2 7/make 2 9000 reply/end | \
explained 7/0 client make 7 1000 open/1 client copy 7/2 server take 7/2 server make 40 9000 reply/\
3 client take 40/3 client make 8 1010 reply/4 client copy 7/5 client copy 8/6 server copy 40/\
taken by client 0/taken by server 0\n\
copy differs | - | \
opened/client 8 6220 102 500 1010 9000 | \
rasta-certificate 1/client/server/end | \
refused 27 CopyDiffers 4 client\n\
make at the deadline | - | \
opened/client 9 6240 102 500 1020 9000 0200ab010000/server 41 6220 501 102 10800 1020 | \
rasta-certificate 1/client/make 0 1000 open/take 2 40/make 2 1010 reply/make 3 1020 fresh/\
server/take 1 7/make 1 9000 reply/take 4 8/take 4 9/make 4 10800 beat/end | \
explained 5/0 client make 7 1000 open/1 server take 7/1 server make 40 9000 reply/2 client take 40/\
2 client make 8 1010 reply/3 client make 9 1020 fresh/4 server take 8/4 server take 9/\
4 server make 41 10800 beat/taken by client 0/taken by server 2/0 3 4 ab01/1 3 4 .\n\
make past the deadline | - | \
opened/client 9 6240 102 500 1020 9000 0200ab010000/server 41 6220 501 102 10801 1020 | \
rasta-certificate 1/client/make 0 1000 open/take 2 40/make 2 1010 reply/make 3 1020 fresh/server/take 1 7/\
make 1 9000 reply/take 4 8/take 4 9/make 4 10801 beat/end | \
refused 38 PastDeadline 5 server\n\
take at its own place | - | \
opened/client 9 6240 102 500 1020 9000 0200ab010000/server 41 6220 501 102 9050 1020 | \
rasta-certificate 1/client/make 0 1000 open/take 2 40/make 2 1010 reply/make 3 1020 fresh/server/take 1 7/\
make 1 9000 reply/take 3 8/take 3 9/make 4 9050 beat/end | \
refused 34 NotYetCrossed 4 server\n\
take right after | - | \
opened/client 9 6240 102 500 1020 9000 0200ab010000/server 41 6220 501 102 9050 1020 | \
rasta-certificate 1/client/make 0 1000 open/take 2 40/make 2 1010 reply/make 3 1020 fresh/server/take 1 7/\
make 1 9000 reply/take 3 8/take 4 9/make 4 9050 beat/end | \
explained 5/0 client make 7 1000 open/1 server take 7/1 server make 40 9000 reply/2 client take 40/\
2 client make 8 1010 reply/3 server take 8/3 client make 9 1020 fresh/4 server take 9/\
4 server make 41 9050 beat/taken by client 0/taken by server 2/0 3 4 ab01/1 3 4 .\n\
capture ends in a burst | - | \
opened/client 9 6240 102 500 1020 9000 010001/client 10 6240 103 500 1030 9000 010002/\
server 41 6212 501 101 9060 1010/client 11 6213 104 501 1070 9060/client 12 6241 105 501 1071 9060 010001/\
server 42 6220 502 105 9080 1071 | \
rasta-certificate 1/client/make 0 1000 open/take 2 40/make 2 1010 reply/make 3 1020 fresh/make 4 1030 fresh/\
take 6 41/make 6 1070 reply/make 7 1071 again 0/server/take 1 7/make 1 9000 reply/take 5 8/take 5 10/\
make 5 9060 ask/take 8 11/take 8 12/make 8 9080 beat/end | \
explained 9/0 client make 7 1000 open/1 server take 7/1 server make 40 9000 reply/2 client take 40/\
2 client make 8 1010 reply/3 client make 9 1020 fresh/4 client make 10 1030 fresh/5 server take 8/\
5 server take 10/5 server make 41 9060 ask/6 client take 41/6 client make 11 1070 reply/\
7 client make 12 1071 again 0/8 server take 11/8 server take 12/8 server make 42 9080 beat/taken by client 0/\
taken by server 1/0 3 8 01\n\
number gap | - | \
client 7 6200 100 0 1000 0 3033303314000000000000000000/\
server 40 6201 500 100 9000 1000 3033303314000000000000000000/client 9 6240 102 500 1020 9000 0200ab010000/\
server 41 6220 501 102 9050 1020 | \
rasta-certificate 1/client/server/end | \
refused 28 NumberGap 3 client\n\
data while a reply is owed | - | \
opened/client 9 6240 102 500 1020 9000 010001/client 10 6240 103 500 1030 9000 010002/\
server 41 6212 501 101 9060 1010/client 11 6240 104 501 1070 9060 010003 | \
rasta-certificate 1/client/make 0 1000 open/take 2 40/make 2 1010 reply/make 3 1020 fresh/make 4 1030 fresh/\
take 6 41/make 6 1070 fresh/server/end | \
refused 42 ReplyOwed 7 client\n\
resend differs | - | \
opened/client 9 6240 102 500 1020 9000 010001/client 10 6240 103 500 1030 9000 010002/\
server 41 6212 501 101 9060 1010/client 11 6213 104 501 1070 9060/client 12 6241 105 501 1071 9060 010001/\
client 13 6241 106 501 1072 9060 010003/client 14 6220 107 501 1080 9060/server 42 6220 502 107 9090 1080 | \
rasta-certificate 1/client/make 0 1000 open/take 2 40/make 2 1010 reply/make 3 1020 fresh/make 4 1030 fresh/\
take 6 41/make 6 1070 reply/make 7 1071 again 0/make 8 1072 again 1/server/end | \
refused 43 ResendDiffers 9 client\n\
lost resend and second request | - | \
opened/client 9 6240 102 500 1020 9000 010001/client 10 6240 103 500 1030 9000 010002/\
server 41 6212 501 101 9060 1010/client 11 6213 104 501 1070 9060/client 12 6241 105 501 1071 9060 010001/\
client 13 6241 106 501 1072 9060 010002/server 42 6212 502 104 9080 1070/client 14 6213 107 502 1090 9080/\
client 15 6241 108 502 1091 9080 010001/client 16 6241 109 502 1092 9080 010002/\
server 43 6220 503 109 9100 1092 | \
rasta-certificate 1/client/make 0 1000 open/take 2 40/make 2 1010 reply/make 3 1020 fresh/make 4 1030 fresh/\
take 6 41/make 6 1070 reply/make 7 1071 again 0/make 8 1072 again 1/take 10 42/make 10 1090 reply/\
make 11 1091 again 0/make 12 1092 again 1/server/take 1 7/make 1 9000 reply/take 5 8/take 5 10/\
make 5 9060 ask/take 9 11/take 9 13/make 9 9080 ask/take 13 14/take 13 15/take 13 16/make 13 9100 beat/end | \
explained 14/0 client make 7 1000 open/1 server take 7/1 server make 40 9000 reply/2 client take 40/\
2 client make 8 1010 reply/3 client make 9 1020 fresh/4 client make 10 1030 fresh/5 server take 8/\
5 server take 10/5 server make 41 9060 ask/6 client take 41/6 client make 11 1070 reply/\
7 client make 12 1071 again 0/8 client make 13 1072 again 1/9 server take 11/9 server take 13/\
9 server make 42 9080 ask/10 client take 42/10 client make 14 1090 reply/11 client make 15 1091 again 0/\
12 client make 16 1092 again 1/13 server take 14/13 server take 15/13 server take 16/\
13 server make 43 9100 beat/taken by client 0/taken by server 2/0 3 13 01/1 4 13 02\n\
quiet start | quiet.client = { next_sn = 102, clock = 1010 }/quiet.server = { next_sn = 501, clock = 9000, deadline = 10800 } | \
client 9 6240 102 500 1020 9000 0200ab010000/server 41 6220 501 102 9050 1020 | \
rasta-certificate 1/client/make 0 1020 fresh/server/take 1 9/make 1 9050 beat/end | \
explained 2/0 client make 9 1020 fresh/1 server take 9/1 server make 41 9050 beat/taken by client 0/\
taken by server 2/0 0 1 ab01/1 0 1 .\n\
no quiet start | - | \
client 9 6240 102 500 1020 9000 0200ab010000/server 41 6220 501 102 9050 1020 | \
rasta-certificate 1/client/make 0 1020 fresh/server/take 1 9/make 1 9050 beat/end | \
refused 41 NotAllowed 1 client\n\
another quiet SN | quiet.client = { next_sn = 103, clock = 1010 }/quiet.server = { next_sn = 501, clock = 9000, deadline = 10800 } | \
client 9 6240 102 500 1020 9000 0200ab010000/server 41 6220 501 102 9050 1020 | \
rasta-certificate 1/client/make 0 1020 fresh/server/take 1 9/make 1 9050 beat/end | \
refused 47 SequenceNumber 1 client\n\
take is left out | - | \
opened/client 9 6240 102 500 1020 9000 0200ab010000/server 41 6220 501 102 9050 1020 | \
rasta-certificate 1/client/make 0 1000 open/take 2 40/make 2 1010 reply/make 3 1020 fresh/server/take 1 7/\
make 1 9000 reply/take 4 8/make 4 9050 beat/end | \
refused 39 ConfirmedNumber 4 server\n\
take twice | - | \
opened/client 9 6240 102 500 1020 9000 0200ab010000/server 41 6220 501 102 9050 1020 | \
rasta-certificate 1/client/make 0 1000 open/take 2 40/make 2 1010 reply/make 3 1020 fresh/server/take 1 7/\
make 1 9000 reply/take 4 8/take 4 9/take 4 9/make 4 9050 beat/end | \
refused 35 NotRising 5 server\n\
entries exchanged | - | \
opened/client 9 6240 102 500 1020 9000 0200ab010000/server 41 6220 501 102 9050 1020 | \
rasta-certificate 1/client/take 2 40/make 0 1000 open/make 2 1010 reply/make 3 1020 fresh/server/take 1 7/\
make 1 9000 reply/take 4 8/take 4 9/make 4 9050 beat/end | \
refused 31 SlotOrder 2 client\n\
first copy left unmade | - | \
opened/client 9 6240 102 500 1020 9000 0200ab010000/server 41 6220 501 102 9050 1020 | \
rasta-certificate 1/client/make 0 1000 open/take 2 40/make 2 1010 reply/server/take 1 7/make 1 9000 reply/\
take 4 8/take 4 9/make 4 9050 beat/end | \
refused 33 MakeMissing 4 client\n\
beat in place of a reply | - | \
opened/client 9 6240 102 500 1020 9000 0200ab010000/server 41 6220 501 102 9050 1020 | \
rasta-certificate 1/client/make 0 1000 open/take 2 40/make 2 1010 beat/make 3 1020 fresh/server/take 1 7/\
make 1 9000 reply/take 4 8/take 4 9/make 4 9050 beat/end | \
refused 42 ReplyOwed 3 client\n\
another clock | - | \
opened/client 9 6240 102 500 1020 9000 0200ab010000/server 41 6220 501 102 9050 1020 | \
rasta-certificate 1/client/make 0 1000 open/take 2 40/make 2 1010 reply/make 3 1021 fresh/server/take 1 7/\
make 1 9000 reply/take 4 8/take 4 9/make 4 9050 beat/end | \
refused 36 ClockDiffers 4 client\n\
another reason | - | \
opened/client 9 6240 102 500 1020 9000 0200ab010000/server 41 6220 501 102 9050 1020 | \
rasta-certificate 1/client/make 0 1000 open/take 2 40/make 2 1010 reply/make 3 1020 again 0/server/take 1 7/\
make 1 9000 reply/take 4 8/take 4 9/make 4 9050 beat/end | \
refused 41 NotAllowed 4 client\n\
slot above the packets | - | \
opened | \
rasta-certificate 1/client/make 0 1000 open/take 4 40/make 2 1010 reply/server/take 1 7/make 1 9000 reply/end | \
refused 31 SlotOrder 2 client\n\
number that never crossed | - | \
opened | \
rasta-certificate 1/client/make 0 1000 open/take 2 41/make 2 1010 reply/server/take 1 7/make 1 9000 reply/end | \
refused 34 NotYetCrossed 2 client\n\
make of the other side | - | \
opened | \
rasta-certificate 1/client/make 0 1000 open/make 1 9000 reply/server/end | \
refused 32 NotFirstCopy 2 client\n\
gap before the certificate | - | \
client 7 6200 100 0 1000 0 3033303314000000000000000000/\
server 40 6201 500 100 9000 1000 3033303314000000000000000000/client 9 6240 102 500 1020 9000 0200ab010000 | \
rasta-certificate 1/client/make 00 1000 open/server/end | \
refused 28 NumberGap 3 client\n\
leading zero | - | \
opened/client 9 6240 102 500 1020 9000 0200ab010000/server 41 6220 501 102 9050 1020 | \
rasta-certificate 1/client/make 00 1000 open/server/end | \
refused 30 Syntax 3 -\n\
byte after the end | - | \
opened/client 9 6240 102 500 1020 9000 0200ab010000/server 41 6220 501 102 9050 1020 | \
rasta-certificate 1/client/make 0 1000 open/take 2 40/make 2 1010 reply/make 3 1020 fresh/server/take 1 7/\
make 1 9000 reply/take 4 8/take 4 9/make 4 9050 beat/end/x | \
refused 30 Syntax 14 -\n\
no text | - | \
opened/client 9 6240 102 500 1020 9000 0200ab010000/server 41 6220 501 102 9050 1020 | \
- | \
refused 30 Syntax 1 -\n\
timeout before the deadline | slack = 5 | \
opened/client 9 6240 102 500 1020 9000 0200ab010000/server 41 6220 501 102 9050 1020/\
client 10 6216 103 501 2814 9050 00000400 | \
rasta-certificate 1/client/make 0 1000 open/take 2 40/make 2 1010 reply/make 3 1020 fresh/take 5 41/\
make 5 2814 expired/server/take 1 7/make 1 9000 reply/take 4 8/take 4 9/make 4 9050 beat/end | \
refused 46 TooEarlyTimeout 6 client\n\
timeout at the deadline | slack = 5 | \
opened/client 9 6240 102 500 1020 9000 0200ab010000/server 41 6220 501 102 9050 1020/\
client 10 6216 103 501 2815 9050 00000400 | \
rasta-certificate 1/client/make 0 1000 open/take 2 40/make 2 1010 reply/make 3 1020 fresh/take 5 41/\
make 5 2815 expired/server/take 1 7/make 1 9000 reply/take 4 8/take 4 9/make 4 9050 beat/end | \
explained 6/0 client make 7 1000 open/1 server take 7/1 server make 40 9000 reply/2 client take 40/\
2 client make 8 1010 reply/3 client make 9 1020 fresh/4 server take 8/4 server take 9/\
4 server make 41 9050 beat/5 client take 41/5 client make 10 2815 expired/taken by client 0/\
taken by server 2/0 3 4 ab01/1 3 4 .\n\
copy with reserve | - | \
client 7 6200 100 0 1000 0 3033303314000000000000000000/\
client@2 7 6200 100 0 1000 0 3033303314000000000000000000/\
server 40 6201 500 100 9000 1000 3033303314000000000000000000/client 8 6220 101 500 1010 9000/\
client@2:32000100070000002a00381861000000600000006400000000000000e8030000000000003033303314000000000000000000 | \
rasta-certificate 1/client/server/end | \
refused 27 CopyDiffers 5 client\n\
byte after the window is missing | last_record = 2 | \
opened/cut | \
rasta-certificate 1/client/make 0 1000 open/server/take 1 7/make 1 9000 reply/end | \
explained 2/0 client make 7 1000 open/1 server take 7/1 server make 40 9000 reply/taken by client 0/\
taken by server 0\n\
byte is missing | - | \
opened/cut | \
rasta-certificate 1/client/server/end | \
refused 14 CutRecord 3 -\n\
big-endian | - | \
magic:a1b2c3d4/opened | \
rasta-certificate 1/client/make 0 1000 open/take 2 40/make 2 1010 reply/server/take 1 7/make 1 9000 reply/end | \
explained 3/0 client make 7 1000 open/1 server take 7/1 server make 40 9000 reply/2 client take 40/\
2 client make 8 1010 reply/taken by client 0/taken by server 0\n\
nanoseconds | - | \
magic:4d3cb2a1/opened | \
rasta-certificate 1/client/make 0 1000 open/take 2 40/make 2 1010 reply/server/take 1 7/make 1 9000 reply/end | \
explained 3/0 client make 7 1000 open/1 server take 7/1 server make 40 9000 reply/2 client take 40/\
2 client make 8 1010 reply/taken by client 0/taken by server 0\n\
big-endian and nanoseconds | - | \
magic:a1b23c4d/opened | \
rasta-certificate 1/client/make 0 1000 open/take 2 40/make 2 1010 reply/server/take 1 7/make 1 9000 reply/end | \
explained 3/0 client make 7 1000 open/1 server take 7/1 server make 40 9000 reply/2 client take 40/\
2 client make 8 1010 reply/taken by client 0/taken by server 0\n\
byte is missing before the certificate | - | \
opened/cut | \
rasta-certificate 1/client/make 00 1000 open/server/end | \
refused 14 CutRecord 3 -\n\
cut frame of other hosts | - | \
client 7 6200 100 0 1000 0 3033303314000000000000000000/\
of 78 frame:02000000020202000000000108004500004000000000401100000a0909090a09090813881388002c00002400000008000000/\
server 40 6201 500 100 9000 1000 3033303314000000000000000000/client 8 6220 101 500 1010 9000 | \
rasta-certificate 1/client/make 0 1000 open/take 2 40/make 2 1010 reply/server/take 1 7/make 1 9000 reply/\
end | \
explained 3/0 client make 7 1000 open/1 server take 7/1 server make 40 9000 reply/2 client take 40/\
2 client make 8 1010 reply/taken by client 0/taken by server 0\n\
cut frame of the connection | - | \
client 7 6200 100 0 1000 0 3033303314000000000000000000/\
of 78 frame:02000000020202000000000108004500004000000000401100000a0000010a00000213881388002c00002400000008000000/\
server 40 6201 500 100 9000 1000 3033303314000000000000000000/client 8 6220 101 500 1010 9000 | \
rasta-certificate 1/client/server/end | \
refused 15 CutPacket 2 -\n\
another safety code | code_length = 16/check_length = 0 | \
client:380000000900000030006018610000006000000066000000f4010000fc030000282300000200ab011eca305dc02911892dcdc5612e3c198b | \
rasta-certificate 1/client/server/end | \
refused 25 Code 1 client\n\
fresh data in a burst | - | \
opened/client 9 6240 102 500 1020 9000 010001/client 10 6240 103 500 1030 9000 010002/\
server 41 6212 501 101 9060 1010/client 11 6213 104 501 1070 9060/client 12 6241 105 501 1071 9060 010001/\
client 13 6240 106 501 1072 9060 010003 | \
rasta-certificate 1/client/make 0 1000 open/take 2 40/make 2 1010 reply/make 3 1020 fresh/make 4 1030 fresh/\
take 6 41/make 6 1070 reply/make 7 1071 again 0/make 8 1072 fresh/server/end | \
refused 42 ReplyOwed 9 client\n\
answer is left out | - | \
opened/client 9 6240 102 500 1020 9000 010001/client 10 6240 103 500 1030 9000 010002/\
server 41 6212 501 101 9060 1010/client 11 6213 104 501 1070 9060/client 12 6241 105 501 1071 9060 010001/\
client 13 6241 106 501 1072 9060 010002/client 14 6220 107 501 1080 9060/server 42 6220 502 107 9090 1080 | \
rasta-certificate 1/client/make 0 1000 open/take 2 40/make 2 1010 reply/make 3 1020 fresh/\
make 4 1030 fresh/take 6 41/make 6 1070 reply/make 7 1071 again 0/make 8 1072 again 1/make 9 1080 beat/\
server/take 1 7/make 1 9000 reply/take 5 8/take 5 10/make 5 9060 ask/take 10 12/take 10 13/take 10 14/\
make 10 9090 beat/end | \
refused 39 ConfirmedNumber 9 server\n\
safety codes and check codes | code_length = 16/check_length = 4/md4_start = '0f1e2d3c4b5a69788796a5b4c3d2e1f0' | \
client:46000000070000003a00381861000000600000006400000000000000e8030000000000003033303314000000000000000000342071a0287cbe3bb884e595bac4dec74973e408/\
server:46000000280000003a0039186000000061000000f40100006400000028230000e803000030333033140000000000000000004cdc2696523d096b47a7a2da27b0123c099a8e44/\
client:38000000080000002c004c18610000006000000065000000f4010000f203000028230000264850e68145ff47047de5714c6c98b304a92df7/\
client:3e0000000900000032006018610000006000000066000000f4010000f7030000282300000200ab010000aaae23f965ad0869f71c3ef59cf6adc86ef55286/\
client:9e0000000a00000092006018610000006000000067000000f4010000fc030000282300006400000102030405060708090a0b0c0d0e0f101112131415161718191a1b1c1d1e1f202122232425262728292a2b2c2d2e2f303132333435363738393a3b3c3d3e3f404142434445464748494a4b4c4d4e4f505152535455565758595a5b5c5d5e5f60616263de7f7c658cae02761fd838029859bf6242730b93/\
server:38000000290000002c0044186000000061000000f5010000650000003c230000f2030000c9a8da0ed19d4ce180cd95b9cbe2341ac104be9b/\
client:380000000b0000002c004518610000006000000068000000f5010000060400003c23000075cd6a56fc429d13ca1081acb13d44c82421949f/\
client:3e0000000c00000032006118610000006000000069000000f50100000b0400003c2300000200ab010000adcb411a801e6db734b7fd72d13330595aee7ead/\
client:9e0000000d0000009200611861000000600000006a000000f5010000100400003c2300006400000102030405060708090a0b0c0d0e0f101112131415161718191a1b1c1d1e1f202122232425262728292a2b2c2d2e2f303132333435363738393a3b3c3d3e3f404142434445464748494a4b4c4d4e4f505152535455565758595a5b5c5d5e5f606162639dafdfe2817f3865e28a41cd93257434678afadf/\
server:380000002a0000002c004c186000000061000000f60100006a000000502300001004000013acefb4c665c96e697c7db1d2f48b60a549952f/\
client:3d0000000e0000003100601861000000600000006b000000f60100001a0400005023000000000100024c6aa24abd6913a194c262cb2257412647eca134/\
server:3c0000002b000000300048186000000061000000f70100006b0000005a2300001a04000003000000e45a5aef920863fc22c8b34f7a039761d0bcef3f | \
rasta-certificate 1/client/make 0 1000 open/take 2 40/make 2 1010 reply/make 3 1015 fresh/make 4 1020 fresh/\
take 6 41/make 6 1030 reply/make 7 1035 again 0/make 8 1040 again 1/take 10 42/make 10 1050 fresh/server/\
take 1 7/make 1 9000 reply/take 5 8/take 5 10/make 5 9020 ask/take 9 11/take 9 12/take 9 13/\
make 9 9040 beat/take 11 14/make 11 9050 bye/end | \
explained 12/0 client make 7 1000 open/1 server take 7/1 server make 40 9000 reply/2 client take 40/\
2 client make 8 1010 reply/3 client make 9 1015 fresh/4 client make 10 1020 fresh/5 server take 8/\
5 server take 10/5 server make 41 9020 ask/6 client take 41/6 client make 11 1030 reply/\
7 client make 12 1035 again 0/8 client make 13 1040 again 1/9 server take 11/9 server take 12/\
9 server take 13/9 server make 42 9040 beat/10 client take 42/10 client make 14 1050 fresh/\
11 server take 14/11 server make 43 9050 bye/taken by client 0/taken by server 5/0 3 9 ab01/1 3 9 ./\
2 4 9 000102030405060708090a0b0c0d0e0f101112131415161718191a1b1c1d1e1f202122232425262728292a2b2c2d2e2f303132333435363738393a3b3c3d3e3f404142434445464748494a4b4c4d4e4f505152535455565758595a5b5c5d5e5f60616263/\
3 10 11 ./4 10 11 02\n\
";

/// The same, of captures that nothing explains: each certificate is none, and the text is that of an audit.
pub const UNEXPLAINED: &str = "\
second request in one entry | - | \
opened/client 9 6240 102 500 1020 9000 010001/client 10 6240 103 500 1030 9000 010002/\
server 41 6212 501 101 9060 1010/server 42 6212 502 101 9070 1010 | \
- | \
refused 60 NotFound 7 -\n\
no quiet start | - | \
client 9 6240 102 500 1020 9000 0200ab010000/server 41 6220 501 102 9050 1020 | \
- | \
refused 60 NotFound 1 -\n\
data while a reply is owed | - | \
opened/client 9 6240 102 500 1020 9000 010001/client 10 6240 103 500 1030 9000 010002/\
server 41 6212 501 101 9060 1010/client 11 6240 104 501 1070 9060 010003 | \
- | \
refused 60 NotFound 7 -\n\
resend differs | - | \
opened/client 9 6240 102 500 1020 9000 010001/client 10 6240 103 500 1030 9000 010002/\
server 41 6212 501 101 9060 1010/client 11 6213 104 501 1070 9060/client 12 6241 105 501 1071 9060 010001/\
client 13 6241 106 501 1072 9060 010003 | \
- | \
refused 60 NotFound 9 -\n\
make past the deadline | - | \
opened/client 9 6240 102 500 1020 9000 0200ab010000/server 41 6220 501 102 10801 1020 | \
- | \
refused 60 NotFound 5 -\n\
";
