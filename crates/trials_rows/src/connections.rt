//! Packets of connections, by the name of a connection.

// The lines of a connection, after those of its opening where it is opened so.
macro_rules! lines {
    (opened; $($line:literal,)+) => {
        lines!(
            "client 7 6200 100 0 1000 0 open",
            "server 40 6201 500 100 9000 1000 open",
            "client 8 6220 101 500 1010 9000 -",
            $($line,)+
        )
    };
    ($($line:literal,)+) => {
        concat!($($line, "\n"),+)
    };
}

const DATA: &str = lines!(opened;
    "client 9 6240 102 500 1020 9000 dataab01,.",
    "server 41 6220 501 102 9050 1020 -",
    "client 10 6216 103 501 2814 9050 bye4",
    "client 10 6216 103 501 2815 9050 bye4",
    "server 41 6220 501 102 10800 1020 -",
    "server 41 6220 501 102 10801 1020 -",
);

const LOST: &str = lines!(opened;
    "client 9 6240 102 500 1020 9000 data01",
    "client 10 6240 103 500 1030 9000 data02",
    "server 41 6212 501 101 9060 1010 -",
    "client 11 6213 104 501 1070 9060 -",
    "client 12 6241 105 501 1071 9060 data01",
    "client 13 6241 106 501 1072 9060 data02",
    "client 14 6220 107 501 1080 9060 -",
    "server 42 6220 502 107 9090 1080 -",
    "server 42 6212 502 101 9070 1010 -",
    "client 11 6240 104 501 1070 9060 data03",
    "client 13 6240 106 501 1072 9060 data03",
    "client 13 6241 106 501 1072 9060 data03",
    "server 42 6220 502 105 9080 1071 -",
    "server 42 6212 502 104 9080 1070 -",
    "client 14 6213 107 502 1090 9080 -",
    "client 15 6241 108 502 1091 9080 data01",
    "client 16 6241 109 502 1092 9080 data02",
    "server 43 6220 503 109 9100 1092 -",
);

const CROSSED: &str = lines!(opened;
    "client 9 6240 102 500 1020 9000 data01",
    "server 41 6240 501 101 9020 1010 data11",
    "client 10 6240 103 500 1030 9000 data02",
    "server 42 6240 502 101 9030 1010 data12",
    "client 11 6212 104 500 1040 9000 -",
    "server 43 6212 503 101 9040 1010 -",
    "client 12 6213 105 500 1050 9000 -",
    "client 13 6241 106 500 1051 9000 data01",
    "client 14 6241 107 500 1052 9000 data02",
    "server 44 6213 504 101 9050 1010 -",
    "server 45 6241 505 101 9051 1010 data11",
    "server 46 6241 506 101 9052 1010 data12",
    "client 15 6220 108 506 1060 9052 -",
    "server 47 6220 507 108 9060 1060 -",
);

const WRAPPED: &str = lines!(
    "client 4294967295 6200 4294967295 0 4294967280 0 open",
    "server 40 6201 500 4294967295 9000 4294967280 open",
    "client 0 6220 0 500 4 9000 -",
    "client 1 6240 1 500 14 9000 data01",
    "server 41 6220 501 1 9050 14 -",
    "client 2 6220 2 501 1814 9050 -",
    "client 2 6220 2 501 1815 9050 -",
    "client 2 6216 2 501 1813 9050 bye4",
    "client 2 6216 2 501 1814 9050 bye4",
);

const OPENED: &str = lines!(opened;
    "server 40 6201 500 101 9000 1000 open",
    "client 8 6220 102 500 1010 9000 -",
    "client 8 6220 101 500 999 9000 -",
    "client 8 6220 101 499 1010 9000 -",
    "client 8 6220 101 500 1010 8999 -",
    "client 7 6240 100 0 1000 0 data01",
    "client 8 6216 101 500 1010 9000 bye1",
    "client 9 6220 102 500 1020 9000 -",
    "client 8 6220 101 500 1009 9000 -",
);

const TIMED: &str = lines!(opened;
    "client 8 6220 101 500 1010 9001 -",
    "server 41 6220 501 101 10800 1010 -",
    "server 41 6220 501 101 10801 1010 -",
    "server 41 6220 501 101 10805 1010 -",
    "server 41 6220 501 101 10806 1010 -",
    "server 41 6216 501 101 10799 1010 bye4",
    "server 41 6216 501 101 10800 1010 bye4",
    "server 41 6216 501 101 10794 1010 bye4",
    "server 41 6216 501 101 10795 1010 bye4",
    "server 41 6220 501 101 9000 1010 -",
    "server 41 6216 501 101 9000 1010 bye4",
    "client 9 6220 112 500 1020 9000 -",
    "client 9 6220 113 500 1020 9000 -",
    "client 9 6220 102 500 1020 9000 -",
);

const QUIET: &str = lines!(
    "client 9 6240 102 500 1020 9000 dataab01,.",
    "server 41 6220 501 102 9050 1020 -",
    "server 41 6216 501 101 9050 1010 bye0",
    "client 9 6200 102 0 1020 0 open",
    "client 9 6240 102 500 1020 9000 dataab01",
);

// An opening client gives up; a server ends while it owes a reply; a second opening.
const BYES: &str = lines!(
    "client 7 6200 100 0 1000 0 open",
    "server 40 6201 500 100 9000 1000 open",
    "client 8 6216 101 500 1010 7 bye0",
    "client 8 6216 101 500 1 7 bye4",
    "server 40 6216 500 100 9000 1000 bye0",
    "client 8 6220 101 500 1010 9000 -",
    "client 9 6200 102 0 1020 0 open",
    "server 41 6213 501 101 9050 1010 -",
);

// A burst that a disconnection request cuts.
const BURST: &str = lines!(opened;
    "client 9 6240 102 500 1020 9000 data01",
    "client 10 6240 103 500 1030 9000 data02",
    "server 41 6212 501 101 9060 1010 -",
    "client 11 6213 104 501 1070 9060 -",
    "client 12 6241 105 501 1071 9060 data01",
    "client 13 6216 106 501 1072 9060 bye0",
);

// From a quiet point whose deadline lies far after its clock.
const FAR: &str = lines!(
    "client 9 6240 102 500 5 9000 data01",
    "client 10 6216 103 500 7 9000 bye4",
);

// Heartbeats of the server are lost before its request: ten, eleven, or three.
const HEARTBEATS: &str = lines!(opened;
    "server 41 6220 501 101 9010 1010 -",
    "server 42 6220 502 101 9020 1010 -",
    "server 43 6220 503 101 9030 1010 -",
    "server 44 6220 504 101 9040 1010 -",
    "server 45 6220 505 101 9050 1010 -",
    "server 46 6220 506 101 9060 1010 -",
    "server 47 6220 507 101 9070 1010 -",
    "server 48 6220 508 101 9080 1010 -",
    "server 49 6220 509 101 9090 1010 -",
    "server 50 6220 510 101 9100 1010 -",
    "server 51 6220 511 101 9110 1010 -",
    "client 9 6240 102 500 1020 9000 data01",
    "client 10 6240 103 500 1030 9000 data02",
    "server 51 6212 511 101 9120 1010 -",
    "server 52 6212 512 101 9120 1010 -",
    "server 44 6212 504 101 9120 1010 -",
    "client 11 6213 104 500 1040 9000 -",
    "client 12 6241 105 500 1050 9000 data01",
    "client 13 6241 106 500 1060 9000 data02",
    "client 14 6212 107 500 1070 9000 -",
    "client 14 6220 107 500 1070 9000 -",
);

// Both ends ask, and the client makes a heartbeat after its request.
const BEATEN: &str = lines!(opened;
    "client 9 6240 102 500 1020 9000 data01",
    "server 41 6240 501 101 9020 1010 data11",
    "client 10 6240 103 500 1030 9000 data02",
    "server 42 6240 502 101 9030 1010 data12",
    "client 11 6212 104 500 1040 9000 -",
    "client 12 6220 105 500 1045 9000 -",
    "server 43 6212 503 101 9040 1010 -",
    "client 13 6213 106 500 1050 9000 -",
    "client 14 6241 107 500 1051 9000 data01",
    "client 15 6241 108 500 1052 9000 data02",
    "server 44 6213 504 101 9050 1010 -",
    "server 45 6241 505 101 9051 1010 data11",
    "server 46 6241 506 101 9052 1010 data12",
    "client 16 6220 109 506 1060 9052 -",
    "server 47 6220 507 109 9060 1060 -",
);

// The client's request comes directly after what the server accepted, which waits and answers it.
const DIRECTLY: &str = lines!(opened;
    "server 41 6240 501 101 9020 1010 data11",
    "server 42 6240 502 101 9030 1010 data12",
    "client 9 6212 102 500 1020 9000 -",
    "client 10 6220 103 500 1030 9000 -",
    "server 43 6212 503 101 9040 1010 -",
    "server 44 6213 504 101 9050 1010 -",
);

// One of two equal data is sent again, and it isn't told which.
const EQUAL: &str = lines!(opened;
    "server 41 6240 501 101 9010 1010 data01",
    "server 42 6220 502 101 9020 1010 -",
    "server 43 6240 503 101 9030 1010 data01",
    "client 9 6212 102 500 1020 9000 -",
    "server 44 6213 504 102 9040 1020 -",
    "server 45 6241 505 102 9041 1020 data01",
    "client 10 6220 103 505 1030 9041 -",
    "server 46 6220 506 103 9050 1030 -",
);

// Each with four check bytes.
const CHECKED: &str = lines!(
    "client 7 6200 100 0 1000 0 open aabbccdd",
    "server 40 6201 500 100 9000 1000 open aabbccdd",
    "client 8 6220 101 500 1010 9000 - aabbccdd",
);

/// The lines of a connection; none where no connection has the name.
pub fn lines_of(word: &str) -> Option<&'static str> {
    match word {
        "data" => Some(DATA),
        "lost" => Some(LOST),
        "crossed" => Some(CROSSED),
        "wrapped" => Some(WRAPPED),
        "opened" => Some(OPENED),
        "timed" => Some(TIMED),
        "quiet" => Some(QUIET),
        "byes" => Some(BYES),
        "burst" => Some(BURST),
        "far" => Some(FAR),
        "heartbeats" => Some(HEARTBEATS),
        "beaten" => Some(BEATEN),
        "directly" => Some(DIRECTLY),
        "equal" => Some(EQUAL),
        "checked" => Some(CHECKED),
        _ => None,
    }
}
