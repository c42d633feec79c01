//! Certificates as texts.
use rasta_cert::{Certificate, Entry, read, write};
use rasta_end::Why;
use rasta_pcap::devices::FailAt;
use rasta_pcap::{Counted, Fault, Sink};
use std::alloc::Global;
use std::process::Abort;

// A certificate whose client opens, takes the response, replies and sends data first.
macro_rules! begun {
    ($rest:literal) => {
        concat!(
            "rasta-certificate 1\nclient\nmake 0 1000 open\ntake 2 40\nmake 2 1010 reply\nmake 3 1020 fresh\n",
            $rest
        )
    };
}

const TEXT: &str = begun!(
    "\
make 4 18446744073709551615 again 4294967295
make 4294967295 0 ask
make 9 1 bye
server
take 1 7
make 1 9000 reply
take 4294967295 4294967295
make 4 9050 beat
make 5 9051 expired
end
"
);

const CLIENT: &[Entry] = &[
    Entry::Make {
        index: 0,
        clock: 1000,
        why: Why::Open,
    },
    Entry::Take {
        slot: 2,
        number: 40,
    },
    Entry::Make {
        index: 2,
        clock: 1010,
        why: Why::Reply,
    },
    Entry::Make {
        index: 3,
        clock: 1020,
        why: Why::Fresh,
    },
    Entry::Make {
        index: 4,
        clock: u64::MAX,
        why: Why::Again(u32::MAX),
    },
    Entry::Make {
        index: u32::MAX,
        clock: 0,
        why: Why::Ask,
    },
    Entry::Make {
        index: 9,
        clock: 1,
        why: Why::Bye,
    },
];

const SERVER: &[Entry] = &[
    Entry::Take { slot: 1, number: 7 },
    Entry::Make {
        index: 1,
        clock: 9000,
        why: Why::Reply,
    },
    Entry::Take {
        slot: u32::MAX,
        number: u32::MAX,
    },
    Entry::Make {
        index: 4,
        clock: 9050,
        why: Why::Beat,
    },
    Entry::Make {
        index: 5,
        clock: 9051,
        why: Why::Expired,
    },
];

fn certificate(alloc: Global) -> Option<Certificate> {
    let client = Vec::from_slice(alloc, CLIENT).ok()?;
    let server = Vec::from_slice(alloc, SERVER).ok()?;
    Certificate::new(client, server).ok()
}

// Whether the scripts are those of the text.
fn are_scripts(certificate: &Certificate) -> bool {
    certificate.client() == CLIENT && certificate.server() == SERVER
}

// Whether the certificate is written as the text.
fn is_written(alloc: Global) -> Option<bool> {
    let certificate = certificate(alloc)?;
    let mut writer = Counted::new(Vec::new(alloc));
    write(&certificate, &mut writer).ok()?;
    Some(are_scripts(&certificate) && writer.into_inner().as_slice() == TEXT.as_bytes())
}

#[test]
fn certificate_is_written(rt: HostRuntime) {
    assert_eq!(rt; is_written(rt.alloc()), Some(true));
}

// Whether what a writer that goes wrong holds is a beginning of the text.
fn is_begun(certificate: &Certificate, device: FailAt<Vec<u8>>) -> bool {
    let mut writer = Counted::new(device);
    let outcome = write(certificate, &mut writer);
    let failures = Sink::failures(&writer);
    let text = writer.into_inner().into_inner();
    let is_whole = text.len() == TEXT.len();
    TEXT.as_bytes().starts_with(&text) && is_whole == (failures == 0) && is_whole == outcome.is_ok()
}

// The same where the call of this number fails or takes no byte.
fn are_begun(alloc: Global, call: u64) -> Option<bool> {
    let certificate = certificate(alloc)?;
    let failing = FailAt::new(Vec::new(alloc), call);
    let idle = FailAt::idle_at(Vec::new(alloc), call);
    Some(is_begun(&certificate, failing) && is_begun(&certificate, idle))
}

#[test]
fn each_write_goes_wrong_in_turn(rt: HostRuntime) {
    for call in 1..20 {
        assert_eq!(rt; are_begun(rt.alloc(), call), Some(true), "{call}");
    }
}

// The refusal of so many entries, or none.
fn refusal(alloc: Global, client: usize, server: usize) -> Option<Option<Fault>> {
    let entry = Entry::Take { slot: 1, number: 7 };
    let client = vec![in alloc; entry; client].ok()?;
    let server = vec![in alloc; entry; server].ok()?;
    Some(Certificate::new(client, server).err())
}

#[test]
fn entries_are_at_most_four_million(rt: HostRuntime) {
    let too_many = Some(Fault::at(45, 0));
    for (client, server, want) in [
        (4_000_000, 0, None),
        (2_000_000, 2_000_000, None),
        (4_000_001, 0, too_many),
        (1, 4_000_000, too_many),
    ] {
        assert_eq!(rt; refusal(rt.alloc(), client, server), Some(want));
    }
}

// What is answered to the text; it is read again where memory ran out.
fn read_text(alloc: Global) -> Result<Certificate, Fault> {
    read(alloc, TEXT.as_bytes()).or_else(|fault| {
        if fault == Fault::at(1, 0) {
            read(alloc, TEXT.as_bytes())
        } else {
            Err(fault)
        }
    })
}

// `scripts/fail_allocations.py` makes memory want.
#[test]
fn certificate_is_read_again(rt: HostRuntime) {
    let read = read_text(rt.alloc());
    assert_eq!(rt; read.map(|certificate| are_scripts(&certificate)), Ok(true));
}

// How many entries the client's script and the server's have.
fn lengths(alloc: Global, text: &str) -> Option<(usize, usize)> {
    let certificate = read(alloc, text.as_bytes()).ok()?;
    Some((certificate.client().len(), certificate.server().len()))
}

#[test]
fn certificate_without_entries_is_read(rt: HostRuntime) {
    let text = "rasta-certificate 1\nclient\nserver\nend\n";
    assert_eq!(rt; lengths(rt.alloc(), text), Some((0, 0)));
    assert_eq!(rt; lengths(rt.alloc(), TEXT), Some((7, 5)));
}

// An exchange of five packets; its text has thirteen lines.
const HEARTBEAT: &str = begun!(
    "\
server
take 1 7
make 1 9000 reply
take 4 8
take 4 9
make 4 9050 beat
end
"
);

// The line at fault, and one line that stands in place of that line of the text; `+` puts it after the
// last line. A backslash is followed by the letter of what no row can hold: `t` a tab, `r` a carriage
// return, `0` a zero byte, `x` a byte that begins no character, `n` the end of a line, and `z` a
// thousand zeros.
const ROWS: &str = "\
3 3 make 00 1000 open
3 3 make 0 01000 open
3 3 make 0 18446744073709551616 open
3 3 make 4294967296 1000 open
3 3 make 1\\z 1000 open
3 3 make 0 1\\z open
3 3 make \\z0 1000 open
3 3 make 0 1000
3 3 make 0 1000 Open
3 3 make 0 1000 opens
3 3 make 0 1000 open again
3 3 make 0 1000 again
3 3 make 0 1000 again\\t1
3 3 make 0 1000 again 4294967296
3 3 make 0 1000 again 01
3 3 make 0 1000 again  1
3 3 make 0 1000 again 1 1
3 3 make +0 1000 open
3 3 make -0 1000 open
3 3 make 0x0 1000 open
3 3 make\\t0 1000 open
3 3 make  0 1000 open
3 3  make 0 1000 open
3 3 make 0 1000 open\\r
3 3 make 0 1000 open\\0
3 3 make 0 1000 open\\x
3 3 Make 0 1000 open
3 3 maker 0 1000 open
3 3 make 0 1000 open # first
3 3 \\n
3 3 client
3 3 end
4 4 take 2
4 4 take 2 40 1
4 4 take 2 4294967296
4 4 take 4294967296 40
4 4 take 02 40
4 4 take 2 040
4 4 take 2 40\\r
4 4 TAKE 2 40
1 1 rasta-certificate 2
1 1 rasta-certificate 01
1 1 RASTA-certificate 1
1 1 rasta-certificate 1\\r
1 1 \\xrasta-certificate 1
2 2 Client
2 2 client\\t
2 2 server
7 7 server\\r
7 7 end
12 12 server
13 13 END
13 13 end\\r
13 13 end 1
14 + end
14 + \\0
14 + \\n
";

fn push_zeros(text: &mut Vec<u8>) -> Option<()> {
    for _ in 0..1000 {
        text.push(b'0').ok()?;
    }
    Some(())
}

fn push_named(text: &mut Vec<u8>, name: u8) -> Option<()> {
    let byte = match name {
        b't' => b'\t',
        b'r' => b'\r',
        b'0' => 0,
        b'x' => 0xff,
        b'n' => b'\n',
        b'z' => return push_zeros(text),
        _ => return None,
    };
    text.push(byte).ok()
}

// The line of a row, and its end.
fn push_line(text: &mut Vec<u8>, line: &str) -> Option<()> {
    let mut pieces = line.split('\\');
    text.extend_from_slice(pieces.next()?.as_bytes()).ok()?;
    for piece in pieces {
        let (name, rest) = piece.as_bytes().split_first()?;
        push_named(text, *name)?;
        text.extend_from_slice(rest).ok()?;
    }
    text.push(b'\n').ok()
}

// The text with this line in place of the one of this number.
fn text_with(alloc: Global, place: &str, line: &str) -> Option<Vec<u8>> {
    let mut text = Vec::new(alloc);
    let place = place.parse::<usize>().unwrap_or(usize::MAX);
    for (i, other) in HEARTBEAT.lines().enumerate() {
        push_line(
            &mut text,
            if i.wrapping_add(1) == place {
                line
            } else {
                other
            },
        )?;
    }
    if place == usize::MAX {
        push_line(&mut text, line)?;
    }
    Some(text)
}

// Whether the text of a row is refused at its line.
fn is_refused(alloc: Global, row: &str) -> Option<bool> {
    let (fault, row) = row.split_once(' ')?;
    let (place, line) = row.split_once(' ')?;
    let fault = fault.parse().ok()?;
    let text = text_with(alloc, place, line)?;
    Some(read(alloc, &text).err() == Some(Fault::at(30, fault)))
}

#[test]
fn wrong_lines_are_named(rt: HostRuntime) {
    for row in ROWS.lines() {
        assert_eq!(rt; is_refused(rt.alloc(), row), Some(true), "{row}");
    }
}

// A text that stops anywhere is refused at its last line, or after it where that one has its end.
#[test]
fn text_that_stops_is_refused_there(rt: HostRuntime) {
    let text = HEARTBEAT.as_bytes();
    for len in 0..text.len() {
        let front = &text[..len];
        let ends = front.iter().filter(|byte| **byte == b'\n').count();
        let fault = read(rt.alloc(), front).err();
        assert_eq!(rt; fault, Some(Fault::at(30, ends as u32 + 1)), "{len} bytes");
    }
    assert_eq!(rt; read(rt.alloc(), text).err(), None);
}

// The text of a certificate whose client takes so often, with this line after its entries.
fn text_of_takes(alloc: Global, takes: usize, line: &str) -> Option<Vec<u8>> {
    let mut text = Vec::from_slice(alloc, b"rasta-certificate 1\nclient\n".as_slice()).ok()?;
    for _ in 0..takes {
        text.extend_from_slice(b"take 0 0\n").ok()?;
    }
    text.extend_from_slice(line.as_bytes()).ok()?;
    text.extend_from_slice(b"server\nend\n").ok()?;
    Some(text)
}

// What is answered to that text.
fn answer_to_takes(alloc: Global, takes: usize, line: &str) -> Option<Option<Fault>> {
    let text = text_of_takes(alloc, takes, line)?;
    Some(read(alloc, &text).err())
}

// Built by LLVM, as the gate and `rt test` do, this takes a second; `rt try --test` gives it up.
#[test]
fn entry_too_many_is_named(rt: HostRuntime) {
    for (line, want) in [
        ("", None),
        ("take 0 0\n", Some(Fault::at(45, 4_000_003))),
        ("take 0 00\n", Some(Fault::at(30, 4_000_003))),
    ] {
        assert_eq!(rt; answer_to_takes(rt.alloc(), 4_000_000, line), Some(want));
    }
}
