//! Certificates that are refused, and the texts on them: by their form, and by what their entries name.

const SCRIPTS: &str = r#"
== data plain: 0 1 2 |  |  | plain | rasta-certificate 1; client; make 0 1000 opens;  | A word that is none.
refused by 30 Syntax:
  this line isn't one that a certificate has there

line 3 of the certificate

may be the cause:
  the certificate is wrong: another one may explain the same packets
look next at:
  this line of the certificate
== data plain: 0 1 2 |  |  | narrow | rasta-certificate 2;  | A certificate of another version.
refused by 30 Syntax:
  this line isn't one that a certificate has there

line 1 of the certificate

may be the cause:
  the certificate is wrong: another one may explain the same packets
look next at:
  this line of the certificate
== data plain: 0 1 2 |  |  | plain | rasta-certificate 1; client; make 0 1000 open; take 4 40; make 2 1010 reply; server; take 1 7; make 1 9000 reply; end;  | A slot after the last packet.
refused by 31 SlotOrder:
  the entry's slot or place is out of order, or after the last packet

entry 2 of the client's script, line 4 of the certificate
the server's PDU in record 2, 1970-01-01 00:00:00.000000 UTC, channel 1
  type: 6201, connection response
  redundancy number: 40
  SN: 500
  CS: 100
  TS: 9000
  CTS: 1000

may be the cause:
  the certificate is wrong: another one may explain the same packets
look next at:
  the entry and those before it; and what seatmelon explain says without a certificate
== data plain: 0 1 2 |  |  | plain | rasta-certificate 1; client; make 0 1000 open; make 1 9000 reply; server; end;  | A make of the other end.
refused by 32 NotFirstCopy:
  the packet at that place isn't a first copy of this end

entry 2 of the client's script, line 4 of the certificate
the packet that it names is in record 2, 1970-01-01 00:00:00.000000 UTC, channel 1

may be the cause:
  the certificate is wrong: another one may explain the same packets
look next at:
  the entry and those before it; and what seatmelon explain says without a certificate
== data plain: 0 1 2 3 4 |  |  | plain | rasta-certificate 1; client; make 0 1000 open; take 2 40; make 2 1010 reply; server; take 1 7; make 1 9000 reply; take 4 8; take 4 9; make 4 9050 beat; end;  | The last packet of an end is left unmade.
refused by 33 MakeMissing:
  a first copy of this end has no make before this entry

entry 4 of the client's script, line 6 of the certificate
no entry before it makes the client's PDU in record 4, 1970-01-01 00:00:00.000000 UTC, channel 1
  type: 6240, data
  redundancy number: 9
  SN: 102
  CS: 500
  TS: 1020
  CTS: 9000
  message: hex ab01, text \xab\x01
  message: empty

may be the cause:
  the certificate is wrong: another one may explain the same packets
look next at:
  the entry and those before it; and what seatmelon explain says without a certificate
== data plain: 0 1 2 3 4 |  |  | plain | rasta-certificate 1; client; make 0 1000 open; take 2 40; make 3 1020 fresh; server; end;  | An entry comes after the place of a packet that is left unmade.
refused by 33 MakeMissing:
  a first copy of this end has no make before this entry

entry 3 of the client's script, line 5 of the certificate
no entry before it makes the client's PDU in record 3, 1970-01-01 00:00:00.000000 UTC, channel 1
  type: 6220, heartbeat
  redundancy number: 8
  SN: 101
  CS: 500
  TS: 1010
  CTS: 9000

may be the cause:
  the certificate is wrong: another one may explain the same packets
look next at:
  the entry and those before it; and what seatmelon explain says without a certificate
== data plain: 0 1 2 |  |  | plain | rasta-certificate 1; client; make 0 1000 open; take 1 40; make 2 1010 reply; server; take 1 7; make 1 9000 reply; end;  | It takes a packet of its own.
refused by 34 NotYetCrossed:
  the PDU that is taken has not crossed by the slot

entry 2 of the client's script, line 4 of the certificate
the server's PDU in record 2, 1970-01-01 00:00:00.000000 UTC, channel 1
  type: 6201, connection response
  redundancy number: 40
  SN: 500
  CS: 100
  TS: 9000
  CTS: 1000

may be the cause:
  the certificate is wrong: another one may explain the same packets
look next at:
  the entry and those before it; and what seatmelon explain says without a certificate
== data plain: 0 1 2 |  |  | plain | rasta-certificate 1; client; make 0 1000 open; take 2 41; make 2 1010 reply; server; take 1 7; make 1 9000 reply; end;  | It takes a packet that never crosses.
refused by 34 NotYetCrossed:
  the PDU that is taken has not crossed by the slot

entry 2 of the client's script, line 4 of the certificate
no packet has the number that it takes

may be the cause:
  the certificate is wrong: another one may explain the same packets
look next at:
  the entry and those before it; and what seatmelon explain says without a certificate
== data plain: 0 1 2 3 4 |  |  | plain | rasta-certificate 1; client; make 0 1000 open; take 2 40; make 2 1010 reply; make 3 1020 fresh; server; take 1 7; make 1 9000 reply; take 4 8; take 4 9; take 4 9; make 4 9050 beat; end;  | A PDU is taken twice.
refused by 35 NotRising:
  the PDU that is taken doesn't come after the one taken last

entry 5 of the server's script, line 12 of the certificate
the client's PDU in record 4, 1970-01-01 00:00:00.000000 UTC, channel 1
  type: 6240, data
  redundancy number: 9
  SN: 102
  CS: 500
  TS: 1020
  CTS: 9000
  message: hex ab01, text \xab\x01
  message: empty

may be the cause:
  the certificate is wrong: another one may explain the same packets
look next at:
  the entry and those before it; and what seatmelon explain says without a certificate
"#;

/// The cases of refused certificates.
pub fn scripts() -> &'static str {
    SCRIPTS
}
