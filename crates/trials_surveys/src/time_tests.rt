//! Times, by the Gregorian calendar: the first seconds, the ends of an hour and of a day, those of February in leap years and
//! others, the ends of some years, and the last seconds; with fractions of few and of many digits, also of more than the
//! unit has.
use rasta_pcap::{CaptureTime, Counted, FractionUnit};
use seatmelon_survey::write_time;
use std::alloc::Global;

// Seconds since 1970, a fraction, its unit, and the text.
const ROWS: &str = "\
0 0 us 1970-01-01 00:00:00.000000
1 1 us 1970-01-01 00:00:01.000001
9 99999 us 1970-01-01 00:00:09.099999
10 100000 us 1970-01-01 00:00:10.100000
59 999999 us 1970-01-01 00:00:59.999999
60 1000000 us 1970-01-01 00:01:00.1000000
3599 99999999 us 1970-01-01 00:59:59.99999999
3600 999999999 us 1970-01-01 01:00:00.999999999
86399 4294967295 us 1970-01-01 23:59:59.4294967295
86400 0 ns 1970-01-02 00:00:00.000000000
31535999 1 ns 1970-12-31 23:59:59.000000001
31536000 99999 ns 1971-01-01 00:00:00.000099999
68169599 100000 ns 1972-02-28 23:59:59.000100000
68169600 999999 ns 1972-02-29 00:00:00.000999999
68255999 1000000 ns 1972-02-29 23:59:59.001000000
68256000 99999999 ns 1972-03-01 00:00:00.099999999
99791999 999999999 ns 1973-02-28 23:59:59.999999999
99792000 4294967295 ns 1973-03-01 00:00:00.4294967295
946684799 0 us 1999-12-31 23:59:59.000000
946684800 1 us 2000-01-01 00:00:00.000001
951782399 99999 us 2000-02-28 23:59:59.099999
951782400 100000 us 2000-02-29 00:00:00.100000
951868799 999999 us 2000-02-29 23:59:59.999999
951868800 1000000 us 2000-03-01 00:00:00.1000000
4102444799 99999999 us 2099-12-31 23:59:59.99999999
4102444800 999999999 us 2100-01-01 00:00:00.999999999
4107542399 4294967295 us 2100-02-28 23:59:59.4294967295
4107542400 0 ns 2100-03-01 00:00:00.000000000
2147483647 1 ns 2038-01-19 03:14:07.000000001
2147483648 99999 ns 2038-01-19 03:14:08.000099999
4294967294 100000 ns 2106-02-07 06:28:14.000100000
4294967295 999999 ns 2106-02-07 06:28:15.000999999
";

fn unit_of(word: &str) -> Option<FractionUnit> {
    match word {
        "us" => Some(FractionUnit::Microseconds),
        "ns" => Some(FractionUnit::Nanoseconds),
        _ => None,
    }
}

// Whether the time of a row is written so.
fn is_written_so(alloc: Global, row: &str) -> Option<bool> {
    let (seconds, rest) = row.split_once(' ')?;
    let (fraction, rest) = rest.split_once(' ')?;
    let (unit, text) = rest.split_once(' ')?;
    let time = CaptureTime {
        seconds: seconds.parse().ok()?,
        fraction: fraction.parse().ok()?,
        unit: unit_of(unit)?,
    };
    let mut writer = Counted::new(Vec::new(alloc));
    write_time(&mut writer, time).ok()?;
    Some(writer.into_inner().as_slice() == text.as_bytes())
}

#[test]
fn times(rt: HostRuntime) {
    for row in ROWS.lines() {
        assert_eq!(rt; is_written_so(rt.alloc(), row), Some(true), "{row}");
    }
}
