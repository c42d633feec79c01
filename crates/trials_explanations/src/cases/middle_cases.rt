//! Captures without a run, and what is told of their packets alone.

const MIDDLE: &str = r#"
== lost plain: 0 1 2 3 4 5 7 8 9 10 |  |  | plain |  | A response is missing.
client to server: 2 of 2 captured messages surely taken, whatever came before and whatever the tap missed
server to client: 0 of 0 captured messages surely taken, whatever came before and whatever the tap missed

What these counts say:
  In every run of two ends that keep the rules in which these packets cross the tap, whatever else
  crosses before, between and behind them, the far end handed up each message that is listed as
  surely taken, once and in order, before the packet that is its proof crossed.
What they don't say:
  that there is such a run.
  A message that is listed as not shown may have been taken all the same.
What they rest on:
  These packets crossed the tap, and all are of one connection.
  Nobody else sent a packet between the recorded addresses.
  The parameters are right.
  Both ends kept the rules, and neither made more than 2147483647 PDUs in this connection.
What they don't rest on:
  where in the connection the capture begins, and that the tap missed nothing.
--
Captured messages, whatever came before and was missed (times are UTC; those without a date are of 1970-01-01):
client to server 0: record 4, 1970-01-01 00:00:00.000000 UTC, channel 1
  proof: record 10, 1970-01-01 00:00:00.000000 UTC, channel 1
  hex: 01
  text: \x01
client to server 1: record 5, 1970-01-01 00:00:00.000000 UTC, channel 1
  proof: record 10, 1970-01-01 00:00:00.000000 UTC, channel 1
  hex: 02
  text: \x02
== lost code16: 7 8 9 10 |  |  | code16 |  | The capture begins in a burst.
client to server: 0 of 0 captured messages surely taken, whatever came before and whatever the tap missed
server to client: 0 of 0 captured messages surely taken, whatever came before and whatever the tap missed
client to server, sent again and first sent before these: 2 of 2 messages surely taken

What these counts say:
  In every run of two ends that keep the rules in which these packets cross the tap, whatever else
  crosses before, between and behind them, the far end handed up each message that is listed as
  surely taken, once and in order, before the packet that is its proof crossed.
What they don't say:
  that there is such a run.
  A message that is listed as not shown may have been taken all the same.
What they rest on:
  These packets crossed the tap, and all are of one connection.
  Nobody else sent a packet with a valid safety code between the recorded addresses.
  The parameters are right.
  Both ends kept the rules, and neither made more than 2147483647 PDUs in this connection.
What they don't rest on:
  where in the connection the capture begins, and that the tap missed nothing.
--
Captured messages, whatever came before and was missed (times are UTC; those without a date are of 1970-01-01):
none

Messages sent again, and first sent before these (times are UTC; those without a date are of 1970-01-01):
client to server 0: record 1, 1970-01-01 00:00:00.000000 UTC, channel 1
  proof: record 4, 1970-01-01 00:00:00.000000 UTC, channel 1
  hex: 01
  text: \x01
client to server 1: record 2, 1970-01-01 00:00:00.000000 UTC, channel 1
  proof: record 4, 1970-01-01 00:00:00.000000 UTC, channel 1
  hex: 02
  text: \x02
"#;

/// Cases with the whole text, and behind `--` the messages.
pub fn shown() -> &'static str {
    MIDDLE
}

const COUNTS: &str = r#"
== quiet plain: 0 1 3 |  |  | plain |  | An opening where another connection's data stood.
client to server: 2 of 2 captured messages surely taken, whatever came before and whatever the tap missed
server to client: 0 of 0 captured messages surely taken, whatever came before and whatever the tap missed
of the packets before an opening that doesn't fit to them: record 3, 1970-01-01 00:00:00.000000 UTC, channel 1
== quiet plain: 0 1 4 |  |  | plain |  | The same SN, with one message in the place of two.
client to server: 2 of 2 captured messages surely taken, whatever came before and whatever the tap missed
server to client: 0 of 0 captured messages surely taken, whatever came before and whatever the tap missed
of the packets before one that doesn't fit to them: record 3, 1970-01-01 00:00:00.000000 UTC, channel 1
== lost plain: 3 4 5 6 7 |  |  | plain |  | The capture ends in a burst, and nothing shows the data that are sent again.
client to server: 0 of 2 captured messages surely taken, whatever came before and whatever the tap missed
server to client: 0 of 0 captured messages surely taken, whatever came before and whatever the tap missed
== data plain: 3 4 | 82=51 |  | plain |  | The first packet is refused, and the opening isn't there.
client to server: 0 of 0 captured messages surely taken, whatever came before and whatever the tap missed
server to client: 0 of 0 captured messages surely taken, whatever came before and whatever the tap missed
"#;

/// Cases with the lines of counts alone.
pub fn counted() -> &'static str {
    COUNTS
}
