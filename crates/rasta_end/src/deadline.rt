//! Deadlines: milliseconds, moved by 2^32, since they may lie below 0.
ghost use Rattle.std.specs.Prelude.{◌≡◌, ◌<◌, ◌^◌, IfSome};
ghost use Rattle.rasta_end.specs.State;
ghost use Rattle.rasta_end.specs.MakeRule;
ghost use Rattle.rasta_end.specs.TakeRule;

use rasta_pdu::Params;

/// How far a lies ahead of b, modulo 2^32.
pub fn ahead_by(a: u32, b: u32) -> u32
    ensures { result ≡ State.ahead_by a b }
{
    a.wrapping_sub(b)
}

/// Whether the moment lies more than the slack after the deadline.
pub fn is_past(params: &Params, deadline: Option<u128>, moment: u64) -> bool
    requires { IfSome deadline (λ d. d < 2 ^ 66) }
    ensures { result ≡ MakeRule.is_past params.now deadline moment }
{
    match deadline {
        None => false,
        Some(deadline) => { deadline + u128::from(params.slack()) < u128::from(moment) + (1 << 32) }
    }
}

/// Whether the moment lies more than the slack before the deadline.
pub fn is_early(params: &Params, deadline: Option<u128>, moment: u64) -> bool
    ensures { result ≡ MakeRule.is_early params.now deadline moment }
{
    match deadline {
        None => false,
        Some(deadline) => { u128::from(moment) + (1 << 32) + u128::from(params.slack()) < deadline }
    }
}

/// The deadline that a confirmed time sets.
pub fn deadline_from(params: &Params, clock: u64, cts: u32) -> u128
    ensures value { result ≡ TakeRule.deadline_from params.now clock cts }
    ensures bound { result < 2 ^ 66 }
{
    let age = ahead_by((clock % (1 << 32)) as u32, cts);
    u128::from(clock) + (1 << 32) - u128::from(age) + u128::from(params.t_max())
}
