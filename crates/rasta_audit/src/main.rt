//! Audits one RaSTA connection from a capture. `show CAPTURE PARAMS` writes a line for each PDU of
//! the recorded channels, `build CAPTURE PARAMS` a certificate that explains them, `check CAPTURE PARAMS
//! CERT` what a certificate explains of them, and `audit CAPTURE PARAMS` builds and checks.
#![tactic(auto)]

pub use rasta_commands::{Failure, Form, form, run_form, status};
use rasta_commands::{capture_at, file_at, finish, output, words};
pub use rasta_params::params;
pub use rasta_pdu::{Fault, Side, Sink, Source};
pub use rasta_show::run_show;
pub use rasta_verdict::{run_audit, run_build, run_check};
use std::process::ExitCode;
use std::rt::{Env, Files};

fn write_form<R: AllocGlobal + Files + Print>(rt: &R, form: &Form<'_>) -> Result<u8, Fault> {
    let mut parameters = file_at(rt, form.params());
    let mut certificate = file_at(rt, form.certificate());
    let mut capture = capture_at(rt, form.capture())?;
    let mut writer = output(rt)?;
    let status = run_form(
        rt.alloc(),
        form,
        &mut parameters,
        &mut certificate,
        &mut capture,
        &mut writer,
    )?;
    finish(writer, status)
}

fn answer<R: AllocGlobal + Env + Files + Print>(rt: &R) -> Result<u8, Failure> {
    let words = words(rt)?;
    let form = form(rt.alloc(), &words)?;
    write_form(rt, &form).map_err(Failure::Refused)
}

fn main(rt: HostRuntime) -> ExitCode {
    match answer(&rt) {
        Ok(code) => ExitCode::from(code),
        Err(failure) => {
            // Where standard error fails too, the status alone tells.
            let _ = eprintln!(rt; "{failure}");
            ExitCode::from(status(&failure))
        }
    }
}
