//! The jobs that users wait for, on captures that are made in memory: `JOB SEED TURNS PACKETS` does a job on so many
//! captures of at least so many packets, and prints what came of each. Each seed makes other captures. The status is
//! 0 only where something came of each of them.
#![tactic(auto)]

mod capture;
mod dialogue;
mod folding;
mod jobs;
mod port;
mod station;
mod traffic;

use jobs::{Job, run_job};
use std::process::ExitCode;
use std::rt::Env;
use std::{env, io};

const USAGE: &str =
    "usage: seatmelon_workloads explain|json|audit|check|survey|show|mirrored|single|many SEED TURNS PACKETS";

// What the words after the program's name ask for.
#[derive(Clone, Copy)]
struct Request {
    job: Job,
    seed: u32,
    turns: u32,
    packets: u32,
}

fn request_in(words: &[String]) -> Option<Request> {
    let [_program, job, seed, turns, packets] = words else {
        return None;
    };
    Some(Request {
        job: Job::named(job.as_str())?,
        seed: seed.parse().ok()?,
        turns: turns.parse().ok()?,
        packets: packets.parse().ok()?,
    })
}

fn requested(rt: &(impl Env + AllocGlobal)) -> io::Result<Option<Request>> {
    match env::args(rt)?.collect::<Vec<String>>(rt.alloc()) {
        Ok(words) => Ok(request_in(&words)),
        Err(_) => Err(io::ErrorKind::OutOfMemory.into()),
    }
}

// Does what is asked for, and answers whether something came of it.
fn run(rt: &(impl Env + Print + AllocGlobal)) -> io::Result<bool> {
    match requested(rt)? {
        Some(request) => run_job(
            rt,
            request.job,
            request.seed,
            request.turns,
            request.packets,
        ),
        None => {
            println!(rt; "{USAGE}")?;
            Ok(false)
        }
    }
}

fn main(rt: HostRuntime) -> ExitCode {
    match run(&rt) {
        Ok(true) => ExitCode::SUCCESS,
        Ok(false) | Err(_) => ExitCode::FAILURE,
    }
}
