//! The program: replays lines, serves connections, follows journals, and is a client of a server. This crate names the store
//! that all run over.
#![tactic(auto)]

mod fault;
mod records;
mod status;

use clap::error::ErrorKind;
use clients::{FORMS, ask, forget, simulate};
use command_line::{Plan, asks_for_forms, read};
use fault::ProgramFault;
use records::{follow, replay, serve};
use runs::RunFault;
use station_calls::{Echo, VendorHandler};
use std::env;
use std::process::ExitCode;
use telemetry::takes_line;

/// The milliseconds that the program waits for standard error as it ends.
const LAST_WAIT: u16 = 1000;

/// Statuses: 0 done, 1 usage, 2 a fault, which is named on standard error, 3 a line of an operator or a station's session that
/// was refused.
fn main(rt: HostRuntime) -> anyhow::Result<ExitCode> {
    let answer = run(&rt);
    if let Err(fault) = &answer {
        if takes_line(LAST_WAIT) {
            eprintln!(rt; "fault {fault}")?;
            fault.write_detail(&rt)?;
        }
    }
    Ok(ExitCode::from(status::of_run(&answer)))
}

/// Does what the command line asks for, and gives the program's status.
fn run(rt: &HostRuntime) -> Result<u8, ProgramFault> {
    let words: Vec<String> = env::args(rt)?.collect(rt.alloc())?;
    if asks_for_forms(words.as_slice()) {
        println!(rt; "{FORMS}")?;
        return Ok(0);
    }
    match read(rt.alloc(), words.as_slice()) {
        Ok(plan) => carry_out(rt, &plan),
        Err(error) if error.kind() == ErrorKind::OutOfMemory => {
            Err(ProgramFault::from(RunFault::NoMemory))
        }
        Err(error) => {
            error.print(rt)?;
            Ok(status::of_usage(error.use_stderr()))
        }
    }
}

/// Does what a plan asks for, and gives the program's status.
fn carry_out(rt: &HostRuntime, plan: &Plan) -> Result<u8, ProgramFault> {
    let alloc = rt.alloc();
    let mut vendors: Vec<Box<dyn VendorHandler>> = Vec::new(alloc);
    vendors.push(Box::new(alloc, Echo { alloc })?)?;
    let mut all_taken = true;
    match plan {
        Plan::Replay(options) => all_taken = replay(rt, options, vendors)?,
        Plan::Serve(options) => serve(rt, options, vendors)?,
        Plan::Sim(options) => all_taken = simulate(rt, options)?,
        Plan::Ask(options) => all_taken = ask(rt, options)?,
        Plan::Forget(options) => all_taken = forget(rt, options)?,
        Plan::Follow(options) => follow(rt, options)?,
    }
    Ok(status::of_lines(all_taken))
}
