//! The program `dicomdir` for x86-64-v2, where four files at once are digested in the least time.
#![tactic(auto)]

use dicomdir::Lanes;
use dicomdir_start::start;
use std::process::ExitCode;

fn main(rt: HostRuntime) -> ExitCode {
    start(rt, Lanes::Four)
}
