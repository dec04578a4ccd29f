//! `txkv`, the transaction layer at a shell.
#![tactic(auto)]

mod explain;
mod pictures;

use crate::pictures::Shows;
use std::process::ExitCode;
use tx_shell::txkv;

fn main(rt: HostRuntime) -> ExitCode {
    txkv(&rt, &Shows, rt)
}
