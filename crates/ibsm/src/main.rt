//! The program `ibsm`, which shows what InfiniBand subnet managers know and do.
#![tactic(auto)]

mod gone_words;
mod opener;
mod perform;
mod run;
mod usage_errors;

use std::process::ExitCode;

fn main(rt: HostRuntime) -> ExitCode {
    let status = run::run(&rt, rt.stdout(), rt.stderr());
    ExitCode::from(status.code())
}
