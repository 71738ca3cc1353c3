//! A program of one's own over `bb_run`. It decides a list in memory, under the contracts of its calls, and
//! prints the verdicts.
#![tactic(auto)]

use bb_decide::Plan;
use bb_lines::fault::Fault;
use bb_lines::watched::Watched;
use bb_machine::Limits;
use bb_run::{Summary, VerdictCounts, ring_bench, run_decide_in_single_pass};
use std::process::ExitCode;

/// Machines of two and three states with the most steps, a cycler, a translated cycler, and a wrong line.
const LIST: &[u8] = b"1RB1LB_1LA1RZ\n1RB1RZ_1LB0RC_1LC1LA\n0RB0LB_0LA1RZ\n1RA1RA\n1rB1LB\n";

const ALL: Plan = Plan {
    cyclers: true,
    translated: true,
    backward: true,
};

fn main(rt: HostRuntime) -> ExitCode {
    let limits = match Limits::new(1_000, 200, 60, 1_000) {
        Ok(limits) => limits,
        Err(fault) => {
            let _ = eprintln!(rt; "{fault}");
            return ExitCode::FAILURE;
        }
    };
    match decided(&rt, &limits) {
        Ok(_) => ExitCode::SUCCESS,
        Err(fault) => {
            let _ = eprintln!(rt; "{fault}");
            ExitCode::FAILURE
        }
    }
}

/// Decides the list, and writes the verdicts to standard output.
fn decided(rt: &HostRuntime, limits: &Limits) -> Result<Summary, Fault> {
    let Ok(mut bench) = ring_bench(rt.alloc(), limits) else {
        return Err(Fault::Memory);
    };
    let mut reader = Watched::new(LIST);
    let mut writer = Watched::new(rt.stdout());
    let counts = VerdictCounts::default();
    run_decide_in_single_pass(&mut reader, &mut writer, limits, ALL, &mut bench, &counts)
}
