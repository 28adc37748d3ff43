//! Markdown on standard input, HTML on standard output.
#![tactic(auto)]

use mdhtml_run::run_filtered;
use program_io::Watched;
use program_settings::{Program, Stop, finish, start};
use std::process::ExitCode;

fn main(rt: HostRuntime) -> ExitCode {
    let mut reader = Watched::new(rt.stdin());
    let mut writer = Watched::new(rt.stdout());
    let ended = start(&rt, Program::Mdhtml).and_then(|settings| {
        let options = settings.options;
        let safe = settings.safe;
        run_filtered(
            rt.alloc(),
            &mut reader,
            &mut writer,
            options,
            &settings.entities,
            safe,
        )
        .map_err(Stop::Fault)
    });
    finish(&rt, Program::Mdhtml, &mut writer, ended)
}
