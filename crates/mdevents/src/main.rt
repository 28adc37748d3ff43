//! Markdown on standard input, a line of JSON for each event on standard output.
#![tactic(auto)]

use mdevents_run::run;
use program_io::Watched;
use program_settings::{Program, Stop, finish, start};
use std::process::ExitCode;

fn main(rt: HostRuntime) -> ExitCode {
    let mut reader = Watched::new(rt.stdin());
    let mut writer = Watched::new(rt.stdout());
    let ended = start(&rt, Program::Mdevents).and_then(|settings| {
        let options = settings.options;
        run(
            rt.alloc(),
            &mut reader,
            &mut writer,
            options,
            &settings.entities,
        )
        .map_err(Stop::Fault)
    });
    finish(&rt, Program::Mdevents, &mut writer, ended)
}
