//! clear [-o FILE] [HOUR]: clears an hour, or says why it is refused.
#![tactic(auto)]

use clap::{Arg, ArgAction, ArgMatches, Command};
use office::{
    Answer, Source, Status, Trouble, VERSION, clear_hour, clear_to_file, end, end_answer, end_call,
    words,
};
use std::alloc::{AllocError, Global};
use std::io;
use std::process::ExitCode;

const PROGRAM: &str = "clear";

fn command<'a>(heap: Global) -> Result<Command<'a>, AllocError> {
    let hour = Arg::new(heap, "HOUR").action(ArgAction::Set).help(
        "The file of the hour; standard input where it is - or not given",
    );
    let output = Arg::new(heap, "FILE")
        .short('o')
        .long("output")
        .value_name("FILE")
        .help(
            "Writes the result there once it is whole; standard output where it is - or not given",
        );
    Command::new(heap, PROGRAM)
        .version(VERSION)
        .about(
            "Clears one hour of a power market, or says why it is refused. Status: 0 cleared, 1 refused, 2 trouble.",
        )
        .arg(output)?
        .arg(hour)
}

fn answer(
    rt: &HostRuntime,
    hour: &mut Source,
    source: &str,
    target: &str,
) -> Result<Answer, Trouble> {
    if target == "-" {
        return Ok(clear_hour(rt.alloc(), hour, &mut io::writer(rt), &mut io::writer(rt))?);
    }
    if target == source {
        return Err(Trouble::kept(rt.alloc(), target, "is the hour"));
    }
    clear_to_file(rt, hour, target)
}

fn clear(rt: &HostRuntime, found: &ArgMatches<'_>) -> Result<Status, Trouble> {
    let source = found.get_str("HOUR").unwrap_or("-");
    let target = found.get_str("FILE").unwrap_or("-");
    let mut hour = Source::open(rt, source)?;
    match answer(rt, &mut hour, source, target) {
        Ok(answer) => Ok(end_answer(rt, PROGRAM, answer)),
        Err(trouble) => Err(trouble.named(rt.alloc(), source, "-")),
    }
}

fn run(rt: &HostRuntime) -> Result<Status, Trouble> {
    let words = words(rt)?;
    match command(rt.alloc())?.try_get_matches_from(words.as_slice()) {
        Ok(found) => clear(rt, &found),
        Err(error) => Ok(end_call(rt, error)?),
    }
}

fn main(rt: HostRuntime) -> ExitCode {
    end(&rt, PROGRAM, run(&rt))
}
