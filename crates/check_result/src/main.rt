//! check_result HOUR PUBLISHED: says whether a published result of an hour stands.
#![tactic(auto)]

use anyhow::anyhow;
use clap::{Arg, ArgAction, ArgMatches, Command};
use office::{
    Answer, Fault, First, Second, Status, Trouble, VERSION, check_published, end, end_answer,
    end_call, words,
};
use std::alloc::{AllocError, Global};
use std::io;
use std::process::ExitCode;

const PROGRAM: &str = "check_result";

fn command<'a>(heap: Global) -> Result<Command<'a>, AllocError> {
    let hour = Arg::new(heap, "HOUR")
        .required(true)
        .action(ArgAction::Set)
        .help("The file of the hour; - is standard input");
    let published = Arg::new(heap, "PUBLISHED")
        .required(true)
        .action(ArgAction::Set)
        .help("The file of the result as it was published; - is standard input");
    Command::new(heap, PROGRAM)
        .version(VERSION)
        .about(
            "Says whether a published result of an hour stands. Status: 0 it stands, 1 it does not, 2 trouble.",
        )
        .arg(hour)?
        .arg(published)
}

// The hour is open already; what is published is opened once the hour is read and closed.
fn check_opened(rt: &HostRuntime, hour: &First, published: &str) -> Result<Answer, Fault> {
    let mut first = hour;
    let mut second = Second {
        rt,
        name: published,
        first: hour,
        source: None,
    };
    check_published(rt.alloc(), &mut first, &mut second, &mut io::writer(rt))
}

fn check(rt: &HostRuntime, found: &ArgMatches<'_>) -> Result<Status, Trouble> {
    let hour = found.get_str("HOUR").unwrap_or("-");
    let published = found.get_str("PUBLISHED").unwrap_or("-");
    if hour == "-" && published == "-" {
        return Err(Trouble::from(anyhow!(
            "the hour and what was published cannot both come from standard input"
        )));
    }
    let opened = First::open(rt, hour)?;
    match check_opened(rt, &opened, published) {
        Ok(answer) => Ok(end_answer(rt, PROGRAM, answer)),
        Err(fault) => Err(Trouble::from(fault).named(rt.alloc(), hour, published)),
    }
}

fn run(rt: &HostRuntime) -> Result<Status, Trouble> {
    let words = words(rt)?;
    match command(rt.alloc())?.try_get_matches_from(words.as_slice()) {
        Ok(found) => check(rt, &found),
        Err(error) => Ok(end_call(rt, error)?),
    }
}

fn main(rt: HostRuntime) -> ExitCode {
    end(&rt, PROGRAM, run(&rt))
}

#[cfg(test)]
mod tests;
