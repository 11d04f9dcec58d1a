// random_trials [HOURS [SEED]]: clears small drawn hours and holds each beside a slow search of everything, then lends slices to byte
// strings that are hardly hours. An hour that is not as the slow search has it is printed. Status 0 where there is none, and no string was
// other than it should be.
#![tactic(auto)]

mod draws;
mod others;
mod rules;
mod search;
mod small;
mod strings;
mod trial;

use crate::draws::Draws;
use crate::small::Small;
use crate::strings::Strings;
use crate::trial::{Alike, try_hour};
use anyhow::{Context, Result, bail};
use std::process::ExitCode;
use std::{env, fmt};

const HOURS: u64 = 300;

const SEED: u64 = 1;

// Byte strings for each hour.
const STRINGS: u64 = 10;

// How many hours were tried, and how many are in each way as the slow search has them.
#[derive(Clone, Copy, Default)]
struct Tally {
    hours: u64,
    trades: u64,
    worth: u64,
    prices: u64,
    accepted: u64,
    lowest: u64,
    closes: u64,
    judged: u64,
    stand: u64,
}

impl Tally {
    fn add(&mut self, alike: Alike) {
        self.hours = self.hours.saturating_add(1);
        self.trades = self.trades.saturating_add(u64::from(alike.trades));
        self.worth = self.worth.saturating_add(u64::from(alike.worth));
        self.prices = self.prices.saturating_add(u64::from(alike.prices));
        self.accepted = self.accepted.saturating_add(u64::from(alike.accepted));
        self.lowest = self.lowest.saturating_add(u64::from(alike.lowest));
        self.closes = self.closes.saturating_add(u64::from(alike.closes));
        self.judged = self.judged.saturating_add(alike.judged);
        self.stand = self.stand.saturating_add(alike.stand);
    }
}

impl fmt::Display for Tally {
    fn fmt<W: fmt::Write>(&self, f: &mut fmt::Formatter<W>) -> fmt::Result {
        let Tally {
            hours,
            trades,
            worth,
            prices,
            accepted,
            lowest,
            closes,
            judged,
            stand,
        } = *self;
        write!(
            f,
            "{hours} hours, {trades} with trade: {worth} worth, {prices} prices, {accepted} accepted, {lowest} lowest, {closes} close, {judged} other results judged alike, {stand} of them accepted"
        )
    }
}

// How many hours, and from which seed.
fn called(rt: &HostRuntime) -> Result<(u64, u64)> {
    let mut args = env::args(rt)?;
    let _program = args.next();
    let hours = number_or(args.next(), HOURS)?;
    let seed = number_or(args.next(), SEED)?;
    if args.next().is_some() {
        bail!("usage: random_trials [HOURS [SEED]]");
    }
    Ok((hours, seed))
}

fn number_or(word: Option<String>, absent: u64) -> Result<u64> {
    let Some(word) = word else {
        return Ok(absent);
    };
    word.as_str()
        .parse::<u64>()
        .context("usage: random_trials [HOURS [SEED]]")
}

// Whether all were alike, once that is said.
fn small_hours(rt: &HostRuntime, draws: &mut Draws, hours: u64) -> Result<bool> {
    let heap = rt.alloc();
    let mut tally = Tally::default();
    let mut all_alike = true;
    for number in 0..hours {
        let small = Small::drawn(heap, draws)?;
        let bytes = small.bytes(heap)?;
        let alike = try_hour(heap, draws, &small, bytes.as_slice())?;
        tally.add(alike);
        if !alike.all() {
            all_alike = false;
            println!(rt; "hour {number} is not alike: {bytes:?}")?;
        }
    }
    println!(rt; "{tally}")?;
    Ok(all_alike)
}

// Whether each was as it should be, once that is said.
fn byte_strings(rt: &HostRuntime, draws: &mut Draws, count: u64) -> Result<bool> {
    let heap = rt.alloc();
    let mut strings = Strings::default();
    for _ in 0..count {
        strings.try_one(heap, draws)?;
    }
    println!(rt; "{count} byte strings: {strings}")?;
    Ok(strings.right())
}

fn run(rt: &HostRuntime) -> Result<bool> {
    let (hours, seed) = called(rt)?;
    let mut draws = Draws::new(seed);
    let alike = small_hours(rt, &mut draws, hours)?;
    let right = byte_strings(rt, &mut draws, hours.saturating_mul(STRINGS))?;
    Ok(alike && right)
}

fn main(rt: HostRuntime) -> Result<ExitCode> {
    if run(&rt)? {
        Ok(ExitCode::SUCCESS)
    } else {
        Ok(ExitCode::FAILURE)
    }
}
