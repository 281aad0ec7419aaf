use super::setting::{Row, assert_row};
use rg_bytes::Memory;
use rg_commands::run_trial;
use rg_host::{Image, MemHost};
use rg_selftest::print;
use std::alloc::Global;
use std::marker::Brand;
use std::process::Abort;
use std::sync::ledger::Blank;
use std::test::Fail;

/// Puts the four lines of a trial.
fn put_trial(alloc: Global, lines: u64, seed: u64, host: &mut MemHost) -> Result<(), Fail> {
    if lines > 200_000 {
        return Err(Fail::from(Memory));
    }
    let trial = run_trial::<Brand>(alloc, lines, seed, Blank::new(1))?;
    print(alloc, &trial, host)?;
    Ok(())
}

/// A trial, and its four lines.
#[derive(Clone, Copy)]
struct Trial<'a> {
    lines: u64,
    seed: u64,
    wanted: &'a [u8],
}

fn assert_lines(rt: &(impl Abort + AllocGlobal), trial: &Trial<'_>) -> Result<(), Fail> {
    let mut host = MemHost::new(rt.alloc(), Image::new(rt.alloc()), Vec::new(rt.alloc()))?;
    let done = put_trial(rt.alloc(), trial.lines, trial.seed, &mut host);
    let is_wanted = host.output() == trial.wanted;
    drop(host);
    done?;
    let row = Row {
        says: "a trial of so many lines",
        number: trial.lines as usize,
    };
    assert_row(rt, row, "it puts its lines", is_wanted)
}

fn assert_each(rt: &(impl Abort + AllocGlobal), trials: &[Trial<'_>]) -> Result<(), Fail> {
    for trial in trials {
        assert_lines(rt, trial)?;
    }
    Ok(())
}

const TRIALS: &[Trial<'static>] = &[
    // no line gives the marks alone
    Trial {
        lines: 0,
        seed: 0,
        wanted: b"lines 0\nevents 0\nbytes 37\nsum 2644\n",
    },
    // two lines give two replies
    Trial {
        lines: 2,
        seed: 0,
        wanted: b"lines 2\nevents 2\nbytes 83\nsum 4917\n",
    },
];

#[test]
fn a_trial_puts_four_lines(rt: HostRuntime) -> Result<(), Fail> {
    assert_each(&rt, TRIALS)
}
