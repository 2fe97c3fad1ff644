//! Trials in the three versions.

use crate::trial::{Met, Trial, Wrong};
use std::alloc::Global;
use std::process::Abort;
use std::test::Fail;
use wire_base::Version;

const VERSIONS: [Version; 3] = [Version::One, Version::Two, Version::Three];

const SEEDS: [u64; 4] = [1, 2, 3, 4];

/// The drawn steps of one trial.
const STEPS: usize = 170;

/// What each trial meets: everything, but for acknowledgements in version 1, which has none.
fn met_in(version: Version) -> Met {
    Met {
        content: true,
        acknowledgements: version != Version::One,
        unread: true,
        cut: true,
        rest: true,
    }
}

fn is_right(rt: &impl Abort, wrong: Option<Wrong>, version: Version, seed: u64) {
    assert!(rt; wrong.is_none(), "{wrong:?} in {version:?}, seed {seed}");
}

fn has_met(rt: &impl Abort, met: Met, version: Version, seed: u64) {
    assert_eq!(rt; met, met_in(version), "{version:?}, seed {seed}");
}

fn passes(rt: &impl Abort, trial: &mut Trial, version: Version, seed: u64) -> Result<(), Fail> {
    is_right(rt, trial.run_to_rest(STEPS)?, version, seed);
    has_met(rt, trial.met(), version, seed);
    Ok(())
}

/// The trial of a seed makes its steps and comes to rest.
fn a_trial(rt: &impl Abort, alloc: Global, version: Version, seed: u64) -> Result<(), Fail> {
    let mut trial = Trial::start(alloc, version, seed)?;
    passes(rt, &mut trial, version, seed)
}

fn trials_in(rt: &impl Abort, alloc: Global, version: Version) -> Result<(), Fail> {
    for seed in SEEDS {
        a_trial(rt, alloc, version, seed)?;
    }
    Ok(())
}

#[test]
fn sums_hold_after_drawn_steps(rt: HostRuntime) -> Result<(), Fail> {
    for version in VERSIONS {
        trials_in(&rt, rt.alloc(), version)?;
    }
    Ok(())
}
