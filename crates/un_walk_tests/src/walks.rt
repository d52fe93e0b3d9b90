//! How many stars walks ask for.
//!
//! The contract of a walk bounds its count of steps, and no clause says that each look-up of a star is counted. So a ground counts how
//! often it is asked. Each test has the numbers worked out by hand: one for each point that is reached, since a walk remembers the sites of
//! both points; and one more for each path to another point whose far controller is asked for.

use crate::pump::{MAIN, OUTLET, Pump};
use std::alloc::{AllocError, Global};
use un_defs::port::Ports;
use un_defs::{Barriers, Mode, Node};
use un_steps::Steps;
use un_walk::walk::reach;

/// How many nodes a walk reaches, and how many stars it asks for.
fn counts(
    alloc: Global,
    start: Node,
    mode: Mode,
    tier: Option<u8>,
    consistent: bool,
) -> Result<(usize, u64), AllocError> {
    let over = Pump::new(alloc)?;
    let barriers = Barriers {
        request: None,
        of_tier: None,
        stops: Ports::new(Vec::new(alloc)),
        tier,
        consistent,
    };
    let mut steps = Steps::<u8>::new();
    let reached = reach(alloc, &over, &[start], mode, &barriers, &mut steps)?;
    Ok((reached.nodes.as_slice().len(), over.asked.get()))
}

#[test]
fn a_walk_asks_once_for_each_point(rt: HostRuntime) {
    let found = [
        counts(rt.alloc(), MAIN, Mode::Any, None, false).ok(),
        counts(rt.alloc(), OUTLET, Mode::Any, None, true).ok(),
    ];
    assert_eq!(rt; found, [Some((3, 2)), Some((1, 1))]);
}

#[test]
fn a_path_to_another_point_asks_there_in_a_tier_alone(rt: HostRuntime) {
    let found = [
        counts(rt.alloc(), MAIN, Mode::Any, Some(0), false).ok(),
        counts(rt.alloc(), MAIN, Mode::Along, Some(0), false).ok(),
        counts(rt.alloc(), MAIN, Mode::Against, Some(0), false).ok(),
    ];
    assert_eq!(rt; found, [Some((3, 4)), Some((3, 3)), Some((2, 1))]);
}
