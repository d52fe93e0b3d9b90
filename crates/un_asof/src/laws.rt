//! What holds of a past and a log. Each law is the contract of a function that does nothing.
ghost use Rattle.un_asof.specs.Pasts.{LongerLaw, NextLaw, WayLaw};

use un_machine::Machine;
use un_publish::published::BoardName;

/// A past that stands for a log stands for each longer log that begins with it.
pub fn stands_for_longer<M: Machine, J: BoardName<M>>()
    ensures { LongerLaw M.Hint M.step J.opening }
{}

/// From the state after some first entries of a legal log the entries that follow lead to some state.
pub fn entries_lead_on<M: Machine, J: BoardName<M>>()
    ensures { WayLaw M.Hint M.step J.opening }
{}

/// And that state is the one after those entries, too.
pub fn state_after_replay<M: Machine, J: BoardName<M>>()
    ensures { NextLaw M.Hint M.step J.opening }
{}
