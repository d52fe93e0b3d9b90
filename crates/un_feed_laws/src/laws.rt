//! What a follower may rely on. A law is the contract of a function that does nothing.

ghost use Rattle.un_feed_laws.specs.Fresh.{FreshStarLaw, FreshPlaceLaw};
ghost use Rattle.un_feed_laws.specs.Edits.{EditsStayInRangeLaw};
ghost use Rattle.un_feed_laws.specs.States.{OpeningInRangeLaw, CommandsStayInRangeLaw, KeptPairsAreSoundLaw};
ghost use Rattle.un_feed_laws.specs.Pages.{PagesAreSoundLaw, ChangesReadBackLaw};

use un_feed_json::laws::pages_are_read_back;

/// The star of sound features in range, at any point, is one that a page can show.
pub fn fresh_stars_are_sound()
    ensures { FreshStarLaw }
{}

/// A point at which something stands has coordinates in range.
pub fn fresh_points_are_in_range()
    ensures { FreshPlaceLaw }
{}

/// An edit for which no refusal is due keeps the features in range.
pub fn edits_stay_in_range()
    ensures { EditsStayInRangeLaw }
{}

/// The opening state is in range.
pub fn opening_is_in_range()
    ensures { OpeningInRangeLaw }
{}

/// An accepted command leaves the state in range.
pub fn commands_stay_in_range()
    ensures { CommandsStayInRangeLaw }
{}

/// After the commands of a log, each kept star is one that a page can show, at a point in range.
pub fn kept_pairs_are_sound()
    ensures { KeptPairsAreSoundLaw }
{}

/// A page of differences between two states of one log is sound.
pub fn pages_are_sound()
    ensures { PagesAreSoundLaw }
{}

/// Its text, as a follower's line, is read back as the page.
pub fn changes_are_read_back()
    ensures { ChangesReadBackLaw }
{
    pages_are_read_back();
}
