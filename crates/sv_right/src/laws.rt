//! What the definitions promise, as calls that do nothing: their contracts are the laws.

ghost use Rattle.sv_listing.specs.Laws.{FrugalIsRight};
ghost use Rattle.sv_right.specs.Covering.{FrugalCovers};
ghost use Rattle.sv_right.specs.Laws.{FrugalDecides};
ghost use Rattle.sv_right.specs.Once.{DecidedOnce, FirstThreatOnce};

use sv_symbolic::{routes_are_paths, shapes_tell, symbols_are_typed};
use sv_trace::{changes_have_entries, runs_are_shaped};

/// Of every run of an accepted application on rows of its tables, where the integers that are written are of 64 bits, a
/// frugal dictionary decides the first threat of the changes: red with the instance, the place and the reason, or blue
/// where no change is threatened.
pub fn frugal_decides()
    ensures { FrugalDecides }
{
    runs_are_shaped();
    changes_have_entries();
    shapes_tell();
}

/// A frugal dictionary of an accepted application covers it: for each path of a unit that doesn't abort it has a
/// template with the path's symbols, whose tests are over them: integers in forms, and texts in lists.
pub fn frugal_covers()
    ensures { FrugalCovers }
{
    routes_are_paths();
    symbols_are_typed();
}

/// A frugal dictionary of an accepted application is right: it covers it, and of every run decides the first threat.
pub fn frugal_is_right()
    ensures { FrugalIsRight }
{
    frugal_covers();
    frugal_decides();
}

/// What a dictionary decides for a trace is one label.
pub fn decided_once()
    ensures { DecidedOnce }
{}

/// Of changes there is one first threat, or none.
pub fn first_threat_once()
    ensures { FirstThreatOnce }
{}
