ghost use Rattle.std.specs.Prelude.{◌≡◌};
ghost use Rattle.mbj_core.specs.declared.cells.TheConstants as core;
ghost use Rattle.mbj_ring.specs.declared.ring.TheConstants as ring;
ghost use Rattle.mbj_replay.specs.Events.{ReplaysAreOfEvents};

/// A law: the lines of a replay tell of a run of events from the new front, each line of one event or of none. After the
/// commands the replay's core stands for the front that the events lead to.
pub fn replays_are_of_events()
    ensures { ReplaysAreOfEvents }
{}

/// A law: a submitter has as many cells as a ring.
pub fn a_submitter_has_as_many_cells_as_a_ring()
    ensures { core.SUBMITTER_CELLS ≡ ring.CELLS }
{}
