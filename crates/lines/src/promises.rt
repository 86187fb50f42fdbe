// What is promised of the lines: a function a statement, whose contract is the statement. Nothing is run; each is
// called nowhere, and the crate is built only where all are proved. The statements stand in specs/Promises.

ghost use Rattle.lines.specs.Promises.{LinesFit, LongestIsReached, OnlyTheLineChanges, ShortIsSaid, WorkedLinesHold, RoomEdgesHold};

// No line is longer than the room that is asked for.
#[tactic(auto, using(crate::proofs::Theorems::lines_fit))]
pub fn lines_fit()
    ensures { LinesFit }
{}

// One has just that length.
#[tactic(auto, using(crate::proofs::Theorems::longest_is_reached))]
pub fn longest_is_reached()
    ensures { LongestIsReached }
{}

// No byte outside the line changes, and the buffer is as long as before.
pub fn only_the_line_changes()
    ensures { OnlyTheLineChanges }
{}

// Where the room is short the answer says so, and no byte changes.
pub fn short_is_said()
    ensures { ShortIsSaid }
{}

// The worked lines are their texts.
#[tactic(auto, using(crate::proofs::Theorems::worked_lines_hold))]
pub fn worked_lines_hold()
    ensures { WorkedLinesHold }
{}

// The room's edges: from place 2 on, 48 bytes are enough and 47 are not; nor are 45 from the start.
#[tactic(auto, using(crate::proofs::Theorems::room_edges_hold))]
pub fn room_edges_hold()
    ensures { RoomEdgesHold }
{}
