// What is promised of the notation: a function a statement, whose contract is the statement. Nothing is run; each is
// called nowhere, and the crate is built only where all are proved. The statements stand in specs/Promises.

ghost use Rattle.notation.specs.Promises.{LineReadsBack, CommentsAreSilent, LinesApart, TextReadsBack, LogComesBack, TurnsMakeTheLog, TurnsMakeTheText, RecordingGoesOn, TranscribingGoesOn, TextFits, ComplaintsFit, LongestIsReached, WorkedLinesHold, LengthEdgeHolds, WorkedEventsHold, PaperTextHolds, WrongTextHolds, BadLogsHold, WorkedComplaintsHold};

// A line made of an event reads back as that event, for every event.
#[tactic(auto, using(crate::proofs::Theorems::line_reads_back))]
pub fn line_reads_back()
    ensures { LineReadsBack }
{}

// Whatever comment stands behind it.
#[tactic(auto, using(crate::proofs::Theorems::comments_are_silent))]
pub fn comments_are_silent()
    ensures { CommentsAreSilent }
{}

// So two different events have different lines.
#[tactic(auto, using(crate::proofs::Theorems::lines_apart))]
pub fn lines_apart()
    ensures { LinesApart }
{}

// The text of a log says the log's events, whatever bytes the log is made of: all of them, up to its first bad
// record.
#[tactic(auto, using(crate::proofs::Theorems::text_reads_back))]
pub fn text_reads_back()
    ensures { TextReadsBack }
{}

// So a log without a bad record comes back to the byte.
#[tactic(auto, using(crate::proofs::Theorems::log_comes_back))]
pub fn log_comes_back()
    ensures { LogComesBack }
{}

// Whatever comes in whatever turns, once it has ended the log is that of all the text that came, and so is the
// ending.
#[tactic(auto, using(crate::proofs::Theorems::turns_make_the_log))]
pub fn turns_make_the_log()
    ensures { TurnsMakeTheLog }
{}

// And the text that of all the log.
#[tactic(auto, using(crate::proofs::Theorems::turns_make_the_text))]
pub fn turns_make_the_text()
    ensures { TurnsMakeTheText }
{}

// A part is made of what is at hand, and with room and enough at hand it gets on.
#[tactic(auto, using(crate::proofs::Theorems::recording_goes_on))]
pub fn recording_goes_on()
    ensures { RecordingGoesOn }
{}

// And so of a text of a log: a part is made of what is at hand, and with room and enough at hand it gets on.
#[tactic(auto, using(crate::proofs::Theorems::transcribing_goes_on))]
pub fn transcribing_goes_on()
    ensures { TranscribingGoesOn }
{}

// No line of a log's text is longer than the room that is asked for.
#[tactic(auto, using(crate::proofs::Theorems::text_fits))]
pub fn text_fits()
    ensures { TextFits }
{}

// Nor is what is said of a wrong line.
#[tactic(auto, using(crate::proofs::Theorems::complaints_fit))]
pub fn complaints_fit()
    ensures { ComplaintsFit }
{}

// One of each has just that length.
#[tactic(auto, using(crate::proofs::Theorems::longest_is_reached))]
pub fn longest_is_reached()
    ensures { LongestIsReached }
{}

// The worked lines say what they should.
#[tactic(auto, using(crate::proofs::Theorems::worked_lines_hold))]
pub fn worked_lines_hold()
    ensures { WorkedLinesHold }
{}

// A line of 1024 bytes is read, one of 1025 is not.
#[tactic(auto, using(crate::proofs::Theorems::length_edge_holds))]
pub fn length_edge_holds()
    ensures { LengthEdgeHolds }
{}

// The worked events have their lines.
#[tactic(auto, using(crate::proofs::Theorems::worked_events_hold))]
pub fn worked_events_hold()
    ensures { WorkedEventsHold }
{}

// The worked listing's events as text: what it says, the bytes of its log, and the text of these.
#[tactic(auto, using(crate::proofs::Theorems::paper_text_holds))]
pub fn paper_text_holds()
    ensures { PaperTextHolds }
{}

// A text stops at its wrong line, and is not read behind it.
#[tactic(auto, using(crate::proofs::Theorems::wrong_text_holds))]
pub fn wrong_text_holds()
    ensures { WrongTextHolds }
{}

// The text of a log stops at its bad record, with each refusal.
#[tactic(auto, using(crate::proofs::Theorems::bad_logs_hold))]
pub fn bad_logs_hold()
    ensures { BadLogsHold }
{}

// Wrong lines are spoken of as they should be.
#[tactic(auto, using(crate::proofs::Theorems::worked_complaints_hold))]
pub fn worked_complaints_hold()
    ensures { WorkedComplaintsHold }
{}
