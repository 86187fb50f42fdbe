// What is promised of the model: a function a statement, whose contract is the statement. Nothing is run; each is called nowhere, and
// the crate is built only where all are proved. The statements stand in specs/Promises.

ghost use Rattle.model.specs.Promises.{OutputIsTold, FlowsExactly, NeverTwo, CutToTheLimits, WakePairFlows, ExactlyEight, FactsCanHold, WakingCanHold, CountedFrom, RunsOut, RunsOutWhateverComes, WakeRunsOut, RefusalChangesNothing, BadMachineFirst, PowerOnIsGood, StepsStayGood, AlwaysGood, Never15, TicksAndAcHeard, RefusalsApart, AnswersApart, StepsApart, KindsApart, SupplyKept, SettledOnce, AllSettled, WalkIsTheLadder, TableHolds, TimersHold, EdgesHold, WakeTimersHold, WorkedRunsHold};

// The output is the one that the facts tell.
#[tactic(auto, using(crate::proofs::Theorems::output_is_told))]
pub fn output_is_told()
    ensures { OutputIsTold }
{}

// It is not zero exactly when all eight facts hold, or those of the wake pair.
#[tactic(auto, using(crate::proofs::Theorems::flows_exactly))]
pub fn flows_exactly()
    ensures { FlowsExactly }
{}

// Never both, whatever the past.
pub fn never_two()
    ensures { NeverTwo }
{}

// Under the eight it equals the two requests cut to the limits.
#[tactic(auto, using(crate::proofs::Theorems::cut_to_the_limits))]
pub fn cut_to_the_limits()
    ensures { CutToTheLimits }
{}

// Under those of the wake pair it is that pair.
#[tactic(auto, using(crate::proofs::Theorems::wake_pair_flows))]
pub fn wake_pair_flows()
    ensures { WakePairFlows }
{}

// So with wake-up switched off it is not zero exactly when all eight facts hold.
#[tactic(auto, using(crate::proofs::Theorems::exactly_eight))]
pub fn exactly_eight()
    ensures { ExactlyEight }
{}

// The eight can hold: they do of a run that charges 1500 mA, after a word that asks 0 was refused.
#[tactic(auto, using(crate::proofs::Theorems::facts_can_hold))]
pub fn facts_can_hold()
    ensures { FactsCanHold }
{}

// Those of the wake pair can: they do of a run in which nothing was asked, after a word of the neighbour was refused.
#[tactic(auto, using(crate::proofs::Theorems::waking_can_hold))]
pub fn waking_can_hold()
    ensures { WakingCanHold }
{}

// Every counted request came from the host, or from the pack now in the charging bay, after it was put in and
// connected.
pub fn counted_from()
    ensures { CountedFrom }
{}

// 175 ticks after the latest accepted current word, or voltage word, the output is zero, whatever else came, unless
// the wake pair flows.
#[tactic(auto, using(crate::proofs::Theorems::runs_out))]
pub fn runs_out()
    ensures { RunsOut }
{}

// The same of the list itself: after any events, once 175 ticks came among later ones of which no current word, or no
// voltage word, was accepted.
#[tactic(auto, using(crate::proofs::Theorems::runs_out_whatever_comes))]
pub fn runs_out_whatever_comes()
    ensures { RunsOutWhateverComes }
{}

// 175 ticks after the later of the latest fresh start and the latest AC arrival it is zero, unless the requested pair
// flows.
#[tactic(auto, using(crate::proofs::Theorems::wake_runs_out))]
pub fn wake_runs_out()
    ensures { WakeRunsOut }
{}

// A refusal leaves the machine as it stood, whichever it is.
#[tactic(auto, using(crate::proofs::Theorems::refusal_changes_nothing))]
pub fn refusal_changes_nothing()
    ensures { RefusalChangesNothing }
{}

// 15 comes first: of a bad machine every event is refused with it.
#[tactic(auto, using(crate::proofs::Theorems::bad_machine_first))]
pub fn bad_machine_first()
    ensures { BadMachineFirst }
{}

// What power-on hands back is a machine that 15 accepts, also where the setup is refused.
#[tactic(auto, using(crate::proofs::Theorems::power_on_is_good))]
pub fn power_on_is_good()
    ensures { PowerOnIsGood }
{}

// No step leads from a machine that 15 accepts to one that it refuses.
#[tactic(auto, using(crate::proofs::Theorems::steps_stay_good))]
pub fn steps_stay_good()
    ensures { StepsStayGood }
{}

// From power-on of a good setup every machine is one that 15 accepts.
#[tactic(auto, using(crate::proofs::Theorems::always_good))]
pub fn always_good()
    ensures { AlwaysGood }
{}

// So 15 is never given.
#[tactic(auto, using(crate::proofs::Theorems::never_15))]
pub fn never_15()
    ensures { Never15 }
{}

// So no tick and no AC event of such a run is refused: facts (a) and (g) see all of them.
pub fn ticks_and_ac_heard()
    ensures { TicksAndAcHeard }
{}

// No two refusals have one number.
#[tactic(auto, using(crate::proofs::Theorems::refusals_apart))]
pub fn refusals_apart()
    ensures { RefusalsApart }
{}

// No two answers have one value.
#[tactic(auto, using(crate::proofs::Theorems::answers_apart))]
pub fn answers_apart()
    ensures { AnswersApart }
{}

// No two steps are told alike.
#[tactic(auto, using(crate::proofs::Theorems::steps_apart))]
pub fn steps_apart()
    ensures { StepsApart }
{}

// No two kinds of event have one number.
#[tactic(auto, using(crate::proofs::Theorems::kinds_apart))]
pub fn kinds_apart()
    ensures { KindsApart }
{}

// With AC absent POWER_BY is without a bay exactly when no candidate exists.
#[tactic(auto, using(crate::proofs::Theorems::supply_kept))]
pub fn supply_kept()
    ensures { SupplyKept }
{}

// Whatever the machine, the three steps once more change nothing.
#[tactic(auto, using(crate::proofs::Theorems::settled_once))]
pub fn settled_once()
    ensures { SettledOnce }
{}

// Every machine of a run is settled.
#[tactic(auto, using(crate::proofs::Theorems::all_settled))]
pub fn all_settled()
    ensures { AllSettled }
{}

// At every reading the walk over the edges gives the class that the ladder of comparisons gives.
#[tactic(auto, using(crate::proofs::Theorems::walk_is_the_ladder))]
pub fn walk_is_the_ladder()
    ensures { WalkIsTheLadder }
{}

// P1 to P12, and 499 and 500 ohms, one table.
#[tactic(auto, using(crate::proofs::Theorems::table_holds))]
pub fn table_holds()
    ensures { TableHolds }
{}

// Each request's own timer.
#[tactic(auto, using(crate::proofs::Theorems::timers_hold))]
pub fn timers_hold()
    ensures { TimersHold }
{}

// 15, and 1 for the setups, up to each edge and past it.
#[tactic(auto, using(crate::proofs::Theorems::edges_hold))]
pub fn edges_hold()
    ensures { EdgesHold }
{}

// When wake-up ends, and from when its ticks count.
#[tactic(auto, using(crate::proofs::Theorems::wake_timers_hold))]
pub fn wake_timers_hold()
    ensures { WakeTimersHold }
{}

// The paper's listing, its status words, the safety signal's edges, the charger and the selector at work, a board with
// four bays, and wake-up.
#[tactic(auto, using(crate::proofs::Theorems::worked_runs_hold))]
pub fn worked_runs_hold()
    ensures { WorkedRunsHold }
{}
