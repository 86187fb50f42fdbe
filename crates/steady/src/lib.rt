// One event on a machine of a run, for who holds the machine from event to event: the step without what a run makes needless. Such a
// machine breaks no bound, so 15 is not asked again; and once an event was accepted it has settled, so it settles anew only where the
// event can touch what it settles by. The promises under "What a run makes needless" say when this is the step itself.
#![tactic(auto)]

ghost use Rattle.std.specs.Prelude.{◌≡◌};
ghost use Rattle.steady.specs.Following as following;

pub mod promises;

use actions::Action;
use model::{Answer, Charger, Event, Machine, Setup, Stepped};

// What an event came to: the answer beside the machine; whether that machine is known to have settled, and its output to be the one before.
// Two marks and no enum of the three cases: the lister asks each for itself, and would take the cases apart again.
#[derive(Clone, Copy, Debug, PartialEq, Eq)]
pub struct Followed {
    pub answer: Answer,
    pub machine: Machine,
    pub steady: bool,
    pub quiet: bool,
}

// One event. steady says that the machine has settled. The two come apart: with a struct of both, in and out, a listing
// takes 7 to 10 % more instructions.
#[inline(always)]
pub fn follow(m: Machine, e: Event, steady: bool) -> Followed
    ensures { following.shown result ≡ following.follow_spec m e steady }
{
    // A tick is the most frequent event.
    if steady & is_tick(e) {
        let machine = charger::tick(m);
        return Followed {
            answer: Answer::Done,
            machine,
            steady: true,
            quiet: is_alike(m.setup, m.charger, machine.charger),
        };
    }
    let action = actions::decide(m, e);
    let done = actions::perform(m, action);
    if steady & !unsettles(action) {
        let Stepped { answer, machine } = done;
        return Followed {
            answer,
            machine,
            steady: true,
            quiet: is_alike(m.setup, m.charger, machine.charger),
        };
    }
    let Stepped { answer, machine } = actions::finish(done);
    let accepted = actions::is_accepted(answer);
    Followed {
        answer,
        machine,
        steady: steady | accepted,
        quiet: steady & !accepted,
    }
}

// Whether an event is a tick.
#[inline(always)]
fn is_tick(e: Event) -> bool
    ensures { result ≡ following.is_tick e }
{
    matches!(e, Event::Tick)
}

// Whether an action can touch what a machine settles by: its bays, its nibbles, AC.
#[inline(always)]
fn unsettles(action: Action) -> bool
    ensures { result ≡ following.unsettles action }
{
    matches!(
        action,
        Action::SetState(_)
            | Action::SetPresets(_)
            | Action::Insert(_)
            | Action::Remove(_)
            | Action::TakeSignal { .. }
            | Action::TakeTerminal { .. }
            | Action::SetAc(_)
    )
}

// Whether two chargers are the same to the output. Of wake-up nothing shows where it is switched off.
#[inline(always)]
#[tactic(auto, unfolding(crate::specs::Following::same, crate::specs::Following::same_wake, crate::specs::Following::alike))]
fn is_alike(s: Setup, a: Charger, b: Charger) -> bool
    ensures { result ≡ following.alike s a b }
{
    (a.current.word == b.current.word)
        & (a.voltage.word == b.voltage.word)
        & (a.hold == b.hold)
        & (a.inhibit == b.inhibit)
        & ((s.wake.milliamps == 0)
            | ((a.wake.spent == b.wake.spent) & ((a.wake.age < 175) == (b.wake.age < 175))))
}
