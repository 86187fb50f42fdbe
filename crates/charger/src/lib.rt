// The charger's words, a tick, a fresh start, AC arriving, the output and the status word.
#![tactic(auto)]

ghost use Rattle.std.specs.Prelude.{◌≡◌, ◌≤◌, if◌then◌else◌};
ghost use Rattle.model.specs.declared.Event.TheVariants as event;
ghost use Rattle.model.specs.ChargerRules as rules;
ghost use Rattle.model.specs.Board.{allows, allows_to_wake};
ghost use Rattle.model.specs.Machines.{act};
ghost use Rattle.model.specs.Reads.{ready, charging, waking, output, above_largest, signal_bits, status_word};
ghost use Rattle.charger.specs.ByEvent.{spent_if, fresh_if, arrived_if, just_asked, asked_beside, remarked, alarm_set, aged, ticked, zeroed, mode_set};

use model::{Bay, Charger, Limit, Machine, Output, Request, Wake};

// A request that was not made.
const NO_REQUEST: Request = Request {
    word: 0,
    age: 0,
    mark: false,
};

// Wake-up that has just begun.
const WAKE_BEGUN: Wake = Wake {
    age: 0,
    spent: false,
};

// A charger, cleared where the event is a fresh start; the inhibit state stays.
#[tactic(auto, unfolding(crate::specs::ByEvent::fresh_if))]
pub fn fresh_if(start: bool, c: Charger) -> Charger
    ensures { result ≡ fresh_if start c }
{
    if start {
        Charger {
            current: NO_REQUEST,
            voltage: NO_REQUEST,
            wake: WAKE_BEGUN,
            hold: false,
            ..c
        }
    } else {
        c
    }
}

// A charger, its wake-up counted anew where AC arrives.
#[tactic(auto, unfolding(crate::specs::ByEvent::arrived_if))]
pub fn arrive_if(arrives: bool, c: Charger) -> Charger
    ensures { result ≡ arrived_if arrives c }
{
    if arrives {
        Charger {
            wake: Wake { age: 0, ..c.wake },
            ..c
        }
    } else {
        c
    }
}

// Wake-up, spent where something was asked. `remark` and `zero_if` have its shape, and each sets another field, which
// no type parameter can name.
fn spend_if(asked: bool, w: Wake) -> Wake
    ensures { result ≡ spent_if asked w }
{
    if asked { Wake { spent: true, ..w } } else { w }
}

// A request that was just written.
fn ask(word: u16) -> Request
    ensures { result ≡ just_asked word }
{
    Request {
        word,
        age: 0,
        mark: true,
    }
}

// What a request does to a charger beside itself: the hold is lifted if the other was rewritten too, wake-up is spent.
fn ask_beside(other: Request, c: Charger) -> Charger
    ensures { result ≡ asked_beside other c }
{
    Charger {
        hold: if other.mark { false } else { c.hold },
        wake: spend_if(true, c.wake),
        ..c
    }
}

// 0x16: an alarm clears the rewrite mark.
fn remark(alarm: bool, q: Request) -> Request
    ensures { result ≡ remarked alarm q }
{
    if alarm {
        Request { mark: false, ..q }
    } else {
        q
    }
}

// 0x16: an alarm puts on the hold, a word that is none lifts it.
#[tactic(auto, unfolding(crate::specs::ByEvent::alarm_set))]
fn take_alarm(c: Charger, word: u16) -> Charger
    ensures { result ≡ alarm_set c word }
{
    let alarm = words::is_alarm(word);
    Charger {
        current: remark(alarm, c.current),
        voltage: remark(alarm, c.voltage),
        hold: alarm,
        ..c
    }
}

// A tick adds 1 to an age below 175.
fn older(age: u16) -> u16
    ensures { result ≡ rules.older age }
{
    if age < 175 { age + 1 } else { age }
}

// A request whose age is 175 after a tick becomes 0.
#[tactic(auto, unfolding(crate::specs::ByEvent::aged))]
fn age_one(q: Request) -> Request
    ensures { result ≡ aged q }
{
    let age = older(q.age);
    Request {
        word: if age == 175 { 0 } else { q.word },
        age,
        ..q
    }
}

// A tick: each request has an age of its own, and so has wake-up.
#[tactic(auto, unfolding(crate::specs::ByEvent::ticked))]
fn age_all(c: Charger) -> Charger
    ensures { result ≡ ticked c }
{
    Charger {
        current: age_one(c.current),
        voltage: age_one(c.voltage),
        wake: Wake {
            age: older(c.wake.age),
            ..c.wake
        },
        ..c
    }
}

// 0x12, bit 3: the request becomes 0, its age and mark stay.
fn zero_if(zeroes: bool, q: Request) -> Request
    ensures { result ≡ zeroed zeroes q }
{
    if zeroes { Request { word: 0, ..q } } else { q }
}

// POR_RESET is looked at first: a fresh start, and no inhibit.
#[tactic(auto, unfolding(crate::specs::ByEvent::mode_set, crate::specs::ByEvent::fresh_if))]
fn take_mode(c: Charger, word: u16) -> Charger
    ensures { result ≡ mode_set c word }
{
    let reset = words::bit(word, 2);
    let zeroes = words::bit(word, 3);
    let zeroed = Charger {
        current: zero_if(zeroes, c.current),
        voltage: zero_if(zeroes, c.voltage),
        wake: spend_if(zeroes, c.wake),
        inhibit: if reset { false } else { words::bit(word, 0) },
        ..c
    };
    fresh_if(reset, zeroed)
}

// The machine after an accepted ChargingCurrent word, from the host or a bay, before it settles. It and `set_voltage`
// differ in the field alone, which no type parameter can name; what they share is `ask_beside`.
#[tactic(auto, unfolding(crate::specs::ByEvent::current_set), using(crate::proofs::ByEvent::on_current))]
pub fn set_current(m: Machine, word: u16) -> Machine
    ensures { result ≡ act m (event.HostWrite 0x12 0x14 word) }
{
    let charger = Charger {
        current: ask(word),
        ..ask_beside(m.charger.voltage, m.charger)
    };
    machine::with_charger(m, charger)
}

// The machine after an accepted ChargingVoltage word, from the host or a bay, before it settles.
#[tactic(auto, unfolding(crate::specs::ByEvent::voltage_set), using(crate::proofs::ByEvent::on_voltage))]
pub fn set_voltage(m: Machine, word: u16) -> Machine
    ensures { result ≡ act m (event.HostWrite 0x12 0x15 word) }
{
    let charger = Charger {
        voltage: ask(word),
        ..ask_beside(m.charger.current, m.charger)
    };
    machine::with_charger(m, charger)
}

// The machine after an accepted AlarmWarning word, from the host or a bay, before it settles. It, `set_mode` and `tick`
// are a line each: the event that each promises is its own.
#[tactic(auto, using(crate::proofs::ByEvent::on_alarm))]
pub fn set_alarm(m: Machine, word: u16) -> Machine
    ensures { result ≡ act m (event.HostWrite 0x12 0x16 word) }
{
    machine::with_charger(m, take_alarm(m.charger, word))
}

// The machine after a ChargerMode word, before it settles.
#[tactic(auto, using(crate::proofs::ByEvent::on_mode))]
pub fn set_mode(m: Machine, word: u16) -> Machine
    ensures { result ≡ act m (event.HostWrite 0x12 0x12 word) }
{
    machine::with_charger(m, take_mode(m.charger, word))
}

// The machine after a tick, before it settles.
#[tactic(auto, using(crate::proofs::ByEvent::on_tick))]
pub fn tick(m: Machine) -> Machine
    ensures { result ≡ act m event.Tick }
{
    machine::with_charger(m, age_all(m.charger))
}

// AC and the CHARGE bay are present, its signal allows requested charge or, to wake a pack, wake-up; no inhibit, no
// hold. Which of the two is a truth value, known at each call: other forms cost 9 to 40 % of a record
// (docs/DECISIONS.md, "What a class allows").
#[tactic(auto, unfolding(model::specs::Reads::ready, model::specs::Board::allows, model::specs::Board::allows_to_wake))]
fn is_ready(wake: bool, m: Machine) -> bool
    ensures { result ≡ ready (λ reading. if wake then allows_to_wake reading else allows reading) m }
{
    let bays = m.bays;
    let bay = machine::named_bay(bays, m.selector.charge);
    let reading = bay.reading;
    let class = board::class_read(reading);
    m.ac & bay.present & board::is_allowed(wake, class) & !m.charger.inhibit & !m.charger.hold
}

// Ready for requested charge, and both requests are there.
#[tactic(auto, unfolding(model::specs::Reads::charging))]
fn is_charging(m: Machine) -> bool
    ensures { result ≡ charging m }
{
    is_ready(false, m) & (m.charger.current.word != 0) & (m.charger.voltage.word != 0)
}

// Ready for wake-up, which is switched on and not spent, and its 175th tick is still to come.
#[tactic(auto, unfolding(model::specs::Reads::waking))]
fn is_waking(m: Machine) -> bool
    ensures { result ≡ waking m }
{
    is_ready(true, m)
        & (m.setup.wake.milliamps != 0)
        & !m.charger.wake.spent
        & (m.charger.wake.age < 175)
}

// The charge output: both requests cut to the limits, the wake pair, or 0 mA and 0 mV.
#[inline(always)]
#[tactic(auto, unfolding(model::specs::Reads::output))]
pub fn output_of(m: Machine) -> Output
    ensures { result ≡ output m }
{
    if is_charging(m) {
        Output {
            milliamps: board::limit(m.setup.current, m.charger.current.word),
            millivolts: board::limit(m.setup.voltage, m.charger.voltage.word),
        }
    } else if is_waking(m) {
        m.setup.wake
    } else {
        Output {
            milliamps: 0,
            millivolts: 0,
        }
    }
}

// Whether a request is above the largest value, 65535 too.
#[tactic(auto, unfolding(model::specs::Reads::above_largest))]
fn is_above(l: Limit, request: u16) -> bool
    ensures { result ≡ above_largest l request }
{
    (l.largest < request) | (request == 65535)
}

// Status bits 8 to 11 of the CHARGE bay; over range when it is none or absent.
#[tactic(auto, unfolding(model::specs::Reads::signal_bits))]
fn signal_bits(bay: Bay) -> u16
    ensures { (result ≡ signal_bits bay) × (result ≤ 0x0F00) }
{
    let reading = bay.reading;
    if bay.present {
        board::class_bits(board::class_read(reading))
    } else {
        0x0300
    }
}

// The ChargerStatus word that the host reads.
#[tactic(auto, unfolding(model::specs::Reads::status_word))]
pub fn status_word(m: Machine) -> u16
    ensures { result ≡ status_word m }
{
    let bays = m.bays;
    let bay = machine::named_bay(bays, m.selector.charge);
    words::flag(m.charger.inhibit, 0x1)
        + 0x10
        + words::flag(is_above(m.setup.current, m.charger.current.word), 0x40)
        + words::flag(is_above(m.setup.voltage, m.charger.voltage.word), 0x80)
        + signal_bits(bay)
        + words::flag(m.charger.hold, 0x1000)
        + words::flag(bay.present, 0x4000)
        + words::flag(m.ac, 0x8000)
}
