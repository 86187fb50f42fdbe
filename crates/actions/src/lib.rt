// What an event comes to: the decision that chooses an action or a refusal, and the action itself.
#![tactic(auto)]

ghost use Rattle.std.specs.Prelude.{◌≡◌};
ghost use Rattle.model.specs.declared.Answer.TheVariants as answer;
ghost use Rattle.model.specs.declared.Event.TheVariants as event;
ghost use Rattle.model.specs.Numbers.{said};
ghost use Rattle.model.specs.Step.{told};
ghost use Rattle.actions.specs.Meaning.{meant, meant_by, finished, accepts};
ghost use Rattle.actions.specs.Decision.{chosen, sender_at, word_from_bay, action_at_bay, decided};

use model::{Answer, Event, Machine, Refusal, Stepped};

// One action for each register and each thing that can happen, with what it needs; or the refusal.
#[derive(Clone, Copy, Debug, PartialEq, Eq)]
pub enum Action {
    SetCurrent(u16),
    SetVoltage(u16),
    SetAlarm(u16),
    SetMode(u16),
    SetState(u16),
    SetPresets(u16),
    ReadSpec,
    ReadStatus,
    ReadState,
    ReadPresets,
    ReadInfo,
    Insert(u8),
    Remove(u8),
    TakeSignal { bay: u8, ohms: u32 },
    TakeTerminal { bay: u8, millivolts: u16 },
    SetAc(bool),
    Age,
    Refuse(Refusal),
}

// Who sends a word: a host that writes, a host that reads, the CHARGE bay while it holds a pack, any other bay.
#[derive(Clone, Copy, Debug, PartialEq, Eq)]
enum Sender {
    HostWrites,
    HostReads,
    ChargeBay,
    OtherBay,
}

// The charger's address, to which bays send their words.
const CHARGER: u8 = 0x12;

// The one decision over sender, address and code: the register's action, or refusal 3. A word that exists gets refusal 4 from
// a bay that is not the CHARGE bay, or holds no pack.
#[inline(always)]
#[tactic(auto, unfolding(crate::specs::Decision::chosen))]
fn choose(sender: Sender, address: u8, code: u8, word: u16) -> Action
    ensures { result ≡ chosen sender address code word }
{
    match (sender, address, code) {
        (Sender::HostWrites, 0x12, 0x12) => Action::SetMode(word),
        (Sender::HostWrites | Sender::ChargeBay, 0x12, 0x14) => Action::SetCurrent(word),
        (Sender::HostWrites | Sender::ChargeBay, 0x12, 0x15) => Action::SetVoltage(word),
        (Sender::HostWrites | Sender::ChargeBay, 0x12, 0x16) => Action::SetAlarm(word),
        (Sender::HostWrites, 0x14, 0x01) => Action::SetState(word),
        (Sender::HostWrites, 0x14, 0x02) => Action::SetPresets(word),
        (Sender::HostReads, 0x12, 0x11) => Action::ReadSpec,
        (Sender::HostReads, 0x12, 0x13) => Action::ReadStatus,
        (Sender::HostReads, 0x14, 0x01) => Action::ReadState,
        (Sender::HostReads, 0x14, 0x02) => Action::ReadPresets,
        (Sender::HostReads, 0x14, 0x04) => Action::ReadInfo,
        (Sender::OtherBay, 0x12, 0x14 | 0x15 | 0x16) => Action::Refuse(Refusal::NotChargingBay),
        _ => Action::Refuse(Refusal::NoSuchWord),
    }
}

// A bay as a sender: whether it is the CHARGE bay and holds a pack.
#[inline(always)]
#[tactic(auto, unfolding(crate::specs::Decision::sender_at))]
fn sender_of(m: Machine, b: u8) -> Sender
    ensures { result ≡ sender_at m b }
{
    let bays = m.bays;
    if machine::is_present(bays, b) & words::names(m.selector.charge, b) {
        Sender::ChargeBay
    } else {
        Sender::OtherBay
    }
}

// A bay's word: 2 where the bay is not supported, then the decision.
#[inline(always)]
#[tactic(auto, unfolding(crate::specs::Decision::word_from_bay))]
fn from_bay(m: Machine, b: u8, code: u8, word: u16) -> Action
    ensures { result ≡ word_from_bay m b code word }
{
    if machine::is_supported(m.setup, b) {
        choose(sender_of(m, b), CHARGER, code, word)
    } else {
        Action::Refuse(Refusal::UnsupportedBay)
    }
}

// An action at a bay that has to hold a pack, or has to be empty: 2 where the bay is not supported, then 9. Which is a
// truth value: one comparison, where two functions would differ in a `not`.
#[inline(always)]
#[tactic(auto, unfolding(crate::specs::Decision::action_at_bay))]
fn at_bay(m: Machine, b: u8, full: bool, then: Action) -> Action
    ensures { result ≡ action_at_bay m b full then }
{
    let bays = m.bays;
    if !machine::is_supported(m.setup, b) {
        Action::Refuse(Refusal::UnsupportedBay)
    } else if machine::is_present(bays, b) != full {
        Action::Refuse(Refusal::WrongPresence)
    } else {
        then
    }
}

// What an event comes to on a good machine: its action, or refusal 2, 3, 4 or 9. 5 to 8 are tried where a word of the selector is taken.
#[inline(always)]
pub fn decide(m: Machine, e: Event) -> Action
    ensures { result ≡ decided m e }
{
    match e {
        Event::HostWrite {
            address,
            code,
            word,
        } => choose(Sender::HostWrites, address, code, word),
        Event::HostRead { address, code } => choose(Sender::HostReads, address, code, 0),
        Event::BayWord { bay, code, word } => from_bay(m, bay, code, word),
        Event::Insertion { bay } => at_bay(m, bay, false, Action::Insert(bay)),
        Event::Removal { bay } => at_bay(m, bay, true, Action::Remove(bay)),
        Event::Signal { bay, ohms } => at_bay(m, bay, true, Action::TakeSignal { bay, ohms }),
        Event::Terminal { bay, millivolts } => {
            at_bay(m, bay, true, Action::TakeTerminal { bay, millivolts })
        }
        Event::Ac { present } => Action::SetAc(present),
        Event::Tick => Action::Age,
    }
}

// Done, beside the machine. The three answers are a line each: one function of answer and machine would be the struct
// itself.
#[inline(always)]
fn done(machine: Machine) -> Stepped
    ensures { result ≡ record { answer = answer.Done; machine = machine } }
{
    Stepped {
        answer: Answer::Done,
        machine,
    }
}

// A word that was read, beside the machine.
#[inline(always)]
fn show(machine: Machine, word: u16) -> Stepped
    ensures { result ≡ record { answer = answer.Word word; machine = machine } }
{
    Stepped {
        answer: Answer::Word(word),
        machine,
    }
}

// A refusal leaves the machine as it stood.
#[inline(always)]
pub fn refuse(machine: Machine, why: Refusal) -> Stepped
    ensures { result ≡ record { answer = answer.Refused why; machine = machine } }
{
    Stepped {
        answer: Answer::Refused(why),
        machine,
    }
}

// A SelectorState word: 5, 6, 7, 8, or its action.
#[inline(always)]
#[tactic(auto, unfolding(model::specs::Step::told), using(crate::proofs::Faults::on_state))]
fn write_state(m: Machine, word: u16) -> Stepped
    ensures { told result ≡ meant m (event.HostWrite 0x14 0x01 word) }
{
    if !selector::is_state_formed(m.setup, word) {
        refuse(m, Refusal::BadNibble)
    } else if selector::is_smb_elsewhere(word) {
        refuse(m, Refusal::SmbElsewhere)
    } else if selector::is_not_usable(m, word) {
        refuse(m, Refusal::NotUsable)
    } else if selector::is_same_bay(m, word) {
        refuse(m, Refusal::SameBay)
    } else {
        done(selector::set_state(m, word))
    }
}

// A SelectorPresets word: 5, or its action.
#[inline(always)]
#[tactic(auto, unfolding(model::specs::Step::told), using(crate::proofs::Faults::on_presets))]
fn write_presets(m: Machine, word: u16) -> Stepped
    ensures { told result ≡ meant m (event.HostWrite 0x14 0x02 word) }
{
    if selector::is_presets_formed(m.setup, word) {
        done(selector::set_presets(m, word))
    } else {
        refuse(m, Refusal::BadNibble)
    }
}

// The action, before the machine settles.
#[inline(always)]
#[tactic(auto, unfolding(model::specs::Step::told, crate::specs::Meaning::meant_by))]
pub fn perform(m: Machine, a: Action) -> Stepped
    ensures { told result ≡ meant_by m a }
{
    match a {
        Action::SetCurrent(word) => done(charger::set_current(m, word)),
        Action::SetVoltage(word) => done(charger::set_voltage(m, word)),
        Action::SetAlarm(word) => done(charger::set_alarm(m, word)),
        Action::SetMode(word) => done(charger::set_mode(m, word)),
        Action::SetState(word) => write_state(m, word),
        Action::SetPresets(word) => write_presets(m, word),
        Action::ReadSpec => show(m, 0x0002),
        Action::ReadStatus => show(m, charger::status_word(m)),
        Action::ReadState => show(machine::with_notice(m, false), selector::state_word(m)),
        Action::ReadPresets => show(m, selector::presets_word(m)),
        Action::ReadInfo => show(m, selector::info_word(m)),
        Action::Insert(bay) => done(bays::insert(m, bay)),
        Action::Remove(bay) => done(bays::remove(m, bay)),
        Action::TakeSignal { bay, ohms } => done(bays::read_signal(m, bay, ohms)),
        Action::TakeTerminal { bay, millivolts } => done(bays::read_terminal(m, bay, millivolts)),
        Action::SetAc(present) => done(bays::set_ac(m, present)),
        Action::Age => done(charger::tick(m)),
        Action::Refuse(why) => refuse(m, why),
    }
}

// Whether an answer is no refusal.
#[inline(always)]
pub fn is_accepted(a: Answer) -> bool
    ensures { result ≡ accepts (said a) }
{
    !matches!(a, Answer::Refused(_))
}

// An accepted event lets the machine settle; a refused one leaves it as it stood.
#[inline(always)]
#[tactic(auto, unfolding(model::specs::Step::told, crate::specs::Meaning::finished))]
pub fn finish(t: Stepped) -> Stepped
    ensures { told result ≡ finished (told t) }
{
    if is_accepted(t.answer) {
        Stepped {
            machine: selector::settle(t.machine),
            ..t
        }
    } else {
        t
    }
}
