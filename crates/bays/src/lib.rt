// What happens at a bay: a pack put in or pulled, its signal, its terminal voltage. And AC coming and going.
#![tactic(auto)]

ghost use Rattle.std.specs.Prelude.{◌≡◌, cond};
ghost use Rattle.model.specs.declared.Event.TheVariants as event;
ghost use Rattle.model.specs.Machines.{act};
ghost use Rattle.bays.specs.ByEvent.{new_pack, with_bay, swapped, signal_read, with_signal, terminal_read, with_terminal};

use model::{Bay, Machine, Setup};

// A bay whose pack was just put in.
#[inline(always)]
fn new_pack() -> Bay
    ensures { result ≡ new_pack }
{
    Bay {
        present: true,
        ok: true,
        low: false,
        reading: None,
    }
}

// The bays with another at number b, all as they are where there is no such bay.
#[inline(always)]
#[tactic(auto, unfolding(crate::specs::ByEvent::with_bay, model::specs::Bays::bay_at))]
fn put_bay(bays: [Bay; 4], b: u8, bay: Bay) -> [Bay; 4]
    ensures { result ≡ with_bay bays b bay }
{
    std::array::from_fn(|k| if b as usize == k { bay } else { bays[k] })
}

// A machine whose bay b now holds another pack or none.
#[inline(always)]
#[tactic(auto, unfolding(crate::specs::ByEvent::swapped))]
fn swap(mut m: Machine, b: u8, bay: Bay) -> Machine
    ensures { result ≡ swapped m b bay }
{
    m.bays = put_bay(m.bays, b, bay);
    m.charger = charger::fresh_if(words::names(m.selector.charge, b), m.charger);
    m.notice = true;
    m
}

// The machine after a pack was put in, before it settles.
#[inline(always)]
#[tactic(auto, using(crate::proofs::ByEvent::on_insertion))]
pub fn insert(m: Machine, b: u8) -> Machine
    ensures { result ≡ act m (event.Insertion b) }
{
    swap(m, b, new_pack())
}

// The machine after a pack was pulled, before it settles.
#[inline(always)]
#[tactic(auto, using(crate::proofs::ByEvent::on_removal))]
pub fn remove(m: Machine, b: u8) -> Machine
    ensures { result ≡ act m (event.Removal b) }
{
    swap(m, b, machine::empty_bay())
}

// A bay after a signal was read, here or at another.
#[inline(always)]
fn take_signal(here: bool, bay: Bay, ohms: u32) -> Bay
    ensures { result ≡ signal_read here bay ohms }
{
    Bay {
        reading: if here { Some(ohms) } else { bay.reading },
        ..bay
    }
}

// The bays after a signal was read at bay b, all as they are where there is no such bay.
#[inline(always)]
#[tactic(auto, unfolding(crate::specs::ByEvent::with_signal, model::specs::Bays::bay_at))]
fn put_signal(bays: [Bay; 4], b: u8, ohms: u32) -> [Bay; 4]
    ensures { result ≡ with_signal bays b ohms }
{
    std::array::from_fn(|k| take_signal(b as usize == k, bays[k], ohms))
}

// The machine after a bay's safety signal was read, before it settles.
#[inline(always)]
#[tactic(auto, unfolding(crate::specs::ByEvent::with_signal), using(crate::proofs::ByEvent::on_signal))]
pub fn read_signal(m: Machine, b: u8, ohms: u32) -> Machine
    ensures { result ≡ act m (event.Signal b ohms) }
{
    machine::with_bays(m, put_signal(m.bays, b, ohms))
}

// A bay after a terminal voltage was read, here or at another.
#[inline(always)]
fn take_terminal(here: bool, s: Setup, bay: Bay, millivolts: u16) -> Bay
    ensures { result ≡ terminal_read here s bay millivolts }
{
    let low = if here & (millivolts < s.low) {
        true
    } else if here & (s.restart <= millivolts) {
        false
    } else {
        bay.low
    };
    Bay { low, ..bay }
}

// The bays after a terminal voltage was read at bay b, all as they are where there is no such bay.
#[inline(always)]
#[tactic(auto, unfolding(crate::specs::ByEvent::with_terminal, model::specs::Bays::bay_at))]
fn put_terminal(s: Setup, bays: [Bay; 4], b: u8, millivolts: u16) -> [Bay; 4]
    ensures { result ≡ with_terminal s bays b millivolts }
{
    std::array::from_fn(|k| take_terminal(b as usize == k, s, bays[k], millivolts))
}

// The machine after a bay's terminal voltage was read, before it settles.
#[inline(always)]
#[tactic(auto, unfolding(crate::specs::ByEvent::with_terminal), using(crate::proofs::ByEvent::on_terminal))]
pub fn read_terminal(m: Machine, b: u8, millivolts: u16) -> Machine
    ensures { result ≡ act m (event.Terminal b millivolts) }
{
    machine::with_bays(m, put_terminal(m.setup, m.bays, b, millivolts))
}

// The machine after an AC event, before it settles.
#[inline(always)]
#[tactic(auto, unfolding(crate::specs::ByEvent::ac_set), using(crate::proofs::ByEvent::on_ac))]
pub fn set_ac(mut m: Machine, present: bool) -> Machine
    ensures { result ≡ act m (event.Ac present) }
{
    let goes = m.ac & !present;
    let arrives = !m.ac & present;
    m.charger = charger::arrive_if(arrives, charger::fresh_if(goes, m.charger));
    if arrives {
        m.selector.power = 0;
    }
    m.ac = present;
    m.notice = arrives | goes | m.notice;
    m
}
