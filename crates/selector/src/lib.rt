// The selector's words, what is usable, and the three steps that settle a machine.
#![tactic(auto)]

ghost use Rattle.std.specs.Prelude.{◌≡◌, not, ◌&&◌, ◌≤◌, eqb};
ghost use Rattle.model.specs.declared.Event.TheVariants as event;
ghost use Rattle.model.specs.Words.{next_in};
ghost use Rattle.model.specs.Bays.{ok_written, all_ok_written};
ghost use Rattle.model.specs.SelectorRules.{written};
ghost use Rattle.model.specs.Machines.{act};
ghost use Rattle.model.specs.Settling as settling;
ghost use Rattle.model.specs.Reads.{shown_power, state_shown, ok_nibble, shown_next, presets_shown, info_shown};
ghost use Rattle.model.specs.Refusals.{one_bay, formed, state_formed, names_bay, smb_elsewhere, not_usable, same_bay};
ghost use Rattle.words.specs.Masks.{among};
ghost use Rattle.selector.specs.ByMask.{MaskOf, low_nibble, candidate_nibble, follower_nibble, kept_in, taken_from, settled_by};
ghost use Rattle.selector.specs.ByEvent.{kept_charge};

use model::{Bay, Machine, Output, Selector, Setup};

// The lowest bit of each nibble of a SelectorState word that is written, and of USE_NEXT in a SelectorPresets word.
const SMB: u16 = 12;

const POWER_BY: u16 = 8;

const CHARGE: u16 = 4;

const USE_NEXT: u16 = 4;

// The bays that pass a test, as a mask. By index: the mask is put together of four truth values, and here alone.
#[inline(always)]
fn mask_of<F: Fn(Bay) -> bool>(bays: [Bay; 4], test: F) -> u16
    requires { F.IsAlwaysCallable test }
    ensures { MaskOf (F.post test) bays result }
{
    words::mask(test(bays[0]), test(bays[1]), test(bays[2]), test(bays[3]))
}

// The bays that are OK to use.
fn ok_nibble(bays: [Bay; 4]) -> u16
    ensures { result ≡ ok_nibble bays }
{
    mask_of(bays, |bay| bay.ok)
}

// The bays that are low.
fn low_nibble(bays: [Bay; 4]) -> u16
    ensures { (result ≡ low_nibble bays) × (result ≤ 15) }
{
    mask_of(bays, |bay| bay.low)
}

// The bays that are candidates: present, OK and not low. By three masks: one test of all three marks costs 2 to 6 %
// of a step.
fn candidate_nibble(bays: [Bay; 4]) -> u16
    ensures { result ≡ candidate_nibble bays }
{
    machine::present_nibble(bays) & ok_nibble(bays) & (15 - low_nibble(bays))
}

// A nibble that names a bay of the mask, else 0.
fn keep_in(mask: u16, n: u16) -> u16
    ensures { result ≡ kept_in mask n }
{
    if words::is_one_of(mask, n) { n } else { 0 }
}

// The wanted bay if it is in the mask, else the mask's first by letter, else 0.
#[tactic(auto, unfolding(crate::specs::ByMask::taken_from))]
fn take_from(mask: u16, wanted: u16) -> u16
    ensures { result ≡ taken_from mask wanted }
{
    if words::is_among(mask, wanted) {
        wanted
    } else {
        words::first_in(mask)
    }
}

// Enough for the three steps to change nothing: POWER_BY names a candidate, or is 0 beside AC, and SMB is 0 or names a bay that is present.
#[tactic(auto, unfolding(crate::specs::ByMask::settled_by))]
fn is_settled(m: Machine, candidates: u16, present: u16) -> bool
    ensures { result ≡ settled_by m candidates present }
{
    words::is_one_of(candidates, m.selector.power)
        & words::is_one_of(present, m.selector.smb)
        & ((m.selector.power != 0) | m.ac)
}

// The three steps after each accepted event. After most events they change nothing, so that is asked first.
pub fn settle(m: Machine) -> Machine
    ensures { result ≡ settling.settle m }
{
    let bays = m.bays;
    let candidates = candidate_nibble(bays);
    let present = machine::present_nibble(bays);
    if is_settled(m, candidates, present) {
        return m;
    }
    let kept = keep_in(candidates, m.selector.power);
    let unpowered = (kept == 0) & !m.ac;
    let power = words::choose(unpowered, take_from(candidates, m.selector.next), kept);
    let smb = words::choose(
        unpowered & (power != 0),
        power,
        keep_in(present, m.selector.smb),
    );
    Machine {
        selector: Selector {
            smb,
            power,
            ..m.selector
        },
        notice: m.notice | (power != m.selector.power),
        ..m
    }
}

// Whether a nibble of a SelectorState word is 0xF, 0 or one supported bay.
#[tactic(auto, unfolding(model::specs::Refusals::formed))]
fn is_formed(s: Setup, n: u16) -> bool
    ensures { result ≡ formed s n }
{
    (n == 15) | machine::is_one_bay(s, n)
}

// Whether each nibble of a SelectorState word is 0xF, 0 or one supported bay: refusal 5 where not.
#[tactic(auto, unfolding(model::specs::Refusals::state_formed))]
pub fn is_state_formed(s: Setup, word: u16) -> bool
    ensures { result ≡ state_formed s word }
{
    is_formed(s, words::nibble(word, SMB))
        & is_formed(s, words::nibble(word, POWER_BY))
        & is_formed(s, words::nibble(word, CHARGE))
}

// Whether USE_NEXT of a SelectorPresets word is 0 or one supported bay: refusal 5 where not.
pub fn is_presets_formed(s: Setup, word: u16) -> bool
    ensures { result ≡ one_bay s (next_in word) }
{
    machine::is_one_bay(s, words::nibble(word, USE_NEXT))
}

// Whether a nibble of a well-formed SelectorState word names a bay.
fn names_bay(n: u16) -> bool
    ensures { result ≡ names_bay n }
{
    (n != 0) & (n != 15)
}

// Whether POWER_BY names a bay and SMB is not the same: refusal 6.
#[tactic(auto, unfolding(model::specs::Refusals::smb_elsewhere))]
pub fn is_smb_elsewhere(word: u16) -> bool
    ensures { result ≡ smb_elsewhere word }
{
    let p = words::nibble(word, POWER_BY);
    names_bay(p) & (words::nibble(word, SMB) != p)
}

// Whether a bay that the word names, or AC, is not usable: refusal 7.
#[tactic(auto, unfolding(model::specs::Refusals::not_usable), using(crate::proofs::ByMask::present_among, crate::proofs::ByMask::ok_among, crate::proofs::ByMask::candidate_among))]
pub fn is_not_usable(m: Machine, word: u16) -> bool
    ensures { result ≡ not_usable m word }
{
    let bays = m.bays;
    let present = machine::present_nibble(bays);
    let s = words::nibble(word, SMB);
    let p = words::nibble(word, POWER_BY);
    let c = words::nibble(word, CHARGE);
    (names_bay(s) & !words::is_among(present, s))
        | (names_bay(p) & !words::is_among(candidate_nibble(bays), p))
        | (names_bay(c) & !(words::is_among(present, c) & words::is_among(ok_nibble(bays), c)))
        | ((p == 0) & !m.ac)
}

// A nibble of a SelectorState word over the one that stands: 0xF means unchanged.
#[tactic(auto, unfolding(model::specs::SelectorRules::written))]
fn write_over(n: u16, standing: u16) -> u16
    ensures { result ≡ written n standing }
{
    if n == 15 { standing } else { n }
}

// Whether POWER_BY or CHARGE was written and both would name one bay: refusal 8.
#[tactic(auto, unfolding(model::specs::Refusals::same_bay))]
pub fn is_same_bay(m: Machine, word: u16) -> bool
    ensures { result ≡ same_bay m word }
{
    let p = words::nibble(word, POWER_BY);
    let c = words::nibble(word, CHARGE);
    let power = write_over(p, m.selector.power);
    ((p != 15) | (c != 15)) & (power != 0) & (power == write_over(c, m.selector.charge))
}

// The machine after an accepted SelectorState word, before it settles.
#[tactic(auto, unfolding(crate::specs::ByEvent::state_set), using(crate::proofs::ByEvent::on_state))]
pub fn set_state(m: Machine, word: u16) -> Machine
    ensures { result ≡ act m (event.HostWrite 0x14 0x01 word) }
{
    let smb = write_over(words::nibble(word, SMB), m.selector.smb);
    let power = write_over(words::nibble(word, POWER_BY), m.selector.power);
    let charge = write_over(words::nibble(word, CHARGE), m.selector.charge);
    Machine {
        charger: charger::fresh_if(charge != m.selector.charge, m.charger),
        selector: Selector {
            smb,
            power,
            charge,
            ..m.selector
        },
        ..m
    }
}

// Bay b after a SelectorPresets word: the OK mark of an absent bay stays 0.
fn mark_ok(word: u16, b: u16, bay: Bay) -> Bay
    ensures { result ≡ ok_written word b bay }
{
    Bay {
        ok: bay.present & words::bit(word, b),
        ..bay
    }
}

// All four bays after a SelectorPresets word.
#[tactic(auto, unfolding(model::specs::Bays::all_ok_written, model::specs::Bays::bay_at))]
fn mark_bays(bays: [Bay; 4], word: u16) -> [Bay; 4]
    ensures { result ≡ all_ok_written word bays }
{
    std::array::from_fn(|k| mark_ok(word, k as u16, bays[k]))
}

// CHARGE is given up where its bay is present and the word has its OK bit 0.
#[tactic(auto, unfolding(crate::specs::ByEvent::kept_charge), using(crate::proofs::ByMask::present_without))]
fn keep_charge(m: Machine, word: u16) -> u16
    ensures { result ≡ kept_charge m word }
{
    let bays = m.bays;
    let charge = m.selector.charge;
    if words::is_among(machine::present_nibble(bays), charge) & !words::is_among(word, charge) {
        0
    } else {
        charge
    }
}

// The machine after an accepted SelectorPresets word, before it settles.
#[tactic(auto, unfolding(crate::specs::ByEvent::presets_set), using(crate::proofs::ByEvent::on_presets))]
pub fn set_presets(m: Machine, word: u16) -> Machine
    ensures { result ≡ act m (event.HostWrite 0x14 0x02 word) }
{
    let bays = m.bays;
    let kept = keep_charge(m, word);
    let next = words::nibble(word, USE_NEXT);
    Machine {
        bays: mark_bays(bays, word),
        charger: charger::fresh_if(kept != m.selector.charge, m.charger),
        selector: Selector {
            charge: kept,
            next,
            ..m.selector
        },
        ..m
    }
}

// POWER_BY, inverted while the charge output is non-zero.
#[tactic(auto, unfolding(model::specs::Reads::shown_power, model::specs::Reads::flowing), using(crate::proofs::ByMask::low_four_bits))]
fn show_power(m: Machine) -> u16
    ensures { result ≡ shown_power m }
{
    let Output {
        milliamps,
        millivolts,
    } = charger::output_of(m);
    if (milliamps != 0) | (millivolts != 0) {
        15 - words::nibble(m.selector.power, 0)
    } else {
        m.selector.power
    }
}

// The SelectorState word that the host reads.
#[tactic(auto, unfolding(model::specs::Reads::state_shown))]
pub fn state_word(m: Machine) -> u16
    ensures { result ≡ state_shown m }
{
    let bays = m.bays;
    words::put_nibbles(
        m.selector.smb,
        show_power(m),
        m.selector.charge,
        machine::present_nibble(bays),
    )
}

// The candidates other than the power bay.
#[tactic(auto, using(crate::proofs::ByMask::followers, crate::proofs::ByMask::all_follow, crate::proofs::ByMask::named_small))]
fn follower_nibble(m: Machine) -> u16
    ensures { result ≡ follower_nibble m }
{
    let bays = m.bays;
    let candidates = candidate_nibble(bays);
    if words::is_named(m.selector.power) {
        candidates & (15 - m.selector.power)
    } else {
        candidates
    }
}

// USE_NEXT: the wanted bay if it may follow, else the first that may, else 0.
#[tactic(auto, unfolding(model::specs::Reads::shown_next), using(crate::proofs::ByMask::shown_next_lem))]
fn show_next(m: Machine) -> u16
    ensures { result ≡ shown_next m }
{
    take_from(follower_nibble(m), m.selector.next)
}

// The SelectorPresets word that the host reads.
#[tactic(auto, unfolding(model::specs::Reads::presets_shown))]
pub fn presets_word(m: Machine) -> u16
    ensures { result ≡ presets_shown m }
{
    let bays = m.bays;
    words::put_nibbles(0, 0, show_next(m), ok_nibble(bays))
}

// The SelectorInfo word that the host reads.
#[tactic(auto, unfolding(model::specs::Reads::info_shown))]
pub fn info_word(m: Machine) -> u16
    ensures { result ≡ info_shown m }
{
    0x0110 + words::nibble(m.setup.supported, 0)
}
