// Which setups and machines are refused, the bays of a machine, and a machine with one part anew.
#![tactic(auto)]

ghost use Rattle.std.specs.Prelude.{◌≡◌, cond};
ghost use Rattle.model.specs.Bays.{empty_bay, bay_named};
ghost use Rattle.model.specs.Machines.{with_bays, with_charger, with_notice};
ghost use Rattle.model.specs.Reads.{present_nibble};
ghost use Rattle.model.specs.Refusals.{supports, one_bay, good_limit, good_wake, good_setup, was_read, stray_bay, stray_bays, stray_nibble, over_age, bad_machine};
ghost use Rattle.machine.specs.ByNumber.{bay_in};

use model::{Bay, Charger, Limit, Machine, Setup};

// Whether 1 <= safe <= largest <= 65534.
#[tactic(auto, unfolding(model::specs::Refusals::good_limit))]
fn is_good_limit(l: Limit) -> bool
    ensures { result ≡ good_limit l }
{
    (1 <= l.safe) & (l.safe <= l.largest) & (l.largest <= 65534)
}

// Whether the wake current is at most 100 and the safe current, and the wake voltage from 1 to the safe voltage.
#[tactic(auto, unfolding(model::specs::Refusals::good_wake))]
fn is_good_wake(s: Setup) -> bool
    ensures { result ≡ good_wake s }
{
    (s.wake.milliamps <= 100)
        & (s.wake.milliamps <= s.current.safe)
        & (1 <= s.wake.millivolts)
        & (s.wake.millivolts <= s.voltage.safe)
}

// Whether a setup is in its ranges: refusal 1 where it is not.
#[tactic(auto, unfolding(model::specs::Refusals::good_setup))]
pub fn is_good_setup(s: Setup) -> bool
    ensures { result ≡ good_setup s }
{
    let n = s.supported;
    ((n == 1) | (n == 3) | (n == 7) | (n == 15))
        & is_good_limit(s.current)
        & is_good_limit(s.voltage)
        & ((0 < s.low) & (s.low < s.restart) & (s.restart <= 65535))
        & is_good_wake(s)
}

// Whether a bay is one of the four, and supported.
#[tactic(auto, unfolding(model::specs::Refusals::supports))]
pub fn is_supported(s: Setup, b: u8) -> bool
    ensures { result ≡ supports s b }
{
    (b < 4) & words::bit(s.supported, b as u16)
}

// Whether a nibble of a word is 0 or one supported bay.
#[tactic(auto, unfolding(model::specs::Refusals::one_bay))]
pub fn is_one_bay(s: Setup, n: u16) -> bool
    ensures { result ≡ one_bay s n }
{
    (n == 0) | (words::is_named(n) & is_supported(s, words::bay_number(n)))
}

// Whether there is a reading.
fn was_read(reading: Option<u32>) -> bool
    ensures { result ≡ was_read reading }
{
    reading.is_some()
}

// Whether a bay is present and not supported, or absent with something left of a pack.
#[tactic(auto, unfolding(model::specs::Refusals::stray_bay))]
fn is_stray_bay(s: Setup, b: u8, bay: Bay) -> bool
    ensures { result ≡ stray_bay s b bay }
{
    let reading = bay.reading;
    (bay.present & !is_supported(s, b)) | (!bay.present & (bay.ok | bay.low | was_read(reading)))
}

// Whether one of the four is such a bay.
#[tactic(auto, unfolding(model::specs::Refusals::stray_bays, model::specs::Bays::bay_at))]
fn are_stray_bays(s: Setup, bays: [Bay; 4]) -> bool
    ensures { result ≡ stray_bays s bays }
{
    let [a, b, c, d]: [bool; 4] = std::array::from_fn(|k| is_stray_bay(s, k as u8, bays[k]));
    a | b | c | d
}

// Whether a nibble of the selector is neither 0 nor one supported bay: by its lowest bit, since it is asked at every step.
#[tactic(auto, unfolding(model::specs::Refusals::stray_nibble), using(crate::proofs::Nibbles::one_supported))]
fn has_stray_nibble(m: Machine) -> bool
    ensures { result ≡ stray_nibble m }
{
    let supported = m.setup.supported;
    !words::is_one_of(supported, m.selector.smb)
        | !words::is_one_of(supported, m.selector.power)
        | !words::is_one_of(supported, m.selector.charge)
        | !words::is_one_of(supported, m.selector.next)
}

// Whether an age is above 175.
#[tactic(auto, unfolding(model::specs::Refusals::over_age))]
fn is_over_age(m: Machine) -> bool
    ensures { result ≡ over_age m }
{
    (175 < m.charger.current.age) | (175 < m.charger.voltage.age) | (175 < m.charger.wake.age)
}

// Whether a machine that is handed in breaks a bound: refusal 15.
#[tactic(auto, unfolding(model::specs::Refusals::bad_machine))]
pub fn is_bad(m: Machine) -> bool
    ensures { result ≡ bad_machine m }
{
    let bays = m.bays;
    !is_good_setup(m.setup) | has_stray_nibble(m) | is_over_age(m) | are_stray_bays(m.setup, bays)
}

// A bay that holds no pack.
pub fn empty_bay() -> Bay
    ensures { result ≡ empty_bay }
{
    Bay {
        present: false,
        ok: false,
        low: false,
        reading: None,
    }
}

// The bay that a nibble names, an empty one where it names none.
#[tactic(auto, unfolding(model::specs::Bays::bay_named, model::specs::Bays::bay_at, model::specs::Words::named, model::specs::Words::bay_number))]
pub fn named_bay(bays: [Bay; 4], n: u16) -> Bay
    ensures { result ≡ bay_named bays n }
{
    match n {
        1 => bays[0],
        2 => bays[1],
        4 => bays[2],
        8 => bays[3],
        _ => empty_bay(),
    }
}

// The bays that hold a pack, as a mask.
#[tactic(auto, unfolding(model::specs::Reads::present_nibble, model::specs::Bays::bay_at))]
pub fn present_nibble(bays: [Bay; 4]) -> u16
    ensures { result ≡ present_nibble bays }
{
    let [a, b, c, d]: [bool; 4] = bays.map(|bay| bay.present);
    words::mask(a, b, c, d)
}

// Whether bay b holds a pack.
#[tactic(auto, using(crate::proofs::Nibbles::present_in))]
pub fn is_present(bays: [Bay; 4], b: u8) -> bool
    ensures { result ≡ (bay_in bays b).present }
{
    words::bit(present_nibble(bays), b as u16)
}

// The setters assign: `Machine { bays, ..m }` proves too, but takes 12 to 15 % more instructions of a step.

// The machine with its bays anew.
pub fn with_bays(mut m: Machine, bays: [Bay; 4]) -> Machine
    ensures { result ≡ with_bays m bays }
{
    m.bays = bays;
    m
}

// The machine with its charger anew.
pub fn with_charger(mut m: Machine, charger: Charger) -> Machine
    ensures { result ≡ with_charger m charger }
{
    m.charger = charger;
    m
}

// The machine with its notice anew.
pub fn with_notice(mut m: Machine, notice: bool) -> Machine
    ensures { result ≡ with_notice m notice }
{
    m.notice = notice;
    m
}
