// What a 16-bit word holds: single bits, nibbles, and the bays that a nibble names.
#![tactic(auto)]

ghost use Rattle.std.specs.Prelude.{◌≡◌, cond, ◌≤◌};
ghost use Rattle.model.specs.Words as words;
ghost use Rattle.words.specs.Masks.{four, among, one_of, first_in};

// Bit k of a word.
pub fn bit(word: u16, k: u16) -> bool
    ensures { result ≡ words.bit k word }
{
    if k < 16 { (word >> k) & 1 == 1 } else { false }
}

// The nibble of a word whose lowest bit is bit k.
pub fn nibble(word: u16, k: u16) -> u16
    ensures { (result ≡ words.nibble k word) × (result ≤ 15) }
{
    if k < 16 { (word >> k) & 0xF } else { 0 }
}

// A word put together of four nibbles, the highest first.
pub fn put_nibbles(a: u16, b: u16, c: u16, d: u16) -> u16
    ensures { result ≡ words.nibbles a b c d }
{
    ((a & 0xF) << 12) | (((b & 0xF) << 8) | (((c & 0xF) << 4) | (d & 0xF)))
}

// Whether an AlarmWarning word has any of bits 15 to 12 set.
#[tactic(auto, unfolding(model::specs::Words::alarming))]
pub fn is_alarm(word: u16) -> bool
    ensures { result ≡ words.alarming word }
{
    nibble(word, 12) != 0
}

// Whether a nibble names one bay.
#[tactic(auto, using(crate::proofs::OneBit::bit_test))]
pub fn is_named(n: u16) -> bool
    ensures { result ≡ words.named n }
{
    (n < 16) & (n.count_ones() == 1)
}

// The number of the bay that a nibble names, 3 where it names none.
#[tactic(auto, using(crate::proofs::OneBit::bay_place, crate::proofs::OneBit::bay_none))]
pub fn bay_number(n: u16) -> u8
    ensures { result ≡ words.bay_number n }
{
    if is_named(n) {
        n.trailing_zeros() as u8
    } else {
        3
    }
}

// Whether the nibble n names bay b.
#[tactic(auto, unfolding(model::specs::Words::names))]
pub fn names(n: u16, b: u8) -> bool
    ensures { result ≡ words.names n b }
{
    is_named(n) & (b == bay_number(n))
}

// The value a where c holds, else b.
pub fn choose<T: Copy>(c: bool, a: T, b: T) -> T
    ensures { result ≡ cond c a b }
{
    if c { a } else { b }
}

// The value where it is on, else 0.
pub fn flag(on: bool, value: u16) -> u16
    ensures { (result ≡ cond on value 0) × (result ≤ value) }
{
    if on { value } else { 0 }
}

// 1 where it is on, else 0.
fn one(on: bool) -> u16
    ensures { (result ≡ cond on 1 0) × (result ≤ 1) }
{
    u16::from(on)
}

// A mask: bit b says what holds of bay b.
pub fn mask(a: bool, b: bool, c: bool, d: bool) -> u16
    ensures { (result ≡ four a b c d) × (result ≤ 15) }
{
    one(a) + one(b) * 2 + one(c) * 4 + one(d) * 8
}

// The nibble of a mask's first bay by letter, 0 if it has none.
pub fn first_in(mask: u16) -> u16
    ensures { result ≡ first_in mask }
{
    let m = mask & 0xF;
    m & (16 - m)
}

// Whether a nibble is 0 or names a bay whose bit is set in the mask.
#[tactic(auto, using(crate::proofs::Masks::first_one))]
pub fn is_one_of(mask: u16, n: u16) -> bool
    ensures { result ≡ one_of mask n }
{
    mask & first_in(n) == n
}

// Whether a nibble names a bay whose bit is set in the mask.
#[tactic(auto, using(crate::proofs::Masks::some_among))]
pub fn is_among(mask: u16, n: u16) -> bool
    ensures { result ≡ among mask n }
{
    (n != 0) & is_one_of(mask, n)
}
