// Numbers as the arguments of a program and the words of a text give them.
#![tactic(auto)]

ghost use Rattle.std.specs.Prelude.{◌≡◌, ◌+◌, ◌*◌, ◌≤◌, min};
ghost use Rattle.spelling.specs.Numbers.{digit_in, spelled, marked, number_in};
ghost use Rattle.figures.specs.Figures.{value_of, word_for, no_figure, figure_of};

pub mod promises;

// The number that a word spells, in decimal digits or in hexadecimal ones behind `0x`.
pub fn number_in(word: &[u8]) -> Option<u64>
    ensures { result ≡ value_of (number_in word.now) }
{
    if is_marked(word) {
        digits_in(&word[2..], 16)
    } else {
        digits_in(word, 10)
    }
}

// The number that a text spells in decimal digits, as a number of a setup. For a number above 65535 the word `beyond` stands, which has
// to be one that its place in a setup refuses as it would that number.
pub fn figure_in(text: &[u8], beyond: u16) -> Option<u16>
    ensures { result ≡ figure_of beyond text.now }
{
    let value = digits_in(text, 10)?;
    Some(word_of(value, beyond))
}

// No number: what is answered for an argument that cannot be read as one.
pub fn no_figure() -> Option<u16>
    ensures { result ≡ no_figure }
{
    None
}

// Whether a word begins with `0x`.
fn is_marked(word: &[u8]) -> bool
    ensures { result ≡ marked word.now }
{
    word.starts_with(b"0x")
}

// The number that digits of a base spell.
fn digits_in(text: &[u8], base: u64) -> Option<u64>
    requires { (1 ≤ base) × (base ≤ 16) }
    ensures { result ≡ value_of (spelled base text.now) }
{
    let mut value = 0;
    for b in text {
        let d = digit_in(*b);
        if base <= d {
            return None;
        }
        value = with_digit(value, base, d);
    }
    if text.is_empty() { None } else { Some(value) }
}

// The number with one digit more.
fn with_digit(value: u64, base: u64, d: u64) -> u64
    requires { (value ≤ 4294967296) × (base ≤ 16) × (d ≤ 16) }
    ensures { result ≡ min (value * base + d) 4294967296 }
{
    (value * base + d).min(4294967296)
}

// The digit that a byte stands for, 16 if it stands for none.
#[tactic(auto, unfolding(spelling::specs::Numbers::digit_in))]
fn digit_in(b: u8) -> u64
    ensures { result ≡ digit_in b }
{
    match b {
        b'0'..=b'9' => (b - 48) as u64,
        b'A'..=b'F' => (b - 55) as u64,
        b'a'..=b'f' => (b - 87) as u64,
        _ => 16,
    }
}

// A number as a word, and another word for one that is too large.
#[tactic(auto, unfolding(crate::specs::Figures::word_for))]
fn word_of(value: u64, beyond: u16) -> u16
    ensures { result ≡ word_for beyond value }
{
    u16::try_from(value).unwrap_or(beyond)
}
