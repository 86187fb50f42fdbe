// The rows of the table. The first letter of a row says what it is; the numbers in it, in decimal or hexadecimal, say
// the rest. Words are for people, but for the last, whose first letter says which event stands behind something else.
use crate::registers::{Change, Register};
use model::{Event, Limit, Output, Setup};

// A row has no more numbers; further ones are passed over.
const MOST_NUMBERS: usize = 12;

// What a row asks for.
#[derive(Clone, Copy, Debug, PartialEq, Eq)]
pub enum Case {
    // Power-on.
    Start(Setup),
    // An event, so many times, and once at least.
    Step {
        event: Event,
        times: u32,
    },
    // An event at the machine with another value in a register.
    Handed {
        change: Change,
        event: Event,
    },
    // The record at the front of so many of these bytes, and all of them run as a log.
    Read {
        bytes: [u8; MOST_NUMBERS],
        count: usize,
    },
    // The record of an event, at a place of a log of that size.
    Write {
        size: usize,
        place: usize,
        event: Event,
    },
}

impl Case {
    // None if no case has the row's first letter.
    pub(crate) fn of_row(row: &[u8]) -> Option<Case> {
        let letter = *row.first()?;
        let found = Found::in_row(row);
        let mut numbers = Numbers { rest: &found.of };
        let case = match letter {
            b's' => Case::Start(setup_of(&mut numbers)),
            b'h' => Case::Handed {
                change: change_of(&mut numbers),
                event: event_behind(row, &mut numbers),
            },
            b'l' => Case::Read {
                bytes: found.of.map(low_byte),
                count: found.count,
            },
            b'f' => Case::Write {
                size: numbers.number() as usize,
                place: numbers.number() as usize,
                event: event_behind(row, &mut numbers),
            },
            b't' => Case::Step {
                event: Event::Tick,
                times: numbers.number(),
            },
            _ => Case::Step {
                event: event_of(letter, &mut numbers)?,
                times: 1,
            },
        };
        Some(case)
    }
}

// How many numbers a row has, and which, with zeros behind them. An array of a fixed size: no heap can run out.
#[derive(Clone, Copy, Debug, PartialEq, Eq)]
struct Found {
    pub of: [u32; MOST_NUMBERS],
    pub count: usize,
}

impl Found {
    fn in_row(row: &[u8]) -> Found {
        let mut of = [0; MOST_NUMBERS];
        let mut count = 0;
        for number in row.split(is_space).filter_map(number_in) {
            if count < MOST_NUMBERS {
                of[count] = number;
                count += 1;
            }
        }
        Found { of, count }
    }
}

// The numbers of a row, in their order, and zeros behind them.
#[derive(Drop)]
struct Numbers<'a> {
    rest: &'a [u32],
}

impl Numbers<'_> {
    // The next one.
    fn number(&mut self) -> u32 {
        let Some((&number, rest)) = self.rest.split_first() else {
            return 0;
        };
        self.rest = rest;
        number
    }

    // The next one without what does not fit into 16 bits.
    fn word(&mut self) -> u16 {
        low_word(self.number())
    }

    // The next one without what does not fit into 8 bits.
    fn byte(&mut self) -> u8 {
        low_byte(self.number())
    }
}

pub(crate) fn low_word(n: u32) -> u16 {
    (n & 0xffff) as u16
}

fn low_byte(n: u32) -> u8 {
    (n & 0xff) as u8
}

fn is_space(b: &u8) -> bool {
    *b == b' '
}

// The number that a word of a row gives, if it is one, without what does not fit into 32 bits. It is in decimal, and in
// hexadecimal behind an x, which stands for a digit 0.
fn number_in(word: &[u8]) -> Option<u32> {
    let (&first, others) = word.split_first()?;
    let mut number = char::from(first).to_digit(10)?;
    let mut radix = 10;
    for &b in others {
        let (digit, next) = match b {
            b'x' => (0, 16),
            _ => (char::from(b).to_digit(radix)?, radix),
        };
        number = number.wrapping_mul(radix).wrapping_add(digit);
        radix = next;
    }
    Some(number)
}

fn setup_of(numbers: &mut Numbers) -> Setup {
    Setup {
        supported: numbers.word(),
        current: Limit {
            largest: numbers.word(),
            safe: numbers.word(),
        },
        voltage: Limit {
            largest: numbers.word(),
            safe: numbers.word(),
        },
        low: numbers.word(),
        restart: numbers.word(),
        wake: Output {
            milliamps: numbers.word(),
            millivolts: numbers.word(),
        },
    }
}

// A register and its value, or a bay's register, the bay and its value.
fn change_of(numbers: &mut Numbers) -> Change {
    let register = Register::try_from(numbers.number()).ok();
    let is_of_bay = register.is_some_and(|r| r.is_of_bay());
    Change {
        register,
        bay: if is_of_bay {
            numbers.number() as usize
        } else {
            0
        },
        value: numbers.number(),
    }
}

// The event that the last word of a row begins; a tick if it begins none.
fn event_behind(row: &[u8], numbers: &mut Numbers) -> Event {
    row.split(is_space)
        .filter_map(|word| word.first())
        .filter(|b| !b.is_ascii_digit())
        .last()
        .and_then(|letter| event_of(*letter, numbers))
        .unwrap_or(Event::Tick)
}

// The event that this letter begins.
fn event_of(letter: u8, numbers: &mut Numbers) -> Option<Event> {
    let event = match letter {
        b'w' => Event::HostWrite {
            address: numbers.byte(),
            code: numbers.byte(),
            word: numbers.word(),
        },
        b'r' => Event::HostRead {
            address: numbers.byte(),
            code: numbers.byte(),
        },
        b'b' => Event::BayWord {
            bay: numbers.byte(),
            code: numbers.byte(),
            word: numbers.word(),
        },
        b'i' => Event::Insertion {
            bay: numbers.byte(),
        },
        b'p' => Event::Removal {
            bay: numbers.byte(),
        },
        b'o' => Event::Signal {
            bay: numbers.byte(),
            ohms: numbers.number(),
        },
        b'v' => Event::Terminal {
            bay: numbers.byte(),
            millivolts: numbers.word(),
        },
        b'a' => Event::Ac {
            present: numbers.number() == 1,
        },
        b't' => Event::Tick,
        _ => return None,
    };
    Some(event)
}
