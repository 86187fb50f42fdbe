// The analogue board's two rules: how a request is limited, and what a reading of the safety signal means.
#![tactic(auto)]

ghost use Rattle.std.specs.Prelude.{◌≡◌, ◌≤◌, if◌then◌else◌};
ghost use Rattle.model.specs.Board.{limited, class_of, class_read, allowed, allowed_to_wake, class_bits};

use model::{Class, Edge, Limit};

// The limit rule: 65535 gives the safe value, any other request is cut at the largest.
#[tactic(auto, unfolding(model::specs::Board::limited))]
pub fn limit(l: Limit, request: u16) -> u16
    ensures { result ≡ limited l request }
{
    if request == 65535 {
        l.safe
    } else {
        request.min(l.largest)
    }
}

// The analogue board's edges in ohms, rising, each with the class of the readings below it that reach the edge before.
const EDGES: [Edge; 4] = [
    Edge(500, Class::Under),
    Edge(3000, Class::Hot),
    Edge(30001, Class::Plain),
    Edge(100001, Class::Cold),
];

// The class of a reading: that of the first edge it does not reach; over range if it reaches them all.
pub fn class_of(ohms: u32) -> Class
    ensures { result ≡ class_of ohms }
{
    for Edge(below, class) in &EDGES {
        if ohms < *below {
            return *class;
        }
    }
    Class::Over
}

// The class of a signal that may be unread.
pub fn class_read(reading: Option<u32>) -> Class
    ensures { result ≡ class_read reading }
{
    match reading {
        None => Class::Over,
        Some(ohms) => class_of(ohms),
    }
}

// Whether a class allows requested charge or, to wake a pack, wake-up.
pub fn is_allowed(wake: bool, class: Class) -> bool
    ensures { result ≡ (if wake then allowed_to_wake class else allowed class) }
{
    match class {
        Class::Under => !wake,
        Class::Hot => false,
        Class::Plain => true,
        Class::Cold => true,
        Class::Over => false,
    }
}

// The status bits 8 to 11 of a class.
pub fn class_bits(class: Class) -> u16
    ensures { (result ≡ class_bits class) × (result ≤ 0x0F00) }
{
    match class {
        Class::Under => 0x0C00,
        Class::Hot => 0x0400,
        Class::Plain => 0,
        Class::Cold => 0x0200,
        Class::Over => 0x0300,
    }
}
