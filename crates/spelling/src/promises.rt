// What is promised of digits: a function a statement, whose contract is the statement. Nothing is run; each is called
// nowhere, and the crate is built only where all are proved. The statements stand in specs/Promises.

ghost use Rattle.spelling.specs.Promises.{DecimalReadsBack, DecimalIsDigits, HexReadsBack, WorkedNumbersHold};

// Decimal digits read back as the number, whatever 64 bits hold.
#[tactic(auto, using(crate::proofs::Theorems::decimal_reads_back))]
pub fn decimal_reads_back()
    ensures { DecimalReadsBack }
{}

// And each is a digit.
#[tactic(auto, using(crate::proofs::Theorems::decimal_is_digits))]
pub fn decimal_is_digits()
    ensures { DecimalIsDigits }
{}

// Hexadecimal digits behind `0x` read back as the byte, and as the word.
#[tactic(auto, using(crate::proofs::Theorems::hex_reads_back))]
pub fn hex_reads_back()
    ensures { HexReadsBack }
{}

// The worked words spell their numbers.
#[tactic(auto, using(crate::proofs::Theorems::worked_numbers_hold))]
pub fn worked_numbers_hold()
    ensures { WorkedNumbersHold }
{}
