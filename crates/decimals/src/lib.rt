// Decimal digits of a number of the machine, by subtraction: no division and no remainder.
//
// No public function has a `requires`.
#![tactic(auto)]

ghost use Rattle.std.specs.Prelude.{◌≡◌, ◌+◌, ◌-◌, ◌*◌, ◌<◌, ◌≤◌, length, drop, replicate};
ghost use Rattle.decimals.specs.Decimal.{decimal_of, digit_room};
ghost use Rattle.decimals.specs.Numeral.{numeral_bytes, ten_powers};

use trees::ShortBytes;

// The digits that a number may have.
pub const DIGIT_ROOM: usize = 20;

// Decimal digits.
pub type Numeral = ShortBytes<DIGIT_ROOM>;

// How often a power was subtracted from a number, and what is left of it.
#[derive(Clone, Copy)]
struct Taken {
    times: u8,
    rest: usize,
}

// The powers of ten that a number can hold. They are fetched once for a number and lent: a constant array would be laid out anew at
// every read.
fn powers() -> [usize; DIGIT_ROOM]
    ensures { result ≡ ten_powers }
{
    [
        1,
        10,
        100,
        1000,
        10000,
        100000,
        1000000,
        10000000,
        100000000,
        1000000000,
        10000000000,
        100000000000,
        1000000000000,
        10000000000000,
        100000000000000,
        1000000000000000,
        10000000000000000,
        100000000000000000,
        1000000000000000000,
        10000000000000000000,
    ]
}

// How many digits n has: one more for each power from 10 on that it reaches.
fn digit_count(n: usize, powers: &[usize; DIGIT_ROOM]) -> usize
    requires { powers.now ≡ ten_powers }
    ensures count { result ≡ length (decimal_of n) }
    ensures few { result ≤ digit_room }
{
    for k in 1..DIGIT_ROOM {
        if n < powers[k] {
            return k;
        }
    }
    DIGIT_ROOM
}

// Subtracts a power of ten as often as possible: the digit at its place.
fn take_digit(n: usize, power: usize) -> Taken
    requires { n < power * 10 }
    ensures whole { n ≡ result.times * power + result.rest }
    ensures rest { result.rest < power }
    ensures times { result.times < 10 }
{
    let mut times: u8 = 0;
    let mut rest = n;
    while power <= rest {
        rest -= power;
        times += 1;
    }
    Taken { times, rest }
}

// The decimal digits of n, and 0 in the bytes after them.
pub fn digits(n: usize) -> Numeral
    ensures digits { numeral_bytes result ≡ decimal_of n }
    ensures len { result.len ≡ length (decimal_of n) }
    ensures rest { drop result.len result.bytes ≡ replicate (digit_room - result.len) 0 }
{
    let powers = powers();
    let len = digit_count(n, &powers);
    let mut bytes = [0u8; DIGIT_ROOM];
    let mut rest = n;
    for i in 0..len {
        let taken = take_digit(rest, powers[len - 1 - i]);
        bytes[i] = b'0' + taken.times;
        rest = taken.rest;
    }
    ShortBytes { bytes, len }
}
