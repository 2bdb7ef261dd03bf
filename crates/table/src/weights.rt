// Weights of the common labels by rank, and the set that the greatest weight tells.
//
// The label of rank r weighs 2^80, or 128 times that if it is required, and 2^(79 - r) besides. So the greatest weight counts the
// required labels and the size, and its low 80 bits are the set.
ghost use Rattle.std.specs.Prelude.{◌≡◌, ℕ, ◌+◌, ◌/◌, ◌%◌, ◌≤◌, false, slice_index_or};
ghost use Rattle.agreement.specs.Powers.{whole};
ghost use Rattle.agreement.specs.Weights.{required_unit};
ghost use Rattle.table.specs.Weighing.{unit_of, WeightsPut, Powers, Bits};

use crate::RANKS;
use crate::fill::{AREA, WEIGHTS};
use trees::LEAF_LIMIT;

// What a label weighs besides its power, 2^80.
const UNIT: u128 = 1208925819614629174706176;

// What a required label weighs in units; more than all other labels together.
const REQUIRED: u128 = 128;

// The units of a label by its number in the required list, counted from 1; 0, as `queries::mark_list` writes it, if it is not required.
fn units(number: u8) -> u128
    ensures value { result ≡ unit_of number }
    ensures upper_bound { result ≤ 128 }
{
    if number == 0 { 1 } else { REQUIRED }
}

// The weight of each of the m common labels, by rank.
pub(crate) fn put_weights(number: &[u8; RANKS], m: usize, area: &mut [u128; AREA])
    requires { m ≤ 80 }
    ensures { WeightsPut m number.now area.old area.new }
{
    let mut power = UNIT / 2;
    for r in 0..m {
        area[WEIGHTS + r] = units(number[r]) * UNIT + power;
        power /= 2;
    }
}

// How many required labels a weight counts.
pub(crate) fn held(top: u128) -> usize
    ensures { result ≡ top / whole / required_unit }
{
    (top / UNIT / REQUIRED) as usize
}

// How many labels a weight counts, where all required ones are among them.
pub(crate) fn labels(top: u128) -> usize
    ensures { result ≡ top / whole / required_unit + top / whole % required_unit }
{
    let units = top / UNIT;
    (units / REQUIRED + units % REQUIRED) as usize
}

// The labels whose powers make up the low part of the greatest weight, by rank.
pub(crate) fn read_set(area: &[u128; AREA], top: u128, m: usize, chosen: &mut [bool; LEAF_LIMIT])
    requires { m ≤ 80 }
    ensures bits { Powers m area.now → Bits m (top % whole) chosen.new }
    ensures by_index { (r : ℕ) → m ≤ r → slice_index_or chosen.new r false ≡ false }
{
    *chosen = [false; LEAF_LIMIT];
    let mut rest = top % UNIT;
    for r in 0..m {
        let less = rest.checked_sub(area[WEIGHTS + r] % UNIT);
        chosen[r] = less.is_some();
        rest = less.unwrap_or(rest);
    }
}
