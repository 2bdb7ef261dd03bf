// The search for three labels that clash, over the two rows of ancestor numbers of the first of them.
//
// Of three leaves the two least common ancestors with the first tell the closer pair: the nearer one's, or the other two's where they
// are the same. So the trees differ exactly if these two numbers are ordered otherwise.
ghost use Rattle.std.specs.Prelude.{◌≡◌, Bool, ℕ, ◌<◌, ◌≤◌, ltb, Some};
ghost use Rattle.triples.specs.Loops.{apart_of, Tells, below, third_of, second_of, three_of};

use crate::Indices;

// Two numbers are not ordered in one tree as in the other.
#[tactic(auto, unfolding(crate::specs::Loops::apart_of))]
fn apart(x1: u8, y1: u8, x2: u8, y2: u8) -> bool
    ensures { result ≡ apart_of x1 y1 x2 y2 }
{
    ((x1 < y1) != (x2 < y2)) | ((y1 < x1) != (y2 < x2))
}

// Whether some rank past j clashes with j: every rank is looked at, so that many are at one time.
fn any_apart(row1: &[u8; 80], row2: &[u8; 80], count: usize, j: usize) -> bool
    requires { (count ≤ 80) × (j < count) }
    ensures { (clash : ℕ → ℕ → Bool) (i : ℕ) → i < j → Tells clash i count row1.now row2.now
        → result ≡ ltb (third_of clash count j) count }
{
    let mut found = false;
    for k in j + 1..count {
        found |= apart(row1[j], row1[k], row2[j], row2[k]);
    }
    found
}

// The first rank past j that clashes with j.
fn third(row1: &[u8; 80], row2: &[u8; 80], count: usize, j: usize) -> Option<usize>
    requires { (count ≤ 80) × (j < count) }
    ensures { (clash : ℕ → ℕ → Bool) (i : ℕ) → i < j → Tells clash i count row1.now row2.now
        → result ≡ below count (third_of clash count j) }
{
    for k in j + 1..count {
        if apart(row1[j], row1[k], row2[j], row2[k]) {
            return Some(k);
        }
    }
    None
}

// The first rank past i that begins a clash with i.
fn second(row1: &[u8; 80], row2: &[u8; 80], count: usize, i: usize) -> Option<usize>
    requires { (count ≤ 80) × (i < count) }
    ensures below_count { (j : ℕ) → result ≡ Some j → j < count }
    ensures value { (clash : ℕ → ℕ → Bool) → Tells clash i count row1.now row2.now
        → result ≡ below count (second_of clash count i) }
{
    for j in i + 1..count {
        if any_apart(row1, row2, count, j) {
            return Some(j);
        }
    }
    None
}

// The first three ranks that clash, of which rank i is the first.
pub(crate) fn clash_with(
    row1: &[u8; 80],
    row2: &[u8; 80],
    count: usize,
    i: usize,
) -> Option<Indices>
    requires { (count ≤ 80) × (i < count) }
    ensures { (clash : ℕ → ℕ → Bool) → Tells clash i count row1.now row2.now
        → result ≡ three_of clash count i }
{
    let j = second(row1, row2, count, i)?;
    let k = third(row1, row2, count, j)?;
    Some(Indices {
        first: i,
        second: j,
        third: k,
    })
}
