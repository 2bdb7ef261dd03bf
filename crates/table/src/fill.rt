// The table over pairs of nodes: the cell of node u of the first tree and node v of the second has the greatest weight of a set on
// which their subtrees agree (001, Lemma 3.1). The row of a node of the first tree is needed until its parent's row
// is made, so that a few rows are enough.
//
// A weight takes 94 bits. The area has eight rows of cells and, in a ninth, the weights of the common labels by rank. Arrays
// are lent: by value they would cost more than the work. Both trees' columns and the area stay three parameters: a struct of the three
// references would be taken apart again in each function that has them.
ghost use Rattle.std.specs.Prelude.{◌≡◌, ◌<◌, ◌≤◌, slice_index};
ghost use Rattle.table.specs.Table.{inner_at, cell_at, span_at, Shape};
ghost use Rattle.table.specs.Table.{SplitAt, InnerRow, Joined, SpanRow, NodeRow};
ghost use Rattle.table.specs.Solving.{Rooted, TopIs};

use crate::columns::TreeColumns;
use trees::NODE_LIMIT;

// The cells of a row, and the rows of cells; then comes the row of weights.
pub(crate) const ROW: usize = NODE_LIMIT;

const ROWS: usize = 8;

pub(crate) const WEIGHTS: usize = ROWS * ROW;

pub(crate) const AREA: usize = WEIGHTS + ROW;

// Two inner nodes: below one child of either, or the children paired. The rows of the first node's children start at a and b, its
// own at u; v has children c and d.
#[tactic(auto, unfolding(crate::specs::Table::inner_at))]
fn inner_cell(
    area: &[u128; AREA],
    a: usize,
    b: usize,
    u: usize,
    c: usize,
    d: usize,
    v: usize,
) -> u128
    requires { (a ≤ 1272) × (b ≤ 1272) × (u ≤ 1272) × (c ≤ v) × (d ≤ v) × (v < 159) }
    ensures { result ≡ inner_at (slice_index area.now) a b u c d v }
{
    let first = area[a + v].max(area[b + v]);
    let straight = area[a + c].wrapping_add(area[b + d]);
    let crossed = area[a + d].wrapping_add(area[b + c]);
    // what hangs on the cells before comes last, so that the rest need not wait for it
    let second = area[u + c].max(area[u + d]);
    first.max(straight.max(crossed)).max(second)
}

// The cell of an inner node, whose row starts at u and its children's at a and b, and node v.
#[tactic(auto, unfolding(crate::specs::Table::cell_at))]
fn pair_cell(
    second: &TreeColumns,
    area: &[u128; AREA],
    a: usize,
    b: usize,
    u: usize,
    v: usize,
) -> u128
    requires a_bound { (a ≤ 1272) × (b ≤ 1272) × (u ≤ 1272) × (v < 159) }
    requires v_bound { (slice_index second.now.left v ≤ v) × (slice_index second.now.right v ≤ v) }
    ensures { result ≡ cell_at (slice_index area.now) second.now a b u v }
{
    let c = usize::from(second.left[v]);
    if c == v {
        return area[a + v].max(area[b + v]);
    }
    let d = usize::from(second.right[v]);
    inner_cell(area, a, b, u, c, d, v)
}

// The cell of leaf `at` of the second tree and a node v from it on: the leaf's weight if it is below v.
#[tactic(auto, unfolding(crate::specs::Table::span_at))]
fn span_cell(second: &TreeColumns, weight: u128, at: usize, v: usize) -> u128
    requires { (v < 159) × (at ≤ v) }
    ensures { result ≡ span_at second.now weight at v }
{
    if usize::from(second.low[v]) <= at {
        return weight;
    }
    0
}

// The row of leaf u. It is 0 but for the nodes above the leaf with the same rank, which come after that leaf.
fn fill_leaf(
    first: &TreeColumns,
    second: &TreeColumns,
    area: &mut [u128; AREA],
    u: usize,
    row: usize,
)
    requires second_bound { second.now.nodes ≤ 159 }
    requires u_bound { (u < 159) × (slice_index first.now.rank u ≤ 80) × (row < 8) }
    ensures { SpanRow second.now.nodes second.now (slice_index first.now.rank u) row
        area.old area.new }
{
    let rank = usize::from(first.rank[u]);
    let weight = area[WEIGHTS + rank];
    let at = usize::from(second.leaf[rank]);
    let nodes = second.nodes;
    let clear = at.min(nodes);
    let start = row * ROW;
    for v in 0..clear {
        area[start + v] = 0;
    }
    for v in clear..nodes {
        area[start + v] = span_cell(second, weight, at, v);
    }
}

// The row of an inner node from the rows of its children.
fn fill_inner(second: &TreeColumns, area: &mut [u128; AREA], left: usize, right: usize, row: usize)
    requires shape { Shape second.now second.now.nodes }
    requires left_bound { (left < 8) × (right < 8) × (row < 8) }
    ensures { InnerRow second.now.nodes second.now left right row
        area.old area.new }
{
    let nodes = second.nodes;
    let a = left * ROW;
    let b = right * ROW;
    let u = row * ROW;
    for v in 0..nodes {
        area[u + v] = pair_cell(second, area, a, b, u, v);
    }
}

// The children of an inner node, the one that needs more rows first; swapped if that is the right one.
#[derive(Clone, Copy)]
struct Children {
    more: usize,
    fewer: usize,
    swapped: bool,
}

fn children_of(first: &TreeColumns, u: usize) -> Children
    requires { (u < 159) × (slice_index first.now.left u ≤ u) × (slice_index first.now.right u ≤ u) }
    ensures { SplitAt first.now u result }
{
    let a = usize::from(first.left[u]);
    let b = usize::from(first.right[u]);
    if usize::from(first.rows[a]) < usize::from(first.rows[b]) {
        Children {
            more: b,
            fewer: a,
            swapped: true,
        }
    } else {
        Children {
            more: a,
            fewer: b,
            swapped: false,
        }
    }
}

// The row of an inner node from row `other`, of the child that needed more rows, and row `next`, of the second one.
fn join_rows(
    second: &TreeColumns,
    area: &mut [u128; AREA],
    swapped: bool,
    row: usize,
    other: usize,
    next: usize,
)
    requires shape { Shape second.now second.now.nodes }
    requires row_bound { (row < 8) × (other < 8) × (next < 8) }
    ensures { Joined second.now swapped row other next area.old area.new }
{
    if swapped {
        fill_inner(second, area, next, other, row);
    } else {
        fill_inner(second, area, other, next, row);
    }
}

// The row of node u of the first tree. The child that needs more rows is done first, into the other row; then the second child,
// into row `next`. A tree of 80 leaves needs six rows beside two, so that the test for a next one is for safety alone.
fn fill_node(
    first: &TreeColumns,
    second: &TreeColumns,
    area: &mut [u128; AREA],
    u: usize,
    row: usize,
    other: usize,
    next: usize,
)
    requires shape { Shape first.now first.now.nodes × Shape second.now second.now.nodes }
    requires u_bound { (u < first.now.nodes) × (row < 8) × (other < 8) }
    ensures { NodeRow first.now second.now u row other next
        area.old area.new }
{
    if usize::from(first.left[u]) == u {
        fill_leaf(first, second, area, u, row);
        return;
    }
    if ROWS <= next {
        return;
    }
    let children = children_of(first, u);
    fill_node(first, second, area, children.more, other, row, next);
    fill_node(first, second, area, children.fewer, next, row, next + 1);
    join_rows(second, area, children.swapped, row, other, next);
}

// The greatest weight of a set on which the trees agree.
pub(crate) fn root_weight(
    first: &TreeColumns,
    second: &TreeColumns,
    area: &mut [u128; AREA],
) -> u128
    requires { Rooted first.now × Rooted second.now }
    ensures { TopIs first.now second.now result
        area.old area.new }
{
    let u = first.nodes - 1;
    let v = second.nodes - 1;
    fill_node(first, second, area, u, 0, 1, 2);
    area[v]
}
