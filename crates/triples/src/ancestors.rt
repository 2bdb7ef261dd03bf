// Least common ancestors by number. Nodes are numbered children first, so the nodes below node u are those from its first node
// below to u, and of two ancestors of a leaf the smaller number is the nearer one.
ghost use Rattle.std.specs.Prelude.{◌≡◌, cond, ℕ, ◌<◌, ◌≤◌, ◌%◌, leb, ltb, get_or, min};
ghost use Rattle.triples.specs.Loops.{LowAt, span_from, LcaRow};

// The number of the first node below node u.
fn low_at(left: &[u8; 159], low: &[usize; 159], u: usize) -> usize
    requires { u < 159 }
    ensures { result ≡ cond (ltb (get_or left.now u 0) u) (get_or low.now (get_or left.now u 0) 0) u }
{
    let child = usize::from(left[u]);
    if child < u { low[child] } else { u }
}

// The number of the first node below each of a tree's nodes.
#[derive(Clone, Copy)]
pub(crate) struct Lows {
    low: [usize; 159],
    nodes: usize,
    ghost few: { nodes ≤ 159 },
}

// Node w where it spans u, else what the nodes past it give.
fn nearer(low: &[usize; 159], u: usize, w: usize, later: usize) -> usize
    requires { w < 159 }
    ensures { result ≡ cond (leb (get_or low.now w 0) u) w later }
{
    if low[w] <= u { w } else { later }
}

// The entry of node v on its side of u.
fn on_side(before: &[u8; 159], after: &[u8; 159], u: usize, v: usize) -> u8
    requires { v < 159 }
    ensures { result ≡ cond (ltb v u) (get_or before.now v 0) (get_or after.now v 0) }
{
    if v < u { before[v] } else { after[v] }
}

// The number of the leaf of rank r; the last node's where the array has no number of a node.
fn leaf_of(leaf: &[usize; 80], r: usize) -> usize
    requires { r < 80 }
    ensures upper_bound { result < 159 }
    ensures value { get_or leaf.now r 0 < 159 → result ≡ get_or leaf.now r 0 }
{
    leaf[r].min(158)
}

impl Lows {
    // Those of the first `nodes` nodes, of as many as the array has at most.
    pub(crate) fn of(left: &[u8; 159], nodes: usize) -> Lows
        ensures end { result.nodes ≡ min nodes 159 }
        ensures each { (u : ℕ) → u < result.nodes → LowAt left.now result.low u }
    {
        let nodes = nodes.min(159);
        let mut low = [0usize; 159];
        for u in 0..nodes {
            low[u] = low_at(left, &low, u);
        }
        Lows { low, nodes }
    }

    // The least common ancestor of leaf u and each node from u on.
    fn ancestors_after(&self, u: usize) -> [u8; 159]
        ensures { (v : ℕ) → u ≤ v → v < self.now.nodes → get_or result v 0 ≡ span_from self.now.low u self.now.nodes v % 256 }
    {
        let mut at = [0u8; 159];
        let mut nearest = self.nodes;
        for w in (u..self.nodes).rev() {
            nearest = nearer(&self.low, u, w, nearest);
            at[w] = trees::narrow(nearest);
        }
        at
    }

    // The first node from w on that spans v.
    fn next_spanning(&self, w: usize, v: usize) -> usize
        ensures { result ≡ span_from self.now.low v self.now.nodes w }
    {
        for k in w..self.nodes {
            if self.low[k] <= v {
                return k;
            }
        }
        w.max(self.nodes)
    }

    // The least common ancestor of leaf u and each node before u. It only moves up as that node goes down.
    fn ancestors_before(&self, u: usize) -> [u8; 159]
        requires { u < 159 }
        ensures { (v : ℕ) → v < u → get_or result v 0 ≡ span_from self.now.low v self.now.nodes u % 256 }
    {
        let mut at = [0u8; 159];
        let mut w = u;
        for v in (0..u).rev() {
            w = self.next_spanning(w, v);
            at[v] = trees::narrow(w);
        }
        at
    }

    // The least common ancestors of the leaf of rank i and the leaf of each rank.
    pub(crate) fn lca_row(&self, leaf: &[usize; 80], count: usize, i: usize) -> [u8; 80]
        requires { (count ≤ 80) × (i < count) }
        ensures { LcaRow self.now.low self.now.nodes leaf.now count i result }
    {
        let u = leaf_of(leaf, i);
        let before = self.ancestors_before(u);
        let after = self.ancestors_after(u);
        let mut row = [0u8; 80];
        for q in 0..count {
            row[q] = on_side(&before, &after, u, leaf_of(leaf, q));
        }
        row
    }
}
