// Leaves that stand in only one tree. C-11: they stop a strict job.
//
// Names that end in 1 are of the first tree, in 2 of the second.
ghost use Rattle.std.specs.Prelude.{◌≡◌, List, ℕ, ◌<◌, ◌≤◌, IfSome};
ghost use Rattle.trees.specs.Edition.{in_edition, folded};
ghost use Rattle.trees.specs.Tree.{Tree, decoded, Proper};
ghost use Rattle.trees.specs.Arrays.{nodes_of, arrays_of};
ghost use Rattle.agreement.specs.Strict.{stray_of};
ghost use Rattle.pairs.specs.OwnLeaves.{OwnLeaves, OwnTree};
ghost use Rattle.pairs.specs.CommonRanks.{Partners};
ghost use Rattle.pairs.specs.LoneLeaves.{lone, Lone, stray_at, shared_of, Paired};

use crate::ranks::{leaf_partner, partners};
use crate::{Options, put_at};
use trees::{Body, NODE_LIMIT, Reason, Refusal, TreeArrays};

// Whether node u, with left child `child` and partner v, is a leaf that the other tree lacks.
fn is_lone(child: usize, u: usize, v: Option<u8>) -> bool
    ensures { result ≡ lone child u v }
{
    child == u && v.is_none()
}

// The first leaf from left to right that has no partner, by its number. Leaves stand in the arrays in the order of the text.
fn lone_leaf(tree: &TreeArrays, partner: &[Option<u8>; NODE_LIMIT]) -> Option<usize>
    requires { tree.now.nodes ≤ 159 }
    ensures upper_bound { IfSome result (λ u. u < tree.now.nodes) }
    ensures lone { (s t : Tree) → tree.now.left ≡ (arrays_of s).left → tree.now.nodes ≡ nodes_of s → Proper t
        → Partners tree.now.nodes s t partner.now → Lone s t result }
{
    for u in 0..tree.nodes {
        if is_lone(usize::from(tree.left[u]), u, partner[u]) {
            return Some(u);
        }
    }
    None
}

// Number 12 at the label of a leaf.
fn stray(body: Body, place: u16) -> Refusal
    ensures { result ≡ stray_at body place }
{
    Refusal {
        reason: Reason::NotShared,
        body,
        place: usize::from(place),
    }
}

// The partners turned round: for each leaf of the second tree the first tree's leaf with the same label.
fn turned_round(tree1: &TreeArrays, partner: &[Option<u8>; NODE_LIMIT]) -> [Option<u8>; NODE_LIMIT]
    requires { tree1.now.nodes ≤ 159 }
    ensures { (s t : Tree) → tree1.now.left ≡ (arrays_of s).left → tree1.now.nodes ≡ nodes_of s → Proper t
        → Partners tree1.now.nodes s t partner.now → Partners (nodes_of t) t s result }
{
    let mut back = [None; NODE_LIMIT];
    for u in 0..tree1.nodes {
        if let Some(v) = leaf_partner(usize::from(tree1.left[u]), u, partner[u]) {
            put_at(&mut back, usize::from(v), Some(u as u8));
        }
    }
    back
}

// Number 12 for the first leaf of the first tree that the second lacks; if there is none, for the first leaf of the second that the
// first lacks.
fn stray_leaf(
    tree1: &TreeArrays,
    tree2: &TreeArrays,
    partner: &[Option<u8>; NODE_LIMIT],
) -> Result<(), Refusal>
    requires { (tree1.now.nodes ≤ 159) × (tree2.now.nodes ≤ 159) }
    ensures { (s t : Tree) (first second : List ℕ)
        → OwnLeaves s first tree1.now.left tree1.now.start tree1.now.size tree1.now.nodes
        → OwnLeaves t second tree2.now.left tree2.now.start tree2.now.size tree2.now.nodes
        → Partners tree1.now.nodes (decoded s) (decoded t) partner.now
        → result ≡ shared_of s t (stray_of (decoded s) (decoded t)) }
{
    if let Some(u) = lone_leaf(tree1, partner) {
        return Err(stray(Body::S, tree1.start[u]));
    }
    let back = turned_round(tree1, partner);
    if let Some(v) = lone_leaf(tree2, &back) {
        return Err(stray(Body::T, tree2.start[v]));
    }
    Ok(())
}

// For each leaf of the first tree its partner in the second; or number 12, where the options are strict.
pub(crate) fn pair_leaves(
    options: Options,
    first: &[u8],
    tree1: &TreeArrays,
    second: &[u8],
    tree2: &TreeArrays,
) -> Result<[Option<u8>; NODE_LIMIT], Refusal>
    requires { (tree1.now.nodes ≤ 159) × (tree2.now.nodes ≤ 159) }
    ensures { (s t : Tree)
        → OwnTree (folded options.edition s) options.edition first.now tree1.now
        → OwnTree (folded options.edition t) options.edition second.now tree2.now
        → Paired options s t tree1.now.nodes result }
{
    let partner = partners(options.edition, first, tree1, second, tree2);
    if options.strict {
        stray_leaf(tree1, tree2, &partner)?;
    }
    Ok(partner)
}
