// The steps that every query shares after both trees: a list read, and its labels looked up among the common ones, so that the first one that is
// not common is known and the others are marked by rank.
//
// No public function has a `requires`. Names that end in 1 are of the first tree, in 2 of the second.
#![tactic(auto)]

ghost use Rattle.std.specs.Prelude.{◌≡◌, true, cond, List, map, ℕ, ◌<◌, ◌≤◌, length, IfSome, IfErr};
ghost use Rattle.trees.specs.declared.Reason.TheVariants.{FirstLacks, SecondLacks};
ghost use Rattle.trees.specs.Label.{Label};
ghost use Rattle.trees.specs.Edition.{in_edition, folded, key};
ghost use Rattle.trees.specs.Token.{Token, spelling};
ghost use Rattle.trees.specs.Tree.{Tree, decoded};
ghost use Rattle.lists.specs.ReadList.{folded_list};
ghost use Rattle.agreement.specs.Closer.{holds};
ghost use Rattle.agreement.specs.Sets.{increasing};
ghost use Rattle.leaves.specs.Numbered.{Numbered};
ghost use Rattle.pairs.specs.Outcome.{refused};
ghost use Rattle.pairs.specs.OwnLeaves.{OwnTree};
ghost use Rattle.pairs.specs.PairRead.{OwnTrees};
ghost use Rattle.queries.specs.Query.{answer_to, held_by};
ghost use Rattle.queries.specs.ListRead.{OwnList, OwnLabels, ListedIs};
ghost use Rattle.queries.specs.FirstMarks.{FoundRank, MarkedTo};
ghost use Rattle.queries.specs.Missing.{FirstMissing};
ghost use Rattle.queries.specs.RankedList.{MarksAre};

use lists::{LIST_LIMIT, LabelPlaces};
use pairs::CommonOrder;
use table::RANKS;
use trees::{Body, Edition, LEAF_LIMIT, Reason, Refusal, TreeArrays};

// Reads a list: where its labels stand in it.
pub fn read_labels(edition: Edition, text: &[u8], body: Body) -> Result<LabelPlaces, Refusal>
    ensures { ListedIs edition body text.now result }
{
    let read = lists::read_list(edition, text, body);
    read.answer?;
    Ok(read.places)
}

// The rank among the m common labels of the one that a token stands for.
fn rank_in(
    edition: Edition,
    text1: &[u8],
    tree1: &TreeArrays,
    order1: &[u8; LEAF_LIMIT],
    m: usize,
    token: &[u8],
) -> Option<usize>
    requires { m ≤ 80 }
    ensures upper_bound { IfSome result (λ r. r < m) }
    ensures found_rank { (s : Tree) (C : List Label)
        → OwnTree s edition text1.now tree1.now
        → m ≡ length C → Numbered (decoded s) C order1.now → FoundRank C (key edition token.now) result }
{
    for r in 0..m {
        let label = trees::leaf_label(text1, &tree1.start, &tree1.size, usize::from(order1[r]));
        if trees::same_label(edition, label, token) {
            return Some(r);
        }
    }
    None
}

// Marks each common label of the list, by rank, with its number in the list, counted from 1; or the number, counted from 0, of the first label
// of the list that is not common. A mark 0 is no number: so says `Marked`, the definition in the table's contract.
fn mark(
    edition: Edition,
    text1: &[u8],
    tree1: &TreeArrays,
    order1: &[u8; LEAF_LIMIT],
    m: usize,
    list: &[u8],
    places: &LabelPlaces,
) -> Result<[u8; RANKS], usize>
    requires { (m ≤ 80) × (places.now.count ≤ 80) }
    ensures upper_bound { IfErr result (λ n. n < places.now.count) }
    ensures marked_to { (s : Tree) (C : List Label) (K : List Token)
        → OwnTree s edition text1.now tree1.now
        → OwnList K (in_edition edition list.now) places.now.start places.now.size places.now.count
        → increasing C ≡ true → m ≡ length C → Numbered (decoded s) C order1.now
        → MarkedTo places.now.count C (map spelling K) result }
{
    let mut number = [0; RANKS];
    for k in 0..places.count {
        let token = trees::leaf_label(list, &places.start, &places.size, k);
        let Some(r) = rank_in(edition, text1, tree1, order1, m, token) else {
            return Err(k);
        };
        number[r] = (k + 1) as u8;
    }
    Ok(number)
}

// The tree has a leaf with the label that a token stands for.
fn holds_label(edition: Edition, text: &[u8], tree: &TreeArrays, token: &[u8]) -> bool
    ensures { (t : Tree) → OwnTree t edition text.now tree.now
        → result ≡ holds (decoded t) (key edition token.now) }
{
    leaves::find_leaf(edition, text, tree, token).is_some()
}

// The reason of a label that is not common, if the first tree has it or not.
fn lack_reason(held: bool) -> Reason
    ensures { result ≡ cond held SecondLacks FirstLacks }
{
    if held {
        Reason::SecondLacks
    } else {
        Reason::FirstLacks
    }
}

// Number 6 or 7: label n of the list is the first that is not common.
fn lack(
    edition: Edition,
    first: &[u8],
    tree1: &TreeArrays,
    list: &[u8],
    places: &LabelPlaces,
    body: Body,
    n: usize,
) -> Refusal
    requires { n < 80 }
    ensures { (s t : Tree) (xs : List Token)
        → FirstMissing (folded edition s) (folded edition t) (folded_list edition xs) (in_edition edition first.now)
        (in_edition edition list.now) tree1.now places.now n
        → held_by body xs (answer_to edition (record { first = s; second = t }) xs) ≡ refused result }
{
    let token = trees::leaf_label(list, &places.start, &places.size, n);
    Refusal {
        reason: lack_reason(holds_label(edition, first, tree1, token)),
        body,
        place: usize::from(places.start[n]),
    }
}

// The marks of a list, for counts that are in range.
fn mark_few(
    edition: Edition,
    first: &[u8],
    tree1: &TreeArrays,
    order: CommonOrder,
    list: &[u8],
    places: &LabelPlaces,
    body: Body,
) -> Result<[u8; RANKS], Refusal>
    requires { (order.count ≤ 80) × (places.now.count ≤ 80) }
    ensures { (tree2 : TreeArrays) (b : OwnTrees edition first.now tree1.now tree2 order)
        (l : OwnLabels edition list.now places.now)
        → MarksAre edition b.s b.t l.xs body tree1.now tree2 order places.now result }
{
    mark(
        edition,
        first,
        tree1,
        &order.first,
        order.count,
        list,
        places,
    )
    .map_err(|n| lack(edition, first, tree1, list, places, body, n))
}

// Looks up the labels of a list among those that two trees share: each common label's number in the list, counted from 1, by rank; or number
// 6 or 7 for the first that is not common. What comes back for arrays of no tree or places of no list is free.
pub fn mark_list(
    edition: Edition,
    first: &[u8],
    tree1: TreeArrays,
    order: CommonOrder,
    list: &[u8],
    places: LabelPlaces,
    body: Body,
) -> Result<[u8; RANKS], Refusal>
    ensures { (tree2 : TreeArrays) (b : OwnTrees edition first.now tree1 tree2 order)
        (l : OwnLabels edition list.now places)
        → MarksAre edition b.s b.t l.xs body tree1 tree2 order places result }
{
    if LEAF_LIMIT < order.count || LIST_LIMIT < places.count {
        return Ok([0; RANKS]);
    }
    mark_few(edition, first, &tree1, order, list, &places, body)
}
