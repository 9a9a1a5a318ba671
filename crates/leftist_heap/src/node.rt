// The nodes of a leftist heap (Crane 1972; Knuth, volume 3), and how two heaps become one.
ghost use Rattle.std.specs.Prelude.{◌≡◌, ◌+◌, ◌<◌, ◌≤◌, ◌^◌, ◌∷◌, length, IfNone, IfSome, IfOk, IfErr};
ghost use Rattle.std.specs.Ordering.{is_gt};
ghost use Rattle.leftist_heap.specs.Order.{not_above_by, with_items_by};
ghost use Rattle.leftist_heap.specs.Tree.{nothing, node, rank_of, ranks_below, items_of};
ghost use Rattle.leftist_heap.specs.Tree.{content_of, IsUnder, IsLeftist, IsLawful};
ghost use Rattle.leftist_heap.specs.Merge.{left_of, right_of, settled, IsMerge, AreTheTwo};
ghost use Rattle.leftist_heap.specs.declared.node.Node.{out-Node};
ghost use Rattle.leftist_heap.specs.Node.{tree_at, tree_of};

use crate::exact::Exact;
use crate::steps::Steps;
use std::alloc::Allocator;
use std::mem;
use std::sync::ledger::Ledger;

// A node is not `Drop`: a heap is freed by popping, and never by a recursion down a long left
// spine.
pub(crate) struct Node<T, A: Allocator> {
    pub(crate) item: T,
    // The number of nodes on the way down the right children.
    pub(crate) rank: u32,
    pub(crate) left: Option<Box<Node<T, A>, A>>,
    pub(crate) right: Option<Box<Node<T, A>, A>>,
}

// Whether the first item is above the second. Heaps compare items here alone, and each comparison
// counts.
fn is_above<T: Exact, L: Ledger>(first: &T, second: &T, steps: &mut Steps<L>) -> bool
    ensures answer { result ≡ is_gt (T.cmp first.now second.now) }
    ensures counted { steps.new ≡ steps.old + 1 }
{
    steps.tick();
    first > second
}

// The rank of a heap.
pub(crate) fn rank<T, A: Allocator>(heap: &Option<Box<Node<T, A>, A>>) -> u32
    requires { IsLeftist (tree_of heap.now) }
    ensures { result ≡ rank_of (tree_of heap.now) }
{
    match heap {
        None => 0,
        Some(node) => node.rank,
    }
}

// Lets go of what is no heap.
pub(crate) fn discard<T, A: Allocator>(heap: Option<Box<Node<T, A>, A>>)
    requires { heap ≡ None }
{
    match heap {
        None => {}
        Some(_) => unreachable!(),
    }
}

// Puts a heap into an empty place. An assignment would drop what stood there, and a node has no
// drop.
pub(crate) fn fill<T, A: Allocator>(
    place: &mut Option<Box<Node<T, A>, A>>,
    heap: Option<Box<Node<T, A>, A>>,
)
    requires { place.old ≡ None }
    ensures { place.new ≡ heap }
{
    discard(mem::replace(place, heap));
}

// The item of a node without children.
pub(crate) fn item_alone<T, A: Allocator>(node: Node<T, A>) -> T
    requires left { (out-Node _ _ node).left ≡ None }
    requires right { (out-Node _ _ node).right ≡ None }
    ensures { result ≡ (out-Node _ _ node).item }
{
    let Node {
        item,
        rank: _,
        left,
        right,
    } = node;
    discard(left);
    discard(right);
    item
}

// Swaps the children where the left one has the lower rank, and renews the rank.
fn settle<T, A: Allocator>(node: &mut Node<T, A>)
    requires left { IsLeftist (left_of (tree_at node.old)) }
    requires right { IsLeftist (right_of (tree_at node.old)) }
    requires low_left { rank_of (left_of (tree_at node.old)) ≤ 32 }
    requires low_right { rank_of (right_of (tree_at node.old)) ≤ 32 }
    ensures { tree_at node.new ≡ settled (tree_at node.old) }
{
    if rank(&node.left) < rank(&node.right) {
        mem::swap(&mut node.left, &mut node.right);
    }
    node.rank = 1 + rank(&node.right);
}

// Puts the root with the lower item first.
fn put_lower_first<T: Exact, A: Allocator, L: Ledger>(
    first: &mut Box<Node<T, A>, A>,
    second: &mut Box<Node<T, A>, A>,
    steps: &mut Steps<L>,
)
    ensures two { AreTheTwo first.old second.old first.new second.new }
    ensures lower { IsUnder (not_above_by T.cmp) (out-Node _ _ first.new.value).item (tree_at second.new.value) }
    ensures counted { steps.new ≡ steps.old + 1 }
{
    if is_above(&first.item, &second.item, steps) {
        mem::swap(first, second);
    }
}

// Merges another heap into this one, down the right spines of both. No box is made or freed, and no
// item leaves its box.
pub(crate) fn merge_into<T: Exact, A: Allocator, L: Ledger>(
    heap: &mut Option<Box<Node<T, A>, A>>,
    mut other: Box<Node<T, A>, A>,
    steps: &mut Steps<L>,
)
    requires lawful { IsLawful (not_above_by T.cmp) (tree_of heap.old) }
    requires other { IsLawful (not_above_by T.cmp) (tree_at other.value) }
    requires room { length (items_of (tree_of heap.old)) + length (items_of (tree_at other.value)) < 2 ^ 32 }
    ensures merged { IsMerge (not_above_by T.cmp) (tree_of heap.old) (tree_at other.value) (tree_of heap.new) }
    ensures counted { steps.new ≤ steps.old + (rank_of (tree_of heap.old) + rank_of (tree_at other.value)) }
{
    match heap {
        None => fill(heap, Some(other)),
        Some(top) => {
            put_lower_first(top, &mut other, steps);
            merge_into(&mut top.right, other, steps);
            settle(top);
        }
    }
}

// Merges another heap, which may be empty, into this one.
pub(crate) fn absorb_heap<T: Exact, A: Allocator, L: Ledger>(
    heap: &mut Option<Box<Node<T, A>, A>>,
    other: Option<Box<Node<T, A>, A>>,
    steps: &mut Steps<L>,
)
    requires lawful { IsLawful (not_above_by T.cmp) (tree_of heap.old) }
    requires other { IsLawful (not_above_by T.cmp) (tree_of other) }
    requires room { length (items_of (tree_of heap.old)) + length (items_of (tree_of other)) < 2 ^ 32 }
    ensures lawful { IsLawful (not_above_by T.cmp) (tree_of heap.new) }
    ensures content { content_of (not_above_by T.cmp) (tree_of heap.new)
        ≡ with_items_by (not_above_by T.cmp) (items_of (tree_of heap.old)) (content_of (not_above_by T.cmp) (tree_of other)) }
    ensures counted { steps.new ≤ steps.old + (rank_of (tree_of heap.old) + rank_of (tree_of other)) }
{
    if let Some(root) = other {
        merge_into(heap, root, steps);
    }
}

// Takes the lowest item out, where there is one, and merges the root's two children.
pub(crate) fn take_root<T: Exact, A: Allocator, L: Ledger>(
    heap: &mut Option<Box<Node<T, A>, A>>,
    steps: &mut Steps<L>,
) -> Option<T>
    requires lawful { IsLawful (not_above_by T.cmp) (tree_of heap.old) }
    requires room { length (items_of (tree_of heap.old)) < 2 ^ 32 }
    ensures lawful { IsLawful (not_above_by T.cmp) (tree_of heap.new) }
    ensures none { IfNone result ((tree_of heap.old ≡ nothing) × (tree_of heap.new ≡ nothing)) }
    ensures some { IfSome result
        (λ x. content_of (not_above_by T.cmp) (tree_of heap.old) ≡ x ∷ content_of (not_above_by T.cmp) (tree_of heap.new)) }
    ensures counted { steps.new ≤ steps.old + ranks_below (tree_of heap.old) }
{
    let root = heap.take()?;
    let Node {
        item,
        rank: _,
        left,
        right,
    } = Box::into_inner(root);
    fill(heap, left);
    absorb_heap(heap, right, steps);
    Some(item)
}

// A node of this item alone, in a box of its own. Where the box is refused, or the clone of the
// allocator for it, the item comes back.
pub(crate) fn boxed<T, A: Allocator + Clone>(alloc: &A, item: T) -> Result<Box<Node<T, A>, A>, T>
    ensures ok { IfOk result (λ b. tree_at b.value ≡ node item 1 nothing nothing) }
    ensures err { IfErr result (λ back. back ≡ item) }
{
    let Ok(alloc) = alloc.clone() else {
        return Err(item);
    };
    let alone = Node {
        item,
        rank: 1,
        left: None,
        right: None,
    };
    match Box::new(alloc, alone) {
        Ok(node) => Ok(node),
        Err(refused) => Err(item_alone(refused.value)),
    }
}
