// The nodes to which paths lead.
ghost use Rattle.std.specs.Prelude.{◌≡◌, ◌≢◌, ◌+◌, ◌<◌, ◌^◌, ◌↔◌, ℕ, IfErr, IfOk, IsErrOf, IsOk, IsTrue, List, OnOk, Some, [], length, not};
ghost use Rattle.std.specs.{Iterator.{Drains, IsFinite, YieldsThen}, List.sum_by};
ghost use Rattle.bit_set.specs.{Faults.IsInsertFault, Sets.{elements, has, put}};
ghost use Rattle.graph_walks.specs.{Explored.TakesOn, Paths.{Path, successors}};

use crate::Graph;
use bit_set::bit_vec::Steps;
use bit_set::laws::{members_of_sets, sets_are_their_members, sets_ascend, sizes_of_sets};
use bit_set::{BitBlock, BitSet, SetError};
use std::alloc::{AllocError, Global};

/// How much work a call did. Contracts see both numbers; at run time they have no bytes and cost nothing.
#[derive(Drop)]
pub struct Effort {
    /// How often a node's edges were requested.
    pub nodes: Steps,
    /// How often an edge was looked at.
    pub edges: Steps,
}

impl Effort {
    /// No work done.
    ///
    /// ```
    /// let mut effort = Effort::new();
    /// let counted: BitSet = reachable_counted(alloc, edges, 0, &mut effort)?;
    /// ```
    #[inline]
    pub fn new() -> Self
        ensures nodes { result.nodes ≡ 0 }
        ensures edges { result.edges ≡ 0 }
    {
        Effort {
            nodes: Steps::new(),
            edges: Steps::new(),
        }
    }
}

/// The nodes to which a path leads from `start`, including itself. Each is expanded once, and each edge from one of
/// them is looked at once. Fails with [`SetError::Element`] only if a path leads to `usize::MAX`, at once if that
/// is `start`, and otherwise only if memory runs out.
///
/// ```
/// // The edges lead from 0 to 1 and from 1 to 2.
/// let reached: BitSet = reachable(alloc, edges, 0)?;
/// assert!(reached.iter().eq([0, 1, 2]));
/// ```
pub fn reachable<B: BitBlock, G: Graph>(
    alloc: Global,
    graph: G,
    start: usize,
) -> Result<BitSet<B>, SetError>
    ensures paths { IfOk result (λ set. (v : ℕ) → IsTrue (has (elements set.values) v) ↔ Path (G.rows graph) start v) }
    ensures element { IsErrOf result SetError.Element → Path (G.rows graph) start usize.MAX }
    ensures no_element { IsOk result → ¬ Path (G.rows graph) start usize.MAX }
    ensures fits { IfErr result (λ fault. fault ≢ SetError.Length) }
    ensures start { start ≡ usize.MAX → IsErrOf result SetError.Element }
{
    reachable_counted(alloc, graph, start, &mut Effort::new())
}

/// [`reachable`], which adds its work to `effort`.
///
/// ```
/// let mut effort = Effort::new();
/// let counted: BitSet = reachable_counted(alloc, edges, 0, &mut effort)?;
/// assert!(counted == reached);
/// ```
pub fn reachable_counted<B: BitBlock, G: Graph>(
    alloc: Global,
    graph: G,
    start: usize,
    effort: &mut Effort,
) -> Result<BitSet<B>, SetError>
    ensures paths { IfOk result (λ set. (v : ℕ) → IsTrue (has (elements set.values) v) ↔ Path (G.rows graph) start v) }
    ensures element { IsErrOf result SetError.Element → Path (G.rows graph) start usize.MAX }
    ensures no_element { IsOk result → ¬ Path (G.rows graph) start usize.MAX }
    ensures fits { IfErr result (λ fault. fault ≢ SetError.Length) }
    ensures start { start ≡ usize.MAX → IsErrOf result SetError.Element }
    ensures nodes { IfOk result (λ set. effort.new.nodes ≡ effort.old.nodes + length (elements set.values)) }
    ensures edges { IfOk result (λ set. effort.new.edges ≡ effort.old.edges
        + sum_by (λ v. length (successors (G.rows graph) v)) (elements set.values)) }
{
    let mut reached = BitSet::new_general(alloc);
    reached.insert(start)?;
    let mut stack = Vec::new(alloc);
    stack.push(start)?;
    explore(graph, &mut reached, stack, effort)?;
    bounded(&reached);
    Ok(reached)
}

/// The nodes to which a path leads from any of `starts`, including these. As in [`reachable`], the edges of each
/// node are looked at once, from however many starts it is reached. With no starts it allocates nothing and
/// succeeds.
///
/// ```
/// // The starts are {1, 2}.
/// let others: BitSet = reachable_from_any(alloc, edges, &starts)?;
/// assert!(others.iter().eq([1, 2]));
/// ```
pub fn reachable_from_any<B: BitBlock, G: Graph>(
    alloc: Global,
    graph: G,
    starts: &BitSet<B>,
) -> Result<BitSet<B>, SetError>
    ensures paths { IfOk result (λ set. (v : ℕ) → IsTrue (has (elements set.values) v)
        ↔ ((s : ℕ) × IsTrue (has (elements starts.now.values) s) × Path (G.rows graph) s v)) }
    ensures element { IsErrOf result SetError.Element
        → (s : ℕ) × IsTrue (has (elements starts.now.values) s) × Path (G.rows graph) s usize.MAX }
    ensures no_element { IsOk result
        → (s : ℕ) → IsTrue (has (elements starts.now.values) s) → ¬ Path (G.rows graph) s usize.MAX }
    ensures fits { IfErr result (λ fault. fault ≢ SetError.Length) }
    ensures none { elements starts.now.values ≡ [] → IsOk result }
{
    reachable_from_any_counted(alloc, graph, starts, &mut Effort::new())
}

/// [`reachable_from_any`], which adds its work to `effort`.
///
/// ```
/// let more: BitSet = reachable_from_any_counted(alloc, edges, &starts, &mut effort)?;
/// assert!(more == others);
/// ```
pub fn reachable_from_any_counted<B: BitBlock, G: Graph>(
    alloc: Global,
    graph: G,
    starts: &BitSet<B>,
    effort: &mut Effort,
) -> Result<BitSet<B>, SetError>
    ensures paths { IfOk result (λ set. (v : ℕ) → IsTrue (has (elements set.values) v)
        ↔ ((s : ℕ) × IsTrue (has (elements starts.now.values) s) × Path (G.rows graph) s v)) }
    ensures element { IsErrOf result SetError.Element
        → (s : ℕ) × IsTrue (has (elements starts.now.values) s) × Path (G.rows graph) s usize.MAX }
    ensures no_element { IsOk result
        → (s : ℕ) → IsTrue (has (elements starts.now.values) s) → ¬ Path (G.rows graph) s usize.MAX }
    ensures fits { IfErr result (λ fault. fault ≢ SetError.Length) }
    ensures nodes { IfOk result (λ set. effort.new.nodes ≡ effort.old.nodes + length (elements set.values)) }
    ensures edges { IfOk result (λ set. effort.new.edges ≡ effort.old.edges
        + sum_by (λ v. length (successors (G.rows graph) v)) (elements set.values)) }
    ensures none { elements starts.now.values ≡ [] → IsOk result }
{
    if starts.is_empty() {
        return Ok(BitSet::new_general(alloc));
    }
    let mut reached = starts.clone(alloc)?;
    let stack = listed(alloc, starts)?;
    explore(graph, &mut reached, stack, effort)?;
    bounded(&reached);
    Ok(reached)
}

// The elements of a set in a list.
fn listed<B: BitBlock>(alloc: Global, set: &BitSet<B>) -> Result<Vec<usize>, AllocError>
    ensures { IfOk result (λ list. list.items ≡ elements set.now.values) }
{
    let mut list = Vec::with_capacity(alloc, set.count())?;
    for element in set.iter() {
        list.push(element)?;
    }
    Ok(list)
}

// Inserts all nodes to which paths lead from those of the set, which are those on the stack.
fn explore<B: BitBlock, G: Graph>(
    graph: G,
    reached: &mut BitSet<B>,
    mut stack: Vec<usize>,
    effort: &mut Effort,
) -> Result<(), SetError>
    requires { stack.items ≡ elements reached.old.values }
    ensures paths { OnOk result ((v : ℕ) → IsTrue (has (elements reached.new.values) v)
        ↔ ((s : ℕ) × IsTrue (has (elements reached.old.values) s) × Path (G.rows graph) s v)) }
    ensures element { IsErrOf result SetError.Element
        → (s : ℕ) × IsTrue (has (elements reached.old.values) s) × Path (G.rows graph) s usize.MAX }
    ensures fits { IfErr result (λ fault. fault ≢ SetError.Length) }
    ensures nodes { OnOk result (effort.new.nodes ≡ effort.old.nodes + length (elements reached.new.values)) }
    ensures edges { OnOk result (effort.new.edges ≡ effort.old.edges
        + sum_by (λ v. length (successors (G.rows graph) v)) (elements reached.new.values)) }
{
    while let Some(node) = stack.pop() {
        effort.nodes.tick();
        if let Some(successors) = graph.successors(node) {
            take_on(successors, reached, &mut stack, &mut effort.edges)?;
        }
        bounded(reached);
    }
    Ok(())
}

// Inserts the items of an iterator, and pushes the new ones on the stack.
fn take_on<B: BitBlock, I: Iterator<Item = usize> + Drop>(
    items: I,
    reached: &mut BitSet<B>,
    stack: &mut Vec<usize>,
    edges: &mut Steps,
) -> Result<(), SetError>
    requires can { I.can_next items }
    requires ends { IsFinite (I.remaining items) }
    ensures all { OnOk result ((given : List ℕ) × Drains I.next_gives items given
        × TakesOn given (elements reached.old.values) stack.old.items (elements reached.new.values) stack.new.items
        × (edges.new ≡ edges.old + length given)) }
    ensures element { IsErrOf result SetError.Element
        → (given : List ℕ) × (rest : I) × YieldsThen I.next_gives items given (Some usize.MAX) rest }
    ensures fits { IfErr result (λ fault. fault ≢ SetError.Length) }
{
    members_of_sets();
    sets_ascend();
    sets_are_their_members();
    for item in items {
        edges.tick();
        if put_new(reached, item)? {
            stack.push(item)?;
        }
    }
    Ok(())
}

// Inserts the item, and returns whether it is new. Most edges lead to nodes that are already present, and the
// caller branches on the result in any case: so the set is read first, and written only if the item is new.
#[inline]
fn put_new<B: BitBlock>(reached: &mut BitSet<B>, item: usize) -> Result<bool, SetError>
    ensures returned { IfOk result (λ new. new ≡ not (has (elements reached.old.values) item)) }
    ensures elements { OnOk result (elements reached.new.values ≡ put (elements reached.old.values) item) }
    ensures fails { IfErr result (λ fault. IsInsertFault fault item reached.old.capacity) }
{
    members_of_sets();
    sets_ascend();
    sets_are_their_members();
    if reached.contains(item) {
        return Ok(false);
    }
    reached.insert(item)
}

// How many elements there can be, and how great.
#[inline]
pub(crate) fn bounded<B: BitBlock>(set: &BitSet<B>)
    ensures few { length (elements set.now.values) < 2 ^ 64 }
    ensures low { (v : ℕ) → IsTrue (has (elements set.now.values) v) → v < usize.MAX }
{
    members_of_sets();
    sizes_of_sets();
    // A call of constant time.
    prove!(set.capacity() <= usize::MAX);
}
