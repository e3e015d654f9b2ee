//! Graphs whose nodes are numbers.
ghost use Rattle.std.specs.Prelude.{◌≡◌, ℕ, ◌*◌, ◌^◌, ◌<◌, ◌↔◌, ◌++◌, ◌∷◌, [], true, false, IsTrue, length, map, Contains, Ok, IfOk, OnOk, IfErr, slice_index, ◌-◌};
ghost use Rattle.std.specs.Iterator.{YieldsFirst, item_count};
ghost use Rattle.std.specs.List.Sorted.{IsPermutation, IsStrictlyIncreasing, IsNonDecreasingBy};
ghost use Rattle.rq_bytes.specs.Refusals.{IsAnswer};
ghost use Rattle.rq_bytes.specs.declared.error.Error.TheVariants.{OutOfMemory};
ghost use Rattle.rq_parts.specs.ImmutableListMap.{values_of, IsStart};
ghost use Rattle.rq_parts.specs.UndirectedGraph.{nodes_of};

mod components;

pub use components::ConnectedComponentGraph;
use rq_bytes::error::Error;
use rq_bytes::slices::part;
use std::alloc::Global;
use std::marker::Model;

/// A graph whose edges have no direction. Edges are added, and after `build` looked up. Contracts
/// see each edge from both of its ends, in no order that is promised, and whether the graph is
/// built.
///
/// Kept for the surface of `raptorq`; no coder calls it.
#[derive(Debug, Drop)]
pub struct UndirectedGraph {
    ends: Vec<(u16, u16)>,
    is_built: bool,
}

impl Model for UndirectedGraph {
    ghost use Rattle.rq_parts.specs.UndirectedGraph.{Graph, IsOrderedWhereBuilt};

    ghost Value = { Graph };

    ghost view = { λ g. record { ends = g.ends.items; built = g.is_built } };

    ghost invariant = { IsOrderedWhereBuilt };
}

impl UndirectedGraph {
    /// A graph without edges, with memory for `edges`. The range of its nodes does nothing here.
    pub fn with_capacity(alloc: Global, _: u16, _: u16, edges: usize) -> Result<Self, Error>
        requires { 2 * edges < 2 ^ 64 }
        ensures { IsAnswer (λ g. g) result (Ok (record { ends = []; built = false })) }
    {
        Ok(UndirectedGraph {
            ends: Vec::with_capacity(alloc, 2 * edges)?,
            is_built: false,
        })
    }

    /// Adds an edge. An edge to itself is at its node twice.
    pub fn add_edge(&mut self, node1: u16, node2: u16) -> Result<(), Error>
        ensures added { OnOk result (self.new ≡ record { ends = self.old.ends ++ (node1, node2) ∷ (node2, node1) ∷ []; built = false }) }
        ensures err { IfErr result (λ e. (e ≡ OutOfMemory) × (self.new ≡ self.old)) }
    {
        self.ends
            .extend_from_slice(&[(node1, node2), (node2, node1)])?;
        self.is_built = false;
        Ok(())
    }

    /// Makes the edges ready to be looked up.
    pub fn build(&mut self)
        ensures built { self.new.built ≡ true }
        ensures same { IsPermutation self.old.ends self.new.ends }
    {
        order_by_node(self.ends.as_mut_slice());
        self.is_built = true;
    }

    /// The neighbours of a node, each once an edge, the node itself twice for an edge to itself.
    pub fn get_adjacent_nodes(&self, node: u16) -> AdjacentIterator<'_>
        requires { self.now.built ≡ true }
        ensures { result ≡ values_of self.now.ends node }
    {
        let node = usize::from(node);
        let ends = self.ends.as_slice();
        AdjacentIterator {
            ends: part(ends, first_from(ends, node), first_from(ends, node + 1)),
        }
    }

    /// The nodes that have an edge, in ascending order, each once.
    pub fn nodes(&self) -> Result<Vec<u16>, Error>
        requires { self.now.built ≡ true }
        ensures ascending { IfOk result (λ nodes. IsStrictlyIncreasing nodes.items) }
        ensures all { IfOk result (λ nodes. (node : ℕ) → Contains nodes.items node ↔ Contains (nodes_of self.now.ends) node) }
        ensures memory { IfErr result (λ e. e ≡ OutOfMemory) }
    {
        let mut nodes = Vec::new(*self.ends.allocator());
        for end in self.ends.as_slice() {
            if !is_last(nodes.as_slice(), end.0) {
                nodes.push(end.0)?;
            }
        }
        Ok(nodes)
    }
}

/// The neighbours of a node that are left. Contracts see their list.
#[derive(Debug, Drop)]
pub struct AdjacentIterator<'a> {
    ends: &'a [(u16, u16)],
}

impl<'a> Model for AdjacentIterator<'a> {
    ghost use Rattle.std.specs.Prelude.{ℕ, List, map};

    ghost Value = { List ℕ };

    ghost view = { λ s. map (λ end. end.1) s.ends.now };
}

impl Iterator for AdjacentIterator<'_> {
    type Item = u16;

    ghost next_gives = { YieldsFirst (λ s. s) };

    ghost remaining = { item_count (λ s. s) };

    fn next(&mut self) -> Option<u16> {
        let (first, others) = self.ends.split_first()?;
        self.ends = others;
        Some(first.1)
    }
}

// Puts the ends of edges in the order of the nodes that they begin at.
fn order_by_node(ends: &mut [(u16, u16)])
    ensures sorted { IsNonDecreasingBy (λ end. end.0) ends.new }
    ensures same { IsPermutation ends.old ends.new }
{
    ends.sort_unstable_by_key(|end| end.0);
}

// Where the edges of the nodes from one on start.
fn first_from(ends: &[(u16, u16)], node: usize) -> usize
    requires { IsNonDecreasingBy (λ end. end.0) ends.now }
    ensures { IsStart ends.now node result }
{
    ends.partition_point(|end| usize::from(end.0) < node)
}

// Whether a node was the last to be listed, so that it isn't listed again.
fn is_last(nodes: &[u16], node: u16) -> bool
    ensures { IsTrue result ↔ ((0 < length nodes.now) × (slice_index nodes.now (length nodes.now - 1) ≡ node)) }
{
    match nodes.last() {
        Some(last) => *last == node,
        None => false,
    }
}
