//! The connected components of a graph.
ghost use Rattle.std.specs.Prelude.{◌≡◌, ◌≢◌, ◌+◌, ◌^◌, ◌<◌, ◌≤◌, ◌↔◌, IsTrue, length, replicate, Ok, IfSome, IfNone, slice_index, slice_set};
ghost use Rattle.std.specs.List.{swap};
ghost use Rattle.rq_bytes.specs.Refusals.{IsAnswer};
ghost use Rattle.rq_parts.specs.ConnectedComponentGraph.{with_edge};

use crate::arraymap::U16ArrayMap;
use rq_bytes::error::Error;
use std::alloc::Global;
use std::marker::Model;

const NO_COMPONENT: u16 = 0;

/// The connected components of a graph whose nodes are the numbers below a limit. Which nodes are
/// in a component is exact; which components are one, and how large they are, is advice. Contracts
/// see the number of each node's component when it was added, 0 for none, and how many components
/// were created.
#[derive(Debug, Drop)]
pub struct ConnectedComponentGraph {
    labels: U16ArrayMap,
    parents: U16ArrayMap,
    sizes: U16ArrayMap,
    created: usize,
}

impl Model for ConnectedComponentGraph {
    ghost use Rattle.rq_parts.specs.ConnectedComponentGraph.{Components, AreComponents};

    ghost Value = { Components };

    ghost view = { λ g. record { labels = g.labels.values; created = g.created } };

    ghost invariant = { AreComponents };
}

impl ConnectedComponentGraph {
    /// A graph of the nodes below `max_nodes`, none of them in a component.
    pub fn new(alloc: Global, max_nodes: usize) -> Result<Self, Error>
        requires { max_nodes < 2 ^ 16 }
        ensures { IsAnswer (λ g. g) result (Ok (record { labels = replicate max_nodes 0; created = 0 })) }
    {
        let labels = U16ArrayMap::new(alloc, 0, max_nodes)?;
        let mut parents = U16ArrayMap::new(alloc, 0, max_nodes + 1)?;
        make_own_parents(&mut parents, max_nodes);
        let sizes = U16ArrayMap::new(alloc, 0, max_nodes + 1)?;
        Ok(ConnectedComponentGraph {
            labels,
            parents,
            sizes,
            created: 0,
        })
    }

    /// Creates a component without nodes, and answers its number, or `None` where there are as many
    /// components as nodes.
    pub fn create_connected_component(&mut self) -> Option<u16>
        ensures created { IfSome result (λ component. (component ≡ self.old.created + 1) × (self.new ≡ record self.old { created = component })) }
        ensures room { IfSome result (λ component. self.old.created < length self.old.labels) }
        ensures full { IfNone result ((self.old.created ≡ length self.old.labels) × (self.new ≡ self.old)) }
    {
        if self.created == self.labels.keys().end {
            return None;
        }
        self.created += 1;
        Some(self.created as u16)
    }

    /// Puts a node into a component.
    pub fn add_node(&mut self, node: usize, connected_component: u16)
        requires node { node < length self.old.labels }
        requires some { 1 ≤ connected_component }
        requires created { connected_component ≤ self.old.created }
        ensures { self.new ≡ record self.old { labels = slice_set self.old.labels node connected_component } }
    {
        let id = usize::from(root_of(&self.parents, connected_component));
        let size = self.sizes.get(id);
        self.sizes.insert(id, size.saturating_add(1));
        self.labels.insert(node, connected_component);
    }

    /// Exchanges two nodes.
    pub fn swap(&mut self, node1: usize, node2: usize)
        requires first { node1 < length self.old.labels }
        requires second { node2 < length self.old.labels }
        ensures { self.new ≡ record self.old { labels = swap self.old.labels node1 node2 } }
    {
        self.labels.swap(node1, node2);
    }

    /// Whether a node is in a component.
    pub fn contains(&self, node: usize) -> bool
        requires { node < length self.now.labels }
        ensures { IsTrue result ↔ (slice_index self.now.labels node ≢ 0) }
    {
        self.labels.get(node) != NO_COMPONENT
    }

    /// Takes a node out of its component, if it is in one.
    pub fn remove_node(&mut self, node: usize)
        requires { node < length self.old.labels }
        ensures { self.new ≡ record self.old { labels = slice_set self.old.labels node 0 } }
    {
        let id = usize::from(root_of(&self.parents, self.labels.get(node)));
        let size = self.sizes.get(id);
        self.sizes.insert(id, size.saturating_sub(1));
        self.labels.insert(node, NO_COMPONENT);
    }

    /// A node from `start_node` on and before `end_node` that is in the largest component, or `None`
    /// where there is none.
    pub fn get_node_in_largest_connected_component(
        &self,
        start_node: usize,
        end_node: usize,
    ) -> Option<usize>
        requires range { start_node ≤ end_node }
        requires nodes { end_node ≤ length self.now.labels }
        ensures { IfSome result (λ node. (start_node ≤ node) × (node < end_node)) }
    {
        let largest = self.largest_component()?;
        for node in start_node..end_node {
            if root_of(&self.parents, self.labels.get(node)) == largest {
                return Some(node);
            }
        }
        None
    }

    /// Puts the ends of an edge into one component: that of the end that is in one, or else a new one
    /// where there can be one. Where both are in one already, these two become one.
    pub fn add_edge(&mut self, node1: usize, node2: usize)
        requires first { node1 < length self.old.labels }
        requires second { node2 < length self.old.labels }
        ensures nodes { length self.new.labels ≡ length self.old.labels }
        ensures edge { self.new ≡ with_edge self.old node1 node2 }
    {
        let first = self.labels.get(node1);
        let second = self.labels.get(node2);
        if first != NO_COMPONENT && second != NO_COMPONENT {
            self.merge(first, second);
        } else if first != NO_COMPONENT {
            self.add_node(node2, first);
        } else if second != NO_COMPONENT {
            self.add_node(node1, second);
        } else if let Some(component) = self.create_connected_component() {
            self.add_node(node1, component);
            self.add_node(node2, component);
        }
    }

    /// Takes all nodes out of their components, and forgets these.
    pub fn reset(&mut self)
        ensures { self.new ≡ record { labels = replicate (length self.old.labels) 0; created = 0 } }
    {
        make_zeros(&mut self.sizes);
        let max_nodes = self.labels.keys().end;
        make_own_parents(&mut self.parents, max_nodes);
        make_zeros(&mut self.labels);
        self.created = 0;
    }

    // The component with the most nodes, if one has any.
    fn largest_component(&self) -> Option<u16> {
        let mut largest = None;
        let mut most = 0;
        for component in 1..self.created + 1 {
            let size = self.sizes.get(component);
            if size > most {
                most = size;
                largest = Some(component as u16);
            }
        }
        largest
    }

    // Makes one component of two.
    fn merge(&mut self, first: u16, second: u16)
        requires first { first ≤ length self.old.labels }
        requires second { second ≤ length self.old.labels }
        ensures { self.new ≡ self.old }
    {
        let first = root_of(&self.parents, first);
        let second = root_of(&self.parents, second);
        if first == second {
            return;
        }
        let into = usize::from(first.min(second));
        let from = usize::from(first.max(second));
        let size = self.sizes.get(into).saturating_add(self.sizes.get(from));
        self.sizes.insert(into, size);
        self.sizes.insert(from, 0);
        self.parents.insert(from, into as u16);
    }
}

// Sets each number to zero.
fn make_zeros(numbers: &mut U16ArrayMap)
    ensures start { numbers.new.start ≡ numbers.old.start }
    ensures zeros { numbers.new.values ≡ replicate (length numbers.old.values) 0 }
{
    let keys = numbers.keys();
    for key in keys.start..keys.end {
        numbers.insert(key, 0);
    }
}

// Makes each component up to one a component of its own.
fn make_own_parents(parents: &mut U16ArrayMap, last: usize)
    requires first { parents.old.start ≡ 0 }
    requires room { last < length parents.old.values }
    requires few { last < 2 ^ 16 }
    ensures start { parents.new.start ≡ 0 }
    ensures len { length parents.new.values ≡ length parents.old.values }
{
    for id in 0..last + 1 {
        parents.insert(id, id as u16);
    }
}

// The component that a component was merged into. Merging goes from higher numbers to lower ones.
fn root_of(parents: &U16ArrayMap, component: u16) -> u16
    requires first { parents.now.start ≡ 0 }
    requires known { component < length parents.now.values }
    ensures { result ≤ component }
{
    let mut root = component;
    while parents.get(usize::from(root)) < root {
        root = parents.get(usize::from(root));
    }
    root
}
