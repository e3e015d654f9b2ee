//! Maps kept in arrays, and graphs.
ghost use Rattle.std.specs.Prelude.{◌≡◌, IfOk, true};

use crate::compare::{holds, same};
use raptorq::arraymap::{ImmutableListMapBuilder, U16ArrayMap, U32VecMap};
use raptorq::error::Error;
use raptorq::graph::{ConnectedComponentGraph, UndirectedGraph};
use std::alloc::Global;
use std::process::Abort;
use std::test::Fail;

#[test]
fn values_in_arrays(rt: HostRuntime) -> Result<(), Error> {
    let mut map = U16ArrayMap::new(rt.alloc(), 5, 8)?;
    map.insert(5, 1);
    map.insert(7, 2);
    map.swap(5, 7);
    same!(rt; map.get(5), 2);
    same!(rt; map.get(7), 1);
    same!(rt; map.keys().count(), 3);
    Ok(())
}

#[test]
fn counts_in_arrays(rt: HostRuntime) -> Result<(), Error> {
    let mut map = U16ArrayMap::new(rt.alloc(), 5, 8)?;
    map.insert(7, 1);
    map.increment(6);
    map.decrement(7);
    same!(rt; map.get(6), 1);
    same!(rt; map.get(7), 0);
    Ok(())
}

#[test]
fn maps_that_grow(rt: HostRuntime) -> Result<(), Fail> {
    let mut map = U32VecMap::new(rt.alloc(), 3)?;
    map.insert(5, 9)?;
    same!(rt; map.get(4), 0);
    same!(rt; map.get(5), 9);
    same!(rt; map.get(9), 0);
    let mut counts = U32VecMap::with_capacity(rt.alloc(), 3, 5)?;
    counts.increment(8)?;
    same!(rt; counts.get(8), 1);
    counts.decrement(8);
    same!(rt; counts.get(8), 0);
    Ok(())
}

#[test]
fn lists_of_ten_keys(rt: HostRuntime) -> Result<(), Fail> {
    let mut builder = ImmutableListMapBuilder::new(rt.alloc(), 10);
    builder.add(0, 1)?;
    builder.add(3, 1)?;
    builder.add(3, 2)?;
    let map = builder.build()?.clone()?;
    same!(rt; map.get(0), [1].as_slice());
    same!(rt; map.get(3), [1, 2].as_slice());
    holds!(rt; map.get(2).is_empty());
    Ok(())
}

// The edges from 3 to 5 and to 8, and one from 8 to itself.
fn three_edges(alloc: Global) -> Result<UndirectedGraph, Error>
    ensures { IfOk result (λ graph. graph.built ≡ true) }
{
    let mut graph = UndirectedGraph::with_capacity(alloc, 0, 10, 3)?;
    for (node1, node2) in [(5, 3), (3, 8), (8, 8)] {
        graph.add_edge(node1, node2)?;
    }
    graph.build();
    Ok(graph)
}

#[test]
fn nodes_of_edges(rt: HostRuntime) -> Result<(), Error> {
    let nodes = three_edges(rt.alloc())?.nodes()?;
    same!(rt; nodes.as_slice(), [3, 5, 8].as_slice());
    Ok(())
}

#[test]
fn neighbours_of_nodes(rt: HostRuntime) -> Result<(), Error> {
    let graph = three_edges(rt.alloc())?;
    same!(rt; graph.get_adjacent_nodes(3).count(), 2);
    same!(rt; graph.get_adjacent_nodes(3).min(), Some(5));
    let loops = graph.get_adjacent_nodes(8).filter(|node| *node == 8);
    same!(rt; loops.count(), 2);
    Ok(())
}

// The third edge makes one component of two.
#[test]
fn merged_components(rt: HostRuntime) -> Result<(), Fail> {
    let mut graph = ConnectedComponentGraph::new(rt.alloc(), 4)?;
    graph.add_edge(0, 1);
    graph.add_edge(2, 3);
    graph.add_edge(1, 2);
    same!(rt; graph.get_node_in_largest_connected_component(2, 4), Some(2));
    Ok(())
}

// The assertions are steps without which no proof is found of what the later calls require.
#[test]
fn connected_components(rt: HostRuntime) -> Result<(), Fail> {
    let mut graph = ConnectedComponentGraph::new(rt.alloc(), 6)?;
    graph.add_edge(0, 1);
    graph.add_edge(3, 4);
    graph.add_edge(4, 5);
    assert_eq!(rt;
        graph.get_node_in_largest_connected_component(0, 6),
        Some(3)
    );
    graph.swap(3, 2);
    graph.remove_node(4);
    graph.remove_node(5);
    assert!(rt; graph.contains(2));
    assert_eq!(rt;
        graph.get_node_in_largest_connected_component(0, 6),
        Some(0)
    );
    graph.reset();
    let component = graph
        .create_connected_component()
        .expect(&rt, "a component");
    graph.add_node(5, component);
    assert_eq!(rt;
        graph.get_node_in_largest_connected_component(0, 6),
        Some(5)
    );
    Ok(())
}
