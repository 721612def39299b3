//! The circle that is told of a graph.

use circle_search::circle;
use std::alloc::{AllocError, Global};
use std::process::Abort;
use std::test::Fail;

// A graph of the vertices that each vertex waits for.
fn graph_of(alloc: Global, rows: &[&[u16]]) -> Result<Vec<Vec<u16>>, AllocError> {
    let mut graph = Vec::new(alloc);
    for row in rows {
        graph.push(row.iter().copied().collect(alloc)?)?;
    }
    Ok(graph)
}

// The circle that is told of a graph of at most 16 vertices, empty where none is.
fn told(alloc: Global, rows: &[&[u16]]) -> Result<Vec<u16>, AllocError> {
    let graph = graph_of(alloc, rows)?;
    let found = circle(alloc, &graph[..graph.len().min(16)])?;
    Ok(found.unwrap_or(Vec::new(alloc)))
}

#[test]
fn circles(rt: HostRuntime) -> Result<(), AllocError> {
    let table: [(&[&[u16]], &[u16]); 7] = [
        (&[], &[]),
        (&[&[], &[0], &[0, 1]], &[]),
        (&[&[], &[0, 1]], &[1]),
        (&[&[1], &[2], &[1]], &[1, 2]),
        (&[&[1, 2], &[3], &[3], &[]], &[]),
        (&[&[3], &[2], &[3], &[1]], &[1, 2, 3]),
        (&[&[9, 4], &[], &[0], &[], &[1, 2]], &[0, 4, 2]),
    ];
    for (rows, expected) in table {
        let row = told(rt.alloc(), rows)?;
        assert_eq!(rt; row.as_slice(), expected);
    }
    Ok(())
}
