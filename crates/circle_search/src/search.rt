//! `circle`, the circle that is told of a graph.
ghost use Rattle.std.specs.Prelude.{◌≡◌, ◌≤◌, ◌==◌, drop, length, map, find, position, IfOk, []};
ghost use Rattle.std.specs.Option.{option_map};
ghost use Rattle.std.specs.List.{list_any, position_or_len};
ghost use Rattle.circle_search.specs.Circles.{is_left, peeled, left_after, next_left, from_vertex, circle_on, is_least, least_place, from_least, circle_of};

use std::alloc::{AllocError, Global};

/// The circle that is told of a graph of at most 65536 vertices, which has, for each vertex by its number, the vertices that it waits for:
/// `None` exactly where there is no circle. It begins with its least vertex. Of more than one it is that to which a walk comes which begins at
/// the least vertex that is on a circle or leads to one, and goes on each time to the first such that its vertex waits for. The only error is
/// want of memory. It takes as many steps as vertices times edges. See docs/LOOK.md.
pub fn circle(alloc: Global, graph: &[Vec<u16>]) -> Result<Option<Vec<u16>>, AllocError>
    requires few { length graph.now ≤ 65536 }
    ensures value { IfOk result (λ told. option_map (λ row. row.items) told ≡ circle_of (map (λ edges. edges.items) graph.now)) }
{
    let left = left_at_last(alloc, graph)?;
    match least_left(left.as_slice()) {
        None => Ok(None),
        Some(start) => {
            let row = circle_on(alloc, graph, left.as_slice(), start as u16)?;
            Ok(Some(from_least(row)))
        }
    }
}

// The least vertex that is left.
fn least_left(left: &[bool]) -> Option<usize>
    ensures value { result ≡ position (λ is_left. is_left) left.now }
{
    left.iter().position(|is_left| *is_left)
}

// Which vertices are left after as many rounds as there are vertices.
fn left_at_last(alloc: Global, graph: &[Vec<u16>]) -> Result<Vec<bool>, AllocError>
    ensures value { IfOk result (λ left. left.items ≡ left_after (map (λ edges. edges.items) graph.now) (length graph.now)) }
{
    let mut left = vec![in alloc; true; graph.len()]?;
    'rounds: for _ in graph {
        left = peeled(alloc, graph, left.as_slice())?;
    }
    Ok(left)
}

// Which vertices wait for one that is left.
fn peeled(alloc: Global, graph: &[Vec<u16>], left: &[bool]) -> Result<Vec<bool>, AllocError>
    ensures value { IfOk result (λ still. still.items ≡ map (λ edges. list_any (is_left left.now) edges.items) graph.now) }
{
    graph
        .iter()
        .map(|edges| any_left(left, edges.as_slice()))
        .collect(alloc)
}

fn any_left(left: &[bool], edges: &[u16]) -> bool
    ensures value { result ≡ list_any (is_left left.now) edges.now }
{
    edges.iter().any(|vertex| is_left(left, *vertex))
}

// Whether a vertex is left, which a number that is no vertex's is not.
fn is_left(left: &[bool], vertex: u16) -> bool
    ensures value { result ≡ is_left left.now vertex }
{
    left.get(vertex as usize).copied().unwrap_or(false)
}

// The circle to which a walk comes from a vertex, each time to the first that is left.
fn circle_on(
    alloc: Global,
    graph: &[Vec<u16>],
    left: &[bool],
    start: u16,
) -> Result<Vec<u16>, AllocError>
    ensures value { IfOk result (λ row. row.items ≡ circle_on (map (λ edges. edges.items) graph.now) left.now (length graph.now) [] start) }
{
    let mut row = Vec::new(alloc);
    let mut vertex = start;
    'walk: for _ in graph {
        if row.contains(&vertex) {
            break;
        }
        row.push(vertex)?;
        vertex = next_left(graph, left, vertex);
    }
    from_vertex(alloc, row.as_slice(), vertex)
}

// The first that is left of those that a vertex waits for, 0 where there is none.
fn next_left(graph: &[Vec<u16>], left: &[bool], vertex: u16) -> u16
    ensures value { result ≡ next_left (map (λ edges. edges.items) graph.now) left.now vertex }
{
    match graph.get(vertex as usize) {
        Some(edges) => first_left(left, edges.as_slice()).unwrap_or(0),
        None => 0,
    }
}

fn first_left(left: &[bool], edges: &[u16]) -> Option<u16>
    ensures value { result ≡ find (is_left left.now) edges.now }
{
    edges.iter().copied().find(|vertex| is_left(left, *vertex))
}

// A row from a vertex on.
fn from_vertex(alloc: Global, row: &[u16], vertex: u16) -> Result<Vec<u16>, AllocError>
    ensures value { IfOk result (λ rest. rest.items ≡ drop (position_or_len (λ other. other == vertex) row.now) row.now) }
{
    row.iter()
        .copied()
        .skip_while(|other| *other != vertex)
        .collect(alloc)
}

// A circle from its least vertex on.
fn from_least(mut row: Vec<u16>) -> Vec<u16>
    ensures value { result.items ≡ from_least row.items }
{
    let place = least_place(row.as_slice());
    row.rotate_left(place);
    row
}

// Where the least of a row stands.
fn least_place(row: &[u16]) -> usize
    ensures value { result ≡ least_place row.now }
    ensures within { result ≤ length row.now }
{
    place_of_least(row).unwrap_or(0)
}

fn place_of_least(row: &[u16]) -> Option<usize>
    ensures value { result ≡ position (is_least row.now) row.now }
{
    row.iter().position(|vertex| is_least(row, *vertex))
}

// Whether none of a row is less.
fn is_least(row: &[u16], vertex: u16) -> bool
    ensures value { result ≡ is_least row.now vertex }
{
    row.iter().all(|other| vertex <= *other)
}
