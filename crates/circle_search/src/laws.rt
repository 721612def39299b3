//! What holds of the circle that is told, and graphs that were worked out by hand.
ghost use Rattle.circle_search.specs.Laws.{CirclesAreOfVertices, CirclesAreTold, ToldCirclesAreCircles, ToldCirclesBeginWithTheirLeast};
ghost use Rattle.circle_search.specs.Worked.{WorkedCircles};

/// What is told is a circle: each of its vertices waits for the next one, the last for the first, and none stands in it twice. The first is
/// the least of them. Whatever stands in a circle is the number of a vertex. It does nothing. See docs/LOOK.md.
pub fn told_circles_are_circles()
    ensures circles { ToldCirclesAreCircles }
    ensures least { ToldCirclesBeginWithTheirLeast }
    ensures vertices { CirclesAreOfVertices }
{}

/// Of a graph in which there is a circle, one is told. It does nothing. See docs/LOOK.md.
pub fn circles_are_told()
    ensures { CirclesAreTold }
{}

/// The circles that are told of small graphs. It does nothing. See docs/LOOK.md.
pub fn worked_circles()
    ensures { WorkedCircles }
{}
