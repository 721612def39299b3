//! Lines of frames.
ghost use Rattle.worked_explained.specs.FrameLines.{FramesTold};

/// What is told of faulty lines of frames. It does nothing. See docs/LOOK.md.
pub fn worked_frame_lines()
    ensures told { FramesTold }
{}
