ghost use Rattle.worked_texts.specs.SourceLines.{WorkedBadBytes, WorkedUnknownNames, WorkedShapes, WorkedRanges, WorkedLabels, WorkedSizes, WorkedSections, WorkedPadding, WorkedOrder, WorkedOffsets, WorkedLimits};

/// A law: the definitions give what was worked out by hand for sources. It does nothing. See docs/ASSEMBLY.md.
pub fn worked_source_lines()
    ensures bad_bytes { WorkedBadBytes }
    ensures unknown_names { WorkedUnknownNames }
    ensures shapes { WorkedShapes }
    ensures ranges { WorkedRanges }
    ensures labels { WorkedLabels }
    ensures sizes { WorkedSizes }
    ensures sections { WorkedSections }
    ensures padding { WorkedPadding }
    ensures order { WorkedOrder }
    ensures offsets { WorkedOffsets }
    ensures limits { WorkedLimits }
{}
