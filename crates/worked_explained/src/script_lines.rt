//! Lines of pin scripts.
ghost use Rattle.worked_explained.specs.ScriptLines.{ScriptsTold};

/// What is told of faulty lines of pin scripts, of each kind. It does nothing. See docs/LOOK.md.
pub fn worked_script_lines()
    ensures told { ScriptsTold }
{}
