ghost use Rattle.worked_machine.specs.Threads.{WorkedThreads};

/// A law: the definitions give what was worked out by hand for the rows on threads. It does nothing.
pub fn worked_threads()
    ensures { WorkedThreads }
{}
