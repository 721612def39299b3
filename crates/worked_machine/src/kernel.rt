ghost use Rattle.worked_machine.specs.Kernel.{WorkedKernel};

/// A law: the definitions give what was worked out by hand for the rows on the kernel, and of how traps, events and
/// interrupts are entered. It does nothing.
pub fn worked_kernel()
    ensures { WorkedKernel }
{}
