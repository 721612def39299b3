//! A core's threads: their registers, where they go on, what they do, which of them are free, and at what they wait. See
//! docs/THREADS.md.
ghost use Rattle.std.specs.Prelude.{◌≡◌, ◌<◌, IfSome};
ghost use Rattle.xs_base.specs.declared.numbers.TheConstants.{THREADS};
ghost use Rattle.xs_model.specs.Record.{with_run};
ghost use Rattle.xs_model.specs.Free.{lowest_free};
ghost use Rattle.xs_model.specs.Waits.{is_waited_at, is_paused_on};
ghost use Rattle.step_model.specs.Effect.{reg, after_it, goes_on, goes_on_with};
ghost use Rattle.step_model.specs.ThreadRows.{is_taken, thread_to_get};
ghost use Rattle.core_units.specs.Found.{with_thread_got};

use crate::units::Units;
use xs_base::numbers::THREADS;
use xs_model::{Resource, Run, Thread, Wait};

impl Units {
    // ---- Registers, and where a thread goes on

    /// The word of register g of thread k: r0 to r11, cp, dp, sp and lr.
    #[inline]
    pub fn reg(&self, k: u8, g: u8) -> u32
        requires thread { k < THREADS }
        requires register { g < 16 }
        ensures { result ≡ reg self.now k g }
    {
        self.threads[k as usize].reg(g)
    }

    /// Thread k goes on to its next instruction.
    #[inline]
    pub fn go_on(&mut self, k: u8)
        requires { k < THREADS }
        ensures { self.new ≡ goes_on self.old k }
    {
        go_on(&mut self.threads[k as usize]);
    }

    /// The same, with this word in register d.
    #[inline]
    pub fn go_on_with(&mut self, k: u8, d: u8, word: u32)
        requires thread { k < THREADS }
        requires register { d < 16 }
        ensures { self.new ≡ goes_on_with self.old k d word }
    {
        let thread = &mut self.threads[k as usize];
        thread.set_reg(d, word);
        go_on(thread);
    }

    // ---- What threads do

    /// What thread k does from now on.
    #[inline]
    pub fn set_run(&mut self, k: u8, run: Run)
        requires thread { k < THREADS }
        ensures { self.new ≡ with_run self.old k run }
    {
        self.threads[k as usize].run = run;
    }

    /// Gets the lowest free thread: it is unstarted, its registers are 0, and the slot is its last issue.
    pub fn get_thread(&mut self, slot: u32) -> Option<u8>
        ensures lowest { result ≡ thread_to_get self.old }
        ensures got { self.new ≡ with_thread_got self.old slot (thread_to_get self.old) }
        ensures within { IfSome result (λ j. j < THREADS) }
    {
        let free = free_thread(&self.threads)?;
        self.threads[free as usize] = Thread::fresh();
        self.slots.mark_issue(free, slot);
        Some(free)
    }

    /// Whether a thread is paused on a resource.
    pub fn is_paused_on(&self, resource: Resource) -> bool
        ensures { result ≡ is_paused_on self.now resource }
    {
        core_waits::is_paused_on(&self.threads, resource)
    }

    /// Whether a thread is paused where one would be with this wait.
    pub fn is_waited_at(&self, wait: Wait) -> bool
        ensures { result ≡ is_waited_at self.now wait }
    {
        core_waits::is_waited_at(&self.threads, wait)
    }
}

// Goes on to the next instruction.
fn go_on(thread: &mut Thread)
    ensures { thread.new ≡ after_it thread.old }
{
    thread.pc = thread.pc.wrapping_add(4);
}

// The lowest thread that is free.
fn free_thread(threads: &[Thread; 8]) -> Option<u8>
    ensures lowest { result ≡ lowest_free (λ th. is_taken th.run) threads.now 0 }
    ensures within { IfSome result (λ j. j < THREADS) }
{
    for k in 0..THREADS {
        if !is_taken(threads[k as usize].run) {
            return Some(k);
        }
    }
    None
}

fn is_taken(run: Run) -> bool
    ensures { result ≡ is_taken run }
{
    !matches!(run, Run::Free)
}
