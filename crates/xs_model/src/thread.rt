ghost use Rattle.std.specs.Prelude.{◌≡◌, ◌<◌, ◌≤◌};
ghost use Rattle.xs_model.specs.Threads.{register, with_register, first_thread, fresh_thread};

use crate::status::Status;
use bitflags::Flags;
use xs_base::numbers::MEMORY_START;

/// How many slots from a division on, that one with it, the core's divider is not free.
pub const DIVISION_SLOTS: u32 = 32;

/// What a paused thread waits for.
#[derive(Clone, Copy)]
pub enum Wait {
    /// Room for `count` tokens in the output buffer of a channel end.
    Room { chan: u8, count: u8 },
    /// `count` tokens, or a control token among the first `count`, in the input buffer of a channel end.
    Tokens { chan: u8, count: u8 },
    /// A port's transfer register is full.
    PortFull { port: u8 },
    /// A port's transfer register is empty.
    PortEmpty { port: u8 },
    /// A port has nothing left to put out.
    PortIdle { port: u8 },
    /// A timer's condition.
    Timer { timer: u8 },
    /// A lock is free.
    Lock { lock: u8 },
    /// All slaves of a synchroniser are in.
    Slaves { sync: u8 },
    /// An event or an interrupt, and nothing else.
    Choice,
    /// The core's divider is free.
    Divider,
}

/// What at most one thread of a core may wait at.
#[derive(Clone, Copy)]
pub enum Thing {
    /// The output side of a channel end.
    Output { chan: u8 },
    /// The input side of a channel end.
    Input { chan: u8 },
    Port { port: u8 },
    Timer { timer: u8 },
}

/// What a thread does.
#[derive(Clone, Copy)]
pub enum Run {
    Free,
    Unstarted,
    AtSync,
    Going,
    Paused(Wait),
    Halted,
}

/// How the issue of one instruction ends.
#[derive(Clone, Copy)]
pub enum Outcome {
    Done,
    Pause(Wait),
    Trap { et: u32, ed: u32 },
    Gone,
}

/// Where thread 0 starts: the address of an image's first instruction to issue, and that of its constant pool.
#[derive(Clone, Copy)]
pub struct Entry0 {
    pub pc: u32,
    pub cp: u32,
}

/// A thread's registers, and what it does.
#[derive(Clone, Copy)]
pub struct Thread {
    pub r: [u32; 12],
    pub cp: u32,
    pub dp: u32,
    pub sp: u32,
    pub lr: u32,
    pub pc: u32,
    pub sr: Status,
    pub spc: u32,
    pub ssr: Status,
    pub et: u32,
    pub ed: u32,
    pub sed: u32,
    pub kep: u32,
    pub ksp: u32,
    pub run: Run,
}

impl Thread {
    /// A thread that was just got: unstarted, all registers 0.
    pub fn fresh() -> Thread
        ensures value { result ≡ fresh_thread }
    {
        Thread {
            r: [0; 12],
            cp: 0,
            dp: 0,
            sp: 0,
            lr: 0,
            pc: 0,
            sr: Status::empty(),
            spc: 0,
            ssr: Status::empty(),
            et: 0,
            ed: 0,
            sed: 0,
            kep: 0,
            ksp: 0,
            run: Run::Unstarted,
        }
    }

    /// Thread 0 as a node starts: going at its image's entry.
    pub fn first(image: &Entry0) -> Thread
        ensures value { result ≡ first_thread image.now.pc image.now.cp }
    {
        let mut thread = Thread::fresh();
        thread.pc = image.pc;
        thread.cp = image.cp;
        thread.dp = MEMORY_START;
        thread.sp = 0x0001_FFFC;
        thread.run = Run::Going;
        thread
    }

    /// The register with the number `g`: 0 to 11 are r0 to r11, 12 is cp, 13 dp, 14 sp and 15 lr.
    #[inline]
    pub fn reg(&self, g: u8) -> u32
        requires { g < 16 }
        ensures value { result ≡ register self.now g }
    {
        match g {
            12 => self.cp,
            13 => self.dp,
            14 => self.sp,
            15 => self.lr,
            _ => self.r[g as usize],
        }
    }

    /// Sets the register with the number `g`, as `reg` counts them.
    #[inline]
    pub fn set_reg(&mut self, g: u8, v: u32)
        requires { g < 16 }
        ensures value { self.new ≡ with_register self.old g v }
    {
        match g {
            12 => self.cp = v,
            13 => self.dp = v,
            14 => self.sp = v,
            15 => self.lr = v,
            _ => self.r[g as usize] = v,
        }
    }
}
