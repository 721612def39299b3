//! `Drives`, what the ports of a node drove when they were last looked at.
ghost use Rattle.std.specs.Prelude.{◌≡◌, ◌<◌, ◌↔◌, None, length, replicate, slice_index_or, slice_set};
ghost use Rattle.xs_base.specs.declared.numbers.TheConstants.{PORTS};
ghost use Rattle.pin_wires.specs.Wires.{driven_or_low, new_level};

use std::marker::Model;

/// What each of a node's 29 ports drove when it was last looked at, 0 where it drove nothing: so it is known when a wire that
/// begins at a port has something to tell. Contracts see the list of these levels, by port number. See docs/PORTS.md.
#[derive(Drop)]
pub struct Drives {
    last: [u32; 29],
}

impl Model for Drives {
    ghost use Rattle.std.specs.Prelude.{List};
    ghost use Rattle.xs_base.specs.Numbers.{Word};

    ghost Value = { List Word };

    ghost view = { λ drives. drives.last };
}

impl Drives {
    /// Before the first look: the levels are 0. It takes no memory.
    pub fn new() -> Drives
        ensures { result ≡ replicate 29 0 }
    {
        Drives { last: [0; 29] }
    }

    /// Looks at what a port, 0 to 28, drives, `None` where it drives nothing, and keeps its level, which is 0 then. The answer is
    /// that level where it differs from the one at the last look, and `None` exactly where it is the same. It takes no memory.
    #[inline]
    pub fn change(&mut self, port: u8, now: Option<u32>) -> Option<u32>
        requires port { port < PORTS }
        ensures told { result ≡ new_level (slice_index_or self.old port 0) (driven_or_low now) }
        ensures none { result ≡ None ↔ driven_or_low now ≡ slice_index_or self.old port 0 }
        ensures kept { self.new ≡ slice_set self.old port (driven_or_low now) }
        ensures ports { length self.new ≡ PORTS }
    {
        let last = self.last[port as usize];
        let level = now.unwrap_or(0);
        self.last[port as usize] = level;
        if level == last { None } else { Some(level) }
    }
}
