ghost use Rattle.std.specs.Prelude.{◌≡◌};
ghost use Rattle.xs_model.specs.Dests.{dest_of, id_of};

use xs_base::chan_id;

/// Where a packet goes: a channel end of a node. A header may name any number, and only those below 32 are there. See
/// docs/LINKS.md.
#[derive(Clone, Copy)]
pub struct Dest {
    /// The id of the node, 0 to 65,535.
    pub node: u16,
    /// The number of the channel end, 0 to 255.
    pub chan: u8,
}

impl Dest {
    /// The destination that an identifier of a channel end names.
    pub fn of_id(id: u32) -> Dest
        ensures value { result ≡ dest_of id }
    {
        Dest {
            node: (id / 65_536) as u16,
            chan: (id / 256 % 256) as u8,
        }
    }

    /// The identifier of the channel end.
    pub fn id(self) -> u32
        ensures value { result ≡ id_of self }
    {
        chan_id(self.node, self.chan)
    }
}
