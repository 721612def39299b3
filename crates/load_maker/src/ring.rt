//! The numbers of a load: how many nodes it has, and what differs from node to node.
ghost use Rattle.std.specs.Prelude.{◌≡◌, ◌<◌, ◌≤◌, unwrap_or};
ghost use Rattle.net_model.specs.Ways.{first_difference};
ghost use Rattle.load_model.specs.Load.{route_bit_at, delay_at, gap_at, node_count, next_node, destination_at, first_word_at};

/// How many nodes the load of a number has, 2 to 16.
pub(crate) fn node_count(number: u32) -> u32
    ensures value { result ≡ node_count number }
    ensures most { result ≤ 16 }
{
    2 + number % 15
}

/// The node after node i.
pub(crate) fn next_node(number: u32, i: u32) -> u32
    requires node { i < 16 }
    ensures value { result ≡ next_node number i }
    ensures node { result < 16 }
{
    (i + 1) % node_count(number)
}

/// The delay of the link from node i to the node after it, 1 to 50 slots.
pub(crate) fn delay_at(number: u32, i: u32) -> u32
    requires node { i < 16 }
    ensures value { result ≡ delay_at number i }
{
    1 + (number / 15 + 7 * i) % 50
}

/// The gap of that link, 4 to 8 slots.
pub(crate) fn gap_at(i: u32) -> u32
    requires node { i < 16 }
    ensures value { result ≡ gap_at i }
{
    4 + i % 5
}

/// The highest bit in which the ids of node i and the node after it differ.
pub(crate) fn route_bit_at(number: u32, i: u32) -> u32
    requires node { i < 16 }
    ensures value { result ≡ route_bit_at number i }
{
    highest_difference(i, next_node(number, i))
}

// The highest of the lowest 16 bits in which two ids differ, 0 where none does.
fn highest_difference(a: u32, b: u32) -> u32
    ensures value { result ≡ unwrap_or (first_difference 16 a b) 0 }
{
    let mut highest = 0;
    for bit in 0..16 {
        if (a >> bit) % 2 != (b >> bit) % 2 {
            highest = bit;
        }
    }
    highest
}

/// The identifier of channel end 0 of the node after node i.
pub(crate) fn destination_at(number: u32, i: u32) -> u32
    requires node { i < 16 }
    ensures value { result ≡ destination_at number i }
{
    next_node(number, i) * 65536 + 2
}

/// The word that node i sends first.
pub(crate) fn first_word_at(number: u32, i: u32) -> u32
    requires node { i < 16 }
    ensures value { result ≡ first_word_at number i }
{
    number.wrapping_add(40503 * i)
}
