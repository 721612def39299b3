//! Pieces of what is written: as bytes of texts, which are proved sooner than long literals of bytes.
ghost use Rattle.std.specs.Prelude.{◌≡◌, codes};

pub(crate) fn no_difference() -> &'static [u8]
    ensures { result.now ≡ codes "no id here differs from that of node " }
{
    "no id here differs from that of node ".as_bytes()
}

pub(crate) fn first_in_bit() -> &'static [u8]
    ensures { result.now ≡ codes " first in bit " }
{
    " first in bit ".as_bytes()
}

pub(crate) fn no_way() -> &'static [u8]
    ensures { result.now ≡ codes " has no way to node " }
{
    " has no way to node ".as_bytes()
}

pub(crate) fn no_line() -> &'static [u8]
    ensures { result.now ≡ codes ": it has no line bit " }
{
    ": it has no line bit ".as_bytes()
}

pub(crate) fn code_ends() -> &'static [u8]
    ensures { result.now ≡ codes "the code ends behind this instruction" }
{
    "the code ends behind this instruction".as_bytes()
}

pub(crate) fn nothing_behind() -> &'static [u8]
    ensures { result.now ≡ codes "no instruction comes after the label " }
{
    "no instruction comes after the label ".as_bytes()
}

pub(crate) fn named_nowhere() -> &'static [u8]
    ensures { result.now ≡ codes " is named nowhere" }
{
    " is named nowhere".as_bytes()
}

pub(crate) fn named_nowhere_else() -> &'static [u8]
    ensures { result.now ≡ codes " is named nowhere else" }
{
    " is named nowhere else".as_bytes()
}

pub(crate) fn no_node() -> &'static [u8]
    ensures { result.now ≡ codes "no node has the id " }
{
    "no node has the id ".as_bytes()
}

pub(crate) fn warning() -> &'static [u8]
    ensures { result.now ≡ codes ": warning: " }
{
    ": warning: ".as_bytes()
}
