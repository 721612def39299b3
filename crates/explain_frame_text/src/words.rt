//! Pieces of what is written: as bytes of texts, which are proved sooner than long literals of bytes.
ghost use Rattle.std.specs.Prelude.{◌≡◌, codes};

pub(crate) fn this_line_gives() -> &'static [u8]
    ensures { result.now ≡ codes "this line gives it already\n" }
{
    "this line gives it already\n".as_bytes()
}

pub(crate) fn nodes_given_before() -> &'static [u8]
    ensures { result.now ≡ codes "nodes given before: " }
{
    "nodes given before: ".as_bytes()
}

pub(crate) fn ends_of_node() -> &'static [u8]
    ensures { result.now ≡ codes "ends of node " }
{
    "ends of node ".as_bytes()
}

pub(crate) fn given_before() -> &'static [u8]
    ensures { result.now ≡ codes " given before: " }
{
    " given before: ".as_bytes()
}

pub(crate) fn both_of_node() -> &'static [u8]
    ensures { result.now ≡ codes "both are of node " }
{
    "both are of node ".as_bytes()
}

pub(crate) fn has_width() -> &'static [u8]
    ensures { result.now ≡ codes " has width " }
{
    " has width ".as_bytes()
}

pub(crate) fn too_many_nodes() -> &'static [u8]
    ensures { result.now ≡ codes "a system has at most 16 nodes\n" }
{
    "a system has at most 16 nodes\n".as_bytes()
}

pub(crate) fn too_many_links() -> &'static [u8]
    ensures { result.now ≡ codes "a system has at most 48 links\n" }
{
    "a system has at most 48 links\n".as_bytes()
}

pub(crate) fn too_many_wires() -> &'static [u8]
    ensures { result.now ≡ codes "a system has at most 32 wires\n" }
{
    "a system has at most 32 wires\n".as_bytes()
}

pub(crate) fn no_source() -> &'static [u8]
    ensures { result.now ≡ codes "no line source " }
{
    "no line source ".as_bytes()
}

pub(crate) fn no_end() -> &'static [u8]
    ensures { result.now ≡ codes "no line end comes after it\n" }
{
    "no line end comes after it\n".as_bytes()
}

pub(crate) fn begins_no_line() -> &'static [u8]
    ensures { result.now ≡ codes " begins no line here" }
{
    " begins no line here".as_bytes()
}

pub(crate) fn of_edition_2() -> &'static [u8]
    ensures { result.now ≡ codes " is of edition 2: the text begins with xs1 2 then\n" }
{
    " is of edition 2: the text begins with xs1 2 then\n".as_bytes()
}

pub(crate) fn comes() -> &'static [u8]
    ensures { result.now ≡ codes " comes\n" }
{
    " comes\n".as_bytes()
}
