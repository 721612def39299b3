//! Pieces of what is written: as bytes of texts, which are proved sooner than long literals of bytes.
ghost use Rattle.std.specs.Prelude.{◌≡◌, codes};

pub(crate) fn gives_it_already() -> &'static [u8]
    ensures { result.now ≡ codes " gives it already\n" }
{
    " gives it already\n".as_bytes()
}

pub(crate) fn nodes_of_the_system() -> &'static [u8]
    ensures { result.now ≡ codes "nodes of the system: " }
{
    "nodes of the system: ".as_bytes()
}
