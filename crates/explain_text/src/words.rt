//! Pieces of what is written: as bytes of texts, which are proved sooner than long literals of bytes.
ghost use Rattle.std.specs.Prelude.{◌≡◌, codes};

pub(crate) fn is_no_instruction() -> &'static [u8]
    ensures { result.now ≡ codes " is no instruction" }
{
    " is no instruction".as_bytes()
}

pub(crate) fn is_no_directive() -> &'static [u8]
    ensures { result.now ≡ codes " is no directive" }
{
    " is no directive".as_bytes()
}

pub(crate) fn stands_before() -> &'static [u8]
    ensures { result.now ≡ codes "instructions, .text and .globl stand before .data and .cp\n" }
{
    "instructions, .text and .globl stand before .data and .cp\n".as_bytes()
}

pub(crate) fn stands_in() -> &'static [u8]
    ensures { result.now ≡ codes " stands in .data and in .cp\n" }
{
    " stands in .data and in .cp\n".as_bytes()
}

pub(crate) fn stands_once_before() -> &'static [u8]
    ensures { result.now ≡ codes " stands once, before .cp\n" }
{
    " stands once, before .cp\n".as_bytes()
}

pub(crate) fn stands_once() -> &'static [u8]
    ensures { result.now ≡ codes " stands once\n" }
{
    " stands once\n".as_bytes()
}

pub(crate) fn is_kept() -> &'static [u8]
    ensures { result.now ≡ codes " is kept by the language: no label has it\n" }
{
    " is kept by the language: no label has it\n".as_bytes()
}

pub(crate) fn is_a_label_of() -> &'static [u8]
    ensures { result.now ≡ codes " is a label of " }
{
    " is a label of ".as_bytes()
}

pub(crate) fn is_a_label_of_line() -> &'static [u8]
    ensures { result.now ≡ codes " is a label of line " }
{
    " is a label of line ".as_bytes()
}

pub(crate) fn already() -> &'static [u8]
    ensures { result.now ≡ codes " already\n" }
{
    " already\n".as_bytes()
}

pub(crate) fn no_line_has() -> &'static [u8]
    ensures { result.now ≡ codes "no line of this source has the label " }
{
    "no line of this source has the label ".as_bytes()
}

pub(crate) fn too_many_instructions() -> &'static [u8]
    ensures { result.now ≡ codes "with this line there are more than 16384 instructions\n" }
{
    "with this line there are more than 16384 instructions\n".as_bytes()
}

pub(crate) fn too_many_bytes() -> &'static [u8]
    ensures { result.now ≡ codes "with this line there are more than 65536 bytes of data and constants\n" }
{
    "with this line there are more than 65536 bytes of data and constants\n".as_bytes()
}
