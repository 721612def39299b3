use source_model::Section;

// What a value is written as.
#[derive(Clone, Copy)]
pub enum Amount<'a> {
    // A register or a number; None is a number past every range.
    Known(Option<u32>),
    // The place of a code label.
    Target(&'a [u8]),
    // The address of a label.
    Address(&'a [u8]),
    // How many words a label stands past the start of a section.
    Offset(Section, &'a [u8]),
}
