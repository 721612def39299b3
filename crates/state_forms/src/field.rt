//! `Field`, what has a form, and lists of it.
ghost use Rattle.std.specs.Prelude.{◌≡◌, ◌≤◌, ◌++◌, length, map, OnOk};
ghost use Rattle.byte_forms.specs.Forms.{Form, repeat};
ghost use Rattle.byte_forms.specs.Reading.{Gives};

use arrayvec::ArrayVec;
use byte_forms::{Fault, Reader};
use std::alloc::{AllocError, Global};
use xs_base::Text;

/// What has a form.
pub trait Field: Sized {
    /// The values that the form is of.
    ghost Value: { Type 0 };

    /// The value that is seen in one of these.
    ghost view: { Self → Value };

    ghost form: { Form Value };

    /// Reads one.
    fn read(from: &mut Reader) -> Result<Self, Fault>
        ensures value { Gives form view from.old result from.new };

    /// Writes one at the end. The error is want of memory.
    fn write(&self, out: &mut Text) -> Result<(), AllocError>
        ensures value { OnOk result (out.new ≡ out.old ++ form.write (view self.now)) };
}

/// Reads one into each of the places, in order.
pub fn read_places<T: Field + Drop>(from: &mut Reader, places: &mut [T]) -> Result<(), Fault>
    ensures value { Gives (repeat (length places.old) T.form) (λ _. map T.view places.new) from.old result from.new }
{
    for at in 0..places.len() {
        places[at] = T::read(from)?;
    }
    Ok(())
}

/// Reads so many, in order.
pub fn read_elements<T: Field + Default + Drop, const CAP: usize>(
    from: &mut Reader,
    count: usize,
) -> Result<ArrayVec<T, CAP>, Fault>
    requires { count ≤ CAP }
    ensures value { Gives (repeat count T.form) (λ elements. map T.view elements.items) from.old result from.new }
{
    let mut elements = ArrayVec::new();
    for _ in 0..count {
        elements.push(T::read(from)?);
    }
    Ok(elements)
}

/// Reads so many into memory, in order.
pub fn read_list<T: Field + Drop>(
    alloc: Global,
    from: &mut Reader,
    count: u32,
) -> Result<Vec<T>, Fault>
    ensures value { Gives (repeat count T.form) (λ elements. map T.view elements.items) from.old result from.new }
{
    let mut elements = Vec::new(alloc);
    for _ in 0..count {
        elements.push(T::read(from)?)?;
    }
    Ok(elements)
}

/// Writes each, in order. The error is want of memory.
pub fn write_each<T: Field>(out: &mut Text, elements: &[T]) -> Result<(), AllocError>
    ensures value { OnOk result (out.new ≡ out.old ++ (repeat (length elements.now) T.form).write (map T.view elements.now)) }
{
    for element in elements {
        element.write(out)?;
    }
    Ok(())
}
