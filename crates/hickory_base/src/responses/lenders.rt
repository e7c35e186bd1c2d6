//! Items that lend records, kept without memory where there is one alone.

ghost use Rattle.std.specs.Prelude.{◌≡◌, [], ◌∷◌, ◌++◌, IfOk, IsTrue, OnOk};
ghost use Rattle.std.specs.Mem.{FitsInMemory};
ghost use Rattle.hickory_base.specs.representation.LenderLists.{CanLend, lender_list};

use std::alloc::{AllocError, Global};
use std::{mem, slice};

/// A slice takes fewer bytes than these.
const SLICE_LIMIT: usize = 0x8000_0000_0000_0000;

/// Whether a slice can have an item of this size. It can, of any type that a program uses.
fn fits_in_slice<T>(item: &T) -> bool
    ensures { IsTrue result → FitsInMemory T.row }
{
    mem::size_of_val(item) < SLICE_LIMIT
}

/// Items that lend the records of a section, in their order: one alone in the value itself, and several in a vector.
///
/// Contracts speak of them as `lender_list`.
#[derive(Drop)]
pub(crate) enum Lenders<T> {
    /// None.
    Empty,
    /// Just one.
    One(T),
    /// Any number.
    Many(Vec<T>),
}

impl<T: Drop> Lenders<T> {
    /// Just this item.
    fn of_one(alloc: Global, item: T) -> Result<Lenders<T>, AllocError>
        ensures { IfOk result (λ made. (lender_list made ≡ item ∷ []) × CanLend T.row made) }
    {
        if fits_in_slice(&item) {
            return Ok(Lenders::One(item));
        }
        let mut items = Vec::new(alloc);
        items.push(item)?;
        Ok(Lenders::Many(items))
    }

    /// The items as a vector.
    fn into_vec(self, alloc: Global) -> Result<Vec<T>, AllocError>
        ensures { IfOk result (λ made. made.items ≡ lender_list self) }
    {
        match self {
            Lenders::Empty => Ok(Vec::new(alloc)),
            Lenders::One(item) => {
                let mut items = Vec::new(alloc);
                items.push(item)?;
                Ok(items)
            }
            Lenders::Many(items) => Ok(items),
        }
    }

    /// Puts an item behind the others. The first takes no memory.
    pub(crate) fn push(&mut self, alloc: Global, item: T) -> Result<(), AllocError>
        ensures kept { OnOk result (lender_list self.new ≡ lender_list self.old ++ item ∷ []) }
        ensures lend { OnOk result (CanLend T.row self.new) }
    {
        match self {
            Lenders::Empty => {
                *self = Lenders::of_one(alloc, item)?;
                Ok(())
            }
            Lenders::One(_) => {
                let mut items = mem::replace(self, Lenders::Empty).into_vec(alloc)?;
                items.push(item)?;
                *self = Lenders::Many(items);
                Ok(())
            }
            Lenders::Many(items) => Ok(items.push(item)?),
        }
    }

    /// The items, in their order.
    pub(crate) fn as_slice(&self) -> &[T]
        requires { CanLend T.row self.now }
        ensures { result.now ≡ lender_list self.now }
    {
        match self {
            Lenders::Empty => &[],
            Lenders::One(item) => slice::from_ref(item),
            Lenders::Many(items) => items.as_slice(),
        }
    }
}
