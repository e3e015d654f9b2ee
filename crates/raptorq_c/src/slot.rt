//! Pointers of C's to coders, which may be null.
ghost use Rattle.std.specs.Prelude.{◌≡◌, Option, Some, None, IsSome, IfSome, IfOk, IfErr, OnOk, OnErr, MatchOption};
ghost use Rattle.raptorq_c.specs.Slot.{slot_at, slot_coded};
ghost use Rattle.raptorq_c.specs.declared.kept.Kept.{Kept};

use crate::kept::{Coder, Kept};
use raptorq::error::Error;
use std::alloc::Global;
use std::marker::Model;
use std::mem::replace;

/// A pointer to a coder that is kept, or a null one. In C it is `reamertan_decoder *` and the like.
#[repr(C)]
pub struct Slot {
    at: *mut u8,
    pub ghost value: { Option Kept } by { slot_coded },
}

impl Model for Slot {
    ghost also_owns = { λ s. slot_at s.at s.value };
}

// With it a pointer may cross threads, and what it points to.
unsafe impl Send for Slot {}

/// A coder that C keeps may cross threads, and a pointer to one: this hands them to a call that takes
/// values of such types alone.
pub fn crosses_threads(kept: &Kept, slot: &Slot) {
    crosses(kept);
    crosses(slot);
}

// Takes values of types that may cross threads alone.
fn crosses<T: Send>(_value: &T) {}

impl Slot {
    ghost use Rattle.raptorq_c.specs.Coders.{coder_at};

    /// Points to none.
    pub(crate) fn none() -> Slot
        ensures { result.value ≡ None }
    {
        Slot {
            at: std::ptr::null_mut(),
        }
    }

    /// Points to what a box keeps.
    pub(crate) fn of(kept: Box<Kept>) -> Slot
        ensures { result.value ≡ Some kept.value }
    {
        let at = Box::into_raw(kept) as *mut u8;
        Slot { at }
    }

    /// The box that it points to, unless it is null.
    pub(crate) fn into_box(self, alloc: Global) -> Option<Box<Kept>>
        ensures { MatchOption result (self.value ≡ None) (λ kept. self.value ≡ Some kept.value) }
    {
        let Slot { at } = self;
        if at.is_null() {
            return None;
        }
        Some(unsafe { Box::from_raw(alloc, at as *mut Kept) })
    }

    /// Keeps a coder, where it is null.
    pub(crate) fn keep(&mut self, alloc: Global, coder: Coder) -> Result<(), Error>
        requires { self.old.value ≡ None }
        ensures kept { OnOk result (coder_at self.new ≡ Some coder) }
        ensures memory { IfErr result (λ e. e ≡ Error.OutOfMemory) }
        ensures null { OnErr result (self.new.value ≡ None) }
    {
        let kept = kept_box(alloc, coder)?;
        drop(replace(self, Slot::of(kept)).into_box(alloc));
        Ok(())
    }

    /// Frees the coder that it keeps, if any. It is null then.
    pub(crate) fn close(&mut self, alloc: Global)
        requires { IfSome self.old.value (λ kept. IsSome kept.value) }
        ensures { self.new.value ≡ None }
    {
        if let Some(kept) = replace(self, Slot::none()).into_box(alloc) {
            drop(Box::into_inner(kept).into_box(alloc));
        }
    }
}

// A coder on the heap, behind a pointer on the heap.
fn kept_box(alloc: Global, coder: Coder) -> Result<Box<Kept>, Error>
    ensures kept { IfOk result (λ b. b.value.value ≡ Some coder) }
    ensures memory { IfErr result (λ e. e ≡ Error.OutOfMemory) }
{
    let kept = Kept::of(Box::new(alloc, coder)?);
    match Box::new(alloc, kept) {
        Ok(boxed) => Ok(boxed),
        Err(refused) => {
            drop(refused.value.into_box(alloc));
            Err(Error::OutOfMemory)
        }
    }
}
