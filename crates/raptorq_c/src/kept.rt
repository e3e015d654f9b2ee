//! Coders on the heap behind pointers that C keeps, and that no C code reads.
ghost use Rattle.std.specs.Prelude.{◌≡◌, Option, Some, None, IsSome};
ghost use Rattle.raptorq_c.specs.Kept.{kept_at, kept_coded};
ghost use Rattle.raptorq_c.specs.declared.kept.Coder.{Coder};

use raptorq::decoder::ObjectBlock;
use raptorq::{Decoder, Encoder, SourceBlockEncoder, SourceBlockEncodingPlan};
use std::alloc::Global;
use std::marker::Model;
use std::mem::replace;
use std::sync::Arc;

/// A coder that C keeps. Several pointers share what makes packets.
#[derive(Drop)]
pub enum Coder {
    /// Makes packets of an object.
    Encoder(Arc<Encoder, Global>),
    /// Solves the equations of blocks of one size, whatever their bytes.
    Plan(Arc<SourceBlockEncodingPlan, Global>),
    /// Makes packets of a block.
    BlockEncoder(Arc<SourceBlockEncoder, Global>),
    /// Takes packets of an object.
    Decoder(Decoder),
    /// Takes packets of a block.
    BlockDecoder(ObjectBlock),
}

/// A pointer to a coder that it owns, or to none while a call has the coder. In C it is
/// `reamertan_decoder` and the like, by the kind of the coder.
#[repr(C)]
#[derive(Drop)]
pub struct Kept {
    at: *mut u8,
    pub ghost value: { Option Coder } by { kept_coded },
}

impl Model for Kept {
    ghost also_owns = { λ k. kept_at k.at k.value };
}

// With it a coder may cross threads, as `crosses_threads` shows. C gives it to one call at a time.
unsafe impl Send for Kept {}

impl Kept {
    /// Owns none.
    pub(crate) fn none() -> Kept
        ensures { result.value ≡ None }
    {
        Kept {
            at: std::ptr::null_mut(),
        }
    }

    /// Owns the coder of a box.
    pub(crate) fn of(coder: Box<Coder>) -> Kept
        ensures { result.value ≡ Some coder.value }
    {
        let at = Box::into_raw(coder) as *mut u8;
        Kept { at }
    }

    /// The box of the coder that it owns.
    pub(crate) fn into_box(self, alloc: Global) -> Box<Coder>
        requires { IsSome self.value }
        ensures { self.value ≡ Some result.value }
    {
        let Kept { at } = self;
        unsafe { Box::from_raw(alloc, at as *mut Coder) }
    }

    /// Takes the coder out.
    pub(crate) fn take(&mut self, alloc: Global) -> Box<Coder>
        requires { IsSome self.old.value }
        ensures taken { self.old.value ≡ Some result.value }
        ensures none { self.new.value ≡ None }
    {
        replace(self, Kept::none()).into_box(alloc)
    }

    /// Puts a coder in, where there is none.
    pub(crate) fn put(&mut self, coder: Box<Coder>)
        requires { self.old.value ≡ None }
        ensures { self.new.value ≡ Some coder.value }
    {
        *self = Kept::of(coder);
    }
}

/// What an expression says of the coder of one kind that is kept, or does to it. It stays there.
macro_rules! of_kept {
    ($kept:ident, $alloc:ident, $kind:ident, $inner:ident => $said:expr) => {{
        let mut coder = $kept.take($alloc);
        let Coder::$kind($inner) = coder.as_mut() else {
            unreachable!()
        };
        let said = $said;
        $kept.put(coder);
        said
    }};
}

pub(crate) use of_kept;
