// The handle that a C program holds.
ghost use Rattle.std.specs.Prelude.{◌≡◌, ◌⊎◌, IsSome, IfSome, IfNone, Some, None};
ghost use Rattle.std.specs.Bool.{MatchBool};
ghost use Rattle.std.specs.declared.option.Option.{Option};
ghost use Rattle.std.specs.Coded.{coded_option};
ghost use Rattle.std.specs.Option.{MatchOption};
ghost use Rattle.queue_c.specs.Boxes.{held_if};
ghost use Rattle.queue_c.specs.contracts.contents.Contents.{the_row as contents_row};
ghost use Rattle.queue_c.specs.declared.contents.Contents.{Contents};

use crate::contents::Contents;
use crate::raw_box::RawBox;
use std::alloc::Global;
use std::marker::Model;
use std::mem;
use std::ptr::null_mut;

/// What a C program doesn't see.
pub struct Opaque {
    byte: u8,
}

/// A handle: null, or a value on the heap. In C it is a struct of one pointer.
#[repr(C)]
#[derive(Drop)]
pub struct Handle {
    at: *mut Opaque,
    pub ghost value: { Option Contents } by { coded_option contents_row.coded },
}

impl Model for Handle {
    ghost also_owns = { λ h. held_if contents_row h.at h.value };
}

// What it holds may go to another thread, and any thread may free its block.
unsafe impl Send for Handle {}

impl Handle {
    /// A handle that holds nothing.
    pub fn none() -> Handle
        ensures { result.value ≡ None }
    {
        Handle { at: null_mut() }
    }

    fn of_raw(raw: RawBox<Contents, Global>) -> Handle
        ensures { result.value ≡ Some raw.value }
    {
        let RawBox { at, alloc: _ } = raw;
        Handle {
            at: at as *mut Opaque,
        }
    }

    fn into_raw(self, alloc: Global) -> RawBox<Contents, Global>
        requires { IsSome self.value }
        ensures { self.value ≡ Some result.value }
    {
        let Handle { at } = self;
        RawBox {
            at: at as *mut Contents,
            alloc,
        }
    }

    /// Whether the handle holds nothing.
    pub fn is_empty(&mut self) -> bool
        ensures empty { MatchBool result (self.old.value ≡ None) (IsSome self.old.value) }
        ensures same { self.new.value ≡ self.old.value }
    {
        self.at.is_null()
    }

    /// Takes the value out of the handle, where it holds one.
    pub fn take(&mut self, alloc: Global) -> Option<Box<Contents, Global>>
        ensures taken { MatchOption result (self.old.value ≡ None) (λ held. self.old.value ≡ Some held.value) }
        ensures empty { self.new.value ≡ None }
    {
        if self.is_empty() {
            return None;
        }
        let taken = mem::replace(self, Handle::none());
        Some(taken.into_raw(alloc).into_box())
    }

    /// Takes the value out of the handle, where it holds one and this other one, which is to be filled, is empty.
    pub fn take_for(&mut self, alloc: Global, other: &mut Handle) -> Option<Box<Contents, Global>>
        ensures taken { IfSome result (λ held. (self.old.value ≡ Some held.value) × (other.old.value ≡ None)) }
        ensures empty { IfSome result (λ _. self.new.value ≡ None) }
        ensures refused { IfNone result (IsSome other.old.value ⊎ (self.old.value ≡ None)) }
        ensures same { IfNone result (self.new.value ≡ self.old.value) }
        ensures other { other.new.value ≡ other.old.value }
    {
        if !other.is_empty() {
            return None;
        }
        self.take(alloc)
    }

    /// Puts a value into the empty handle.
    pub fn put(&mut self, held: Box<Contents, Global>)
        requires { self.old.value ≡ None }
        ensures { self.new.value ≡ Some held.value }
    {
        *self = Handle::of_raw(RawBox::of(held));
    }
}
