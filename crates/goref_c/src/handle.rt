//! What a caller in C holds of a session: one pointer, which is null where there is none.
ghost use Rattle.std.specs.Prelude.{◌≡◌};
ghost use Rattle.std.specs.Option.{MatchOption};
ghost use Rattle.std.specs.declared.option.Option.{Option};
ghost use Rattle.std.specs.declared.option.Option.TheVariants.{None, Some};
ghost use Rattle.goref_c.specs.Handles.{Kept, coded_kept, handle_owns};

use crate::held::Held;
use crate::loose::Loose;
use std::alloc::Global;
use std::marker::Model;
use std::ptr::null_mut;

/// A session of the caller's, or none. The pointer is to a `Held`. Its type doesn't say so, since C gets no
/// pointer to a type that has a vector inside. Callers in C never read it.
#[repr(C)]
pub struct Handle {
    at: *mut (),
    alloc: Global,
    pub ghost value: { Option Kept } by { coded_kept },
}

impl Model for Handle {
    ghost also_owns = { λ h. handle_owns h.alloc h.at h.value };
}

impl Handle {
    /// A handle without a session.
    pub fn shut(alloc: Global) -> Handle
        ensures { result.value ≡ None }
    {
        Handle {
            at: null_mut(),
            alloc,
        }
    }

    /// A handle that has this session.
    pub fn of_box(boxed: Box<Held, Global>) -> Handle
        ensures { result.value ≡ Some boxed.value }
    {
        Handle::of_loose(Loose::of(boxed))
    }

    /// The session of a handle, if it has one.
    pub fn into_box(self) -> Option<Box<Held, Global>>
        ensures { MatchOption result (self.value ≡ None) (λ boxed. self.value ≡ Some boxed.value) }
    {
        match self.into_loose() {
            None => None,
            Some(loose) => Some(loose.into_box()),
        }
    }

    fn of_loose(loose: Loose<Held, Global>) -> Handle
        ensures { result.value ≡ Some loose.value }
    {
        let Loose { at, alloc } = loose;
        Handle {
            at: at as *mut (),
            alloc,
        }
    }

    fn into_loose(self) -> Option<Loose<Held, Global>>
        ensures { MatchOption result (self.value ≡ None) (λ loose. self.value ≡ Some loose.value) }
    {
        let Handle { at, alloc } = self;
        if at.is_null() {
            None
        } else {
            Some(Loose {
                at: at as *mut Held,
                alloc,
            })
        }
    }
}

impl Drop for Handle {
    fn drop(self) {
        if let Some(boxed) = self.into_box() {
            drop(boxed);
        }
    }
}

// A handle counts nothing and locks nothing, so it may go to another thread.
unsafe impl Send for Handle {}

fn crosses<T: Send>(_value: &T) {}

/// This call needs that a handle may be sent to another thread, so its proof shows it.
fn handles_cross(handle: &Handle) {
    crosses(handle);
}
