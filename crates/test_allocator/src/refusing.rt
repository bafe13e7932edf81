//! An allocator that refuses some requests by a rule, for tests of what a refused request leads to.
use std::alloc::{AllocError, Allocator};
use std::cell::Cell;

/// Which requests are refused.
#[derive(Clone, Copy)]
enum Rule {
    /// The request of this number, counted from 1. 0: none is.
    NthRequest(u64),
    /// Each request for more than what is left of this number of bytes.
    Bytes(u64),
}

impl Rule {
    /// Whether the next request is refused, if it is for this many bytes.
    fn refuses(self, size: u64) -> bool {
        match self {
            Rule::NthRequest(number) => number == 1,
            Rule::Bytes(left) => left < size,
        }
    }

    /// The rule after a request for this many bytes.
    fn after(self, size: u64) -> Rule {
        match self {
            Rule::NthRequest(number) => Rule::NthRequest(number.saturating_sub(1)),
            Rule::Bytes(left) => Rule::Bytes(left.checked_sub(size).unwrap_or(left)),
        }
    }
}

/// An allocator that passes each call on, but for the requests that its rule refuses.
pub struct Refusing<B: Allocator> {
    inner: B,
    rule: Cell<Rule>,
}

impl<B: Allocator> Refusing<B> {
    /// Refuses the request of this number, counted from 1. 0: none is refused.
    pub fn nth_request(inner: B, number: u64) -> Refusing<B> {
        Refusing {
            inner,
            rule: Cell::new(Rule::NthRequest(number)),
        }
    }

    /// Refuses requests for more than this many bytes in all.
    ///
    /// Memory that is given back isn't counted back, so what copies again and again is refused too.
    pub fn beyond_bytes(inner: B, bytes: u64) -> Refusing<B> {
        Refusing {
            inner,
            rule: Cell::new(Rule::Bytes(bytes)),
        }
    }

    /// The number of requests up to the refused one, or of bytes that may still be asked for.
    pub fn left(&self) -> u64 {
        match self.rule.get() {
            Rule::NthRequest(left) | Rule::Bytes(left) => left,
        }
    }

    /// Whether the chosen request has not come yet.
    pub fn waits(&self) -> bool {
        self.left() > 0
    }
}

impl<B: Allocator> Drop for Refusing<B> {
    fn drop(self) {
        let Self { inner: _, rule: _ } = self;
    }
}

fn refuses(rule: &Cell<Rule>, size: usize) -> bool {
    let now = rule.get();
    rule.set(now.after(size as u64));
    now.refuses(size as u64)
}

unsafe impl<B: Allocator> Allocator for Refusing<B> {
    ghost dealloc_token = { λ heap ty ptr. B.dealloc_token heap.inner ty ptr };

    fn allocate(&self, size: usize, align: usize) -> Result<*mut u8, AllocError> {
        if refuses(&self.rule, size) {
            return Err(AllocError);
        }
        self.inner.allocate(size, align)
    }

    unsafe fn deallocate(&self, ptr: *mut u8, size: usize, align: usize) {
        self.inner.deallocate(ptr, size, align);
    }
}

#[cfg(test)]
mod tests {
    use super::*;

    #[test]
    fn the_chosen_request_is_refused(rt: HostRuntime) {
        for number in 0..7u64 {
            let failing = Refusing::nth_request(rt.alloc(), number);
            for request in 1..5u64 {
                let refused = Box::new(&failing, request).is_err();
                assert!(rt;
                    refused == (request == number),
                    "request {request} of {number}"
                );
            }
            assert!(rt; failing.waits() == (number > 4), "waits for {number}");
        }
    }

    #[test]
    fn what_does_not_fit_any_more_is_refused(rt: HostRuntime) {
        let limited = Refusing::beyond_bytes(rt.alloc(), 100);
        for (size, left) in [
            (101usize, 100u64),
            (60, 40),
            (41, 40),
            (39, 1),
            (2, 1),
            (1, 0),
            (1, 0),
        ] {
            let before = limited.left();
            let refused = Vec::<u8, _>::with_capacity(&limited, size).is_err();
            assert!(rt;
                refused == (size as u64 > before),
                "{size} bytes of {before}"
            );
            assert_eq!(rt; limited.left(), left, "after {size} bytes");
        }
    }

    #[test]
    fn what_grows_is_asked_for_anew(rt: HostRuntime) -> Result<(), AllocError> {
        let limited = Refusing::beyond_bytes(rt.alloc(), 100);
        let mut bytes = Vec::<u8, _>::with_capacity(&limited, 40)?;
        assert!(rt; bytes.try_reserve_exact(61).is_err());
        bytes.try_reserve_exact(50)?;
        assert_eq!(rt; limited.left(), 10);
        Ok(())
    }
}
