use crate::requests::Requests;
use std::alloc::{AllocError, Allocator};

/// An allocator that refuses one request, and passes the others on to another allocator.
///
/// A test hands out `&Refusing`, which is an allocator too. A new block is one request, and so is each growth or
/// shrinkage of a block.
#[derive(Drop)]
pub struct Refusing<B: Allocator> {
    inner: B,
    requests: Requests,
}

impl<B: Allocator> Refusing<B> {
    /// Makes an allocator that refuses the nth request from now on. With 0 it refuses none.
    pub fn new(inner: B, nth: u64) -> Self {
        Refusing {
            inner,
            requests: Requests::new(nth),
        }
    }

    /// Restarts the count, and refuses the nth request from now on. With 0 it refuses none.
    pub fn refuse(&self, nth: u64) {
        self.requests.restart(nth);
    }

    /// Returns the number of requests since `new` or the last `refuse`, including the refused one.
    pub fn requests(&self) -> u64 {
        self.requests.came()
    }

    /// Returns whether one of them was refused.
    pub fn was_refused(&self) -> bool {
        self.requests.is_refused()
    }
}

unsafe impl<B: Allocator> Allocator for Refusing<B> {
    ghost dealloc_token = { λ heap ty ptr. B.dealloc_token heap.inner ty ptr };

    fn allocate(&self, size: usize, align: usize) -> Result<*mut u8, AllocError> {
        if self.requests.refuses_next() {
            return Err(AllocError);
        }
        self.inner.allocate(size, align)
    }

    unsafe fn deallocate(&self, ptr: *mut u8, size: usize, align: usize) {
        self.inner.deallocate(ptr, size, align);
    }
}
