//! An allocator for tests: it refuses one request for memory, and passes the others on.
//!
//! It is proved to keep the contract of every allocator (`std::alloc::Allocator`). It hands out a block of the
//! requested size and alignment, which the holder may give back. No clause can say which request it refuses, because
//! the count changes inside a `&`. Its tests show that.
#![tactic(auto)]

mod refusing;
mod requests;

pub use refusing::Refusing;
