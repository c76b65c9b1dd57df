//! The words for the bytes that arrived after the greeting, if a session ended badly.
ghost use Rattle.std.specs.Prelude.{◌≡◌, IfOk, string_bytes};
ghost use Rattle.uug_error_text.specs.PassedWords.{bits_remark, bytes_line, flow_remark, lacks_flow, passed_remark};

use std::alloc::{AllocError, Allocator};

/// The number of bytes among which one is probably XON or XOFF.
const FLOW_MIN: u64 = 1_000;

/// The bytes that arrived after a greeting.
#[derive(Clone, Copy, Debug, PartialEq, Eq)]
pub struct Passed {
    /// Their number.
    pub count: u64,
    /// Set if one of them has its eighth bit set.
    pub has_high: bool,
    /// Set if one of them is XON or XOFF.
    pub has_flow: bool,
}

/// Returns a line for standard error about a session that gave up after its greeting: which bytes its line may not
/// pass. The line is empty if the bytes that arrived don't show it.
pub fn passed_remark<A: Allocator>(alloc: A, passed: Passed) -> Result<String<A>, AllocError>
    ensures { IfOk result (λ remark. string_bytes remark ≡ passed_remark passed) }
{
    if passed.count == 0 {
        String::from_str(
            alloc,
            "uucpair: nothing came after the greeting (the other end is gone, or the line drops bytes: stty raw pass8, at both ends)\n",
        )
    } else {
        bits_remark(alloc, passed)
    }
}

/// Returns the line that all bytes have seven bits, if they have, or else that of `flow_remark`.
fn bits_remark<A: Allocator>(alloc: A, passed: Passed) -> Result<String<A>, AllocError>
    ensures { IfOk result (λ remark. string_bytes remark ≡ bits_remark passed) }
{
    if passed.has_high {
        flow_remark(alloc, passed)
    } else {
        bytes_line(
            alloc,
            passed.count,
            "all seven-bit (the line has to pass eight bits: stty raw pass8, at both ends)",
        )
    }
}

/// Returns the line that no byte is XON or XOFF, if `lacks_flow` holds, or else an empty one.
fn flow_remark<A: Allocator>(alloc: A, passed: Passed) -> Result<String<A>, AllocError>
    ensures { IfOk result (λ remark. string_bytes remark ≡ flow_remark passed) }
{
    if lacks_flow(passed) {
        bytes_line(
            alloc,
            passed.count,
            "none of them XON or XOFF (flow control may drop these: stty raw -ixon -ixoff, at both ends)",
        )
    } else {
        Ok(String::new(alloc))
    }
}

/// Returns whether no byte is XON or XOFF, though there are so many bytes that one probably would be.
fn lacks_flow(passed: Passed) -> bool
    ensures { result ≡ lacks_flow passed }
{
    !passed.has_flow && FLOW_MIN <= passed.count
}

/// Returns the line that `count` bytes arrived, with these words about them.
fn bytes_line<A: Allocator>(alloc: A, count: u64, words: &str) -> Result<String<A>, AllocError>
    ensures { IfOk result (λ line. string_bytes line ≡ bytes_line count words.now) }
{
    format!(in alloc; "uucpair: {count} bytes came after the greeting, {words}\n")
}
