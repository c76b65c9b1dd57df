//! The grades of jobs, and the order in which C. files are taken.
ghost use Rattle.std.specs.Prelude.{◌≡◌};
ghost use Rattle.uug_taylor_text.specs.WorkOrder.{grade_of, work_order};

use std::cmp::Ordering;

/// Returns the grade of the C. file of this name: the letter or digit after `C.`. A file of any other name holds no
/// jobs.
pub fn grade_of(name: &[u8]) -> Option<u8>
    ensures { result ≡ grade_of name.now }
{
    match name {
        [b'C', b'.', grade, ..] if grade.is_ascii_alphanumeric() => Some(*grade),
        _ => None,
    }
}

/// Compares two C. files by the order in which they are taken: by grade (`0` to `9`, then `A` to `Z`, then `a` to `z`),
/// and within a grade by name.
pub fn work_order(name: &[u8], other: &[u8]) -> Ordering
    ensures { result ≡ work_order name.now other.now }
{
    match grade_of(name).cmp(&grade_of(other)) {
        Ordering::Equal => name.cmp(other),
        order => order,
    }
}
