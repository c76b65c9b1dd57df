ghost use Rattle.std.specs.Prelude.{◌≡◌, ◌+◌, ◌%◌};
ghost use Rattle.uug_packet.specs.Number.{number_of};

use uug_packet::Seq;

/// Returns the number that is `count` places after another.
pub(crate) fn plus(number: Seq, count: usize) -> Seq
    ensures { number_of result ≡ (number_of number + count) % 8 }
{
    let value = (usize::from(number.value()) + count % 8) % 8;
    match Seq::new(value as u8) {
        Some(number) => number,
        None => unreachable!(),
    }
}
