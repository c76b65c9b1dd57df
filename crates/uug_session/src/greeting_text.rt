ghost use Rattle.std.specs.Prelude.{◌≡◌, ◌≤◌, ◌+◌, ◌++◌, [], ◌∷◌, length, All};
ghost use Rattle.uug_session.specs.Says.{Says};
ghost use Rattle.uug_talk.specs.Texts.{IsPlain};

use arrayvec::ArrayVec;
use std::alloc::{AllocError, Allocator};
use uug_link::Outbox;
use uug_talk::{HAIL_MAX, Name, write_hail};

/// Says a text of the greeting.
pub(crate) fn say<A: Allocator>(text: &[u8], out: &mut Outbox<A>) -> Result<(), AllocError>
    requires short { length text.now ≤ HAIL_MAX }
    requires plain { All IsPlain text.now }
    ensures { Says (text.now ∷ []) out.old out.new result }
{
    out.add_text(&write_hail(text))
}

/// Says two texts, or none if there is no memory for both.
pub(crate) fn say_both<A: Allocator>(
    first: &[u8],
    second: &[u8],
    out: &mut Outbox<A>,
) -> Result<(), AllocError>
    requires first_short { length first.now ≤ HAIL_MAX }
    requires first_plain { All IsPlain first.now }
    requires second_short { length second.now ≤ HAIL_MAX }
    requires second_plain { All IsPlain second.now }
    ensures { Says (first.now ∷ second.now ∷ []) out.old out.new result }
{
    out.reserve(2)?;
    let Ok(()) = say(first, out) else {
        unreachable!();
    };
    let Ok(()) = say(second, out) else {
        unreachable!();
    };
    Ok(())
}

/// Says a few letters, followed by a name.
pub(crate) fn say_name<A: Allocator>(
    front: &[u8],
    name: &Name,
    out: &mut Outbox<A>,
) -> Result<(), AllocError>
    requires short { length front.now ≤ 6 }
    requires plain { All IsPlain front.now }
    ensures { Says ((front.now ++ name.now) ∷ []) out.old out.new result }
{
    let mut text = ArrayVec::<u8, HAIL_MAX>::new();
    push_all(&mut text, front);
    push_all(&mut text, name.as_bytes());
    say(&text, out)
}

fn push_all(text: &mut ArrayVec<u8, HAIL_MAX>, bytes: &[u8])
    requires { length text.old.items + length bytes.now ≤ HAIL_MAX }
    ensures { text.new.items ≡ text.old.items ++ bytes.now }
{
    let Ok(()) = text.try_extend_from_slice(bytes) else {
        unreachable!();
    };
}
