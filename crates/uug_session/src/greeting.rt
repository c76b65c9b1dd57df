ghost use Rattle.std.specs.Prelude.{◌≡◌, [], ◌∷◌, IfOk, length, ◌<◌, ◌≤◌, true, false};
ghost use Rattle.std.specs.List.{position_or_len};
ghost use Rattle.uug_session.specs.Greeting.{first_greeting, goes_on, called_text, name_in_caller_text, text_came, called_name_came, caller_name_came, number_came, admission_came, protocols_came, choice_came, long_text_came, timed_out};
ghost use Rattle.uug_session.specs.Greeting.{is_expected, number_by};
ghost use Rattle.uug_session.specs.Says.{Says};
ghost use Rattle.uug_talk.specs.Call.{call_text, number_in_call};
ghost use Rattle.uug_talk.specs.Words.{is_space};

use crate::end::End;
use crate::greeting_text::{say, say_both, say_name};
use crate::place::Place;
use std::alloc::{AllocError, Allocator};
use uug_link::{Outbox, TIMEOUTS_MAX};
use uug_talk::{Name, caller_number, write_call};

/// The text for which an end waits. The variants are in the order in which the texts come.
#[derive(Clone, Copy, Debug, PartialEq, Eq)]
pub enum AwaitedText {
    /// The caller waits for the called end's name.
    CalledName,
    /// The called end waits for the caller's name.
    CallerName,
    /// The caller waits to be let in.
    Admission,
    /// The caller waits for the protocols that it may choose from.
    Protocols,
    /// The called end waits for the protocol that the caller chooses.
    Choice,
}

/// The state of the greeting at one end.
#[derive(Clone, Copy, Debug, PartialEq, Eq)]
pub struct Greeting {
    /// The awaited text.
    pub awaited: AwaitedText,
    /// The number of timeouts since the last awaited text.
    pub timeouts: u8,
}

/// The next state of a greeting.
#[derive(Clone, Copy, Debug, PartialEq, Eq)]
pub enum Greeted {
    /// The greeting goes on.
    GoesOn(Greeting),
    /// The link begins.
    LinkBegins,
    /// The session has ended.
    Ended(End),
}

/// The effect of a text.
#[derive(Clone, Copy, Debug, PartialEq, Eq)]
pub struct Led {
    /// The next state of the greeting.
    pub greeted: Greeted,
    /// True if the caller is let in, so that the number of the end's conversations rises.
    pub rises: bool,
}

impl Greeting {
    /// Makes the caller's greeting, before anything has come.
    pub fn caller() -> Self
        ensures { result ≡ first_greeting AwaitedText.CalledName }
    {
        Greeting::awaiting(AwaitedText::CalledName)
    }

    /// Makes the called end's greeting, which says its name first. Without memory for that, the outbox's entries stay.
    pub fn called<A: Allocator>(me: &Name, out: &mut Outbox<A>) -> Result<Self, AllocError>
        ensures first { IfOk result (λ greeting. greeting ≡ first_greeting AwaitedText.CallerName) }
        ensures says { Says (called_text me.now ∷ []) out.old out.new result }
    {
        say_name(b"Shere=", me, out)?;
        Ok(Greeting::awaiting(AwaitedText::CallerName))
    }

    /// Handles a text at an end with this place. Without memory for its answer, the outbox's entries stay.
    pub fn on_text<A: Allocator>(
        self,
        place: &Place,
        text: &[u8],
        out: &mut Outbox<A>,
    ) -> Result<Led, AllocError>
        ensures greeted { IfOk result (λ led. led.greeted
            ≡ (text_came place.now.me place.now.peer place.now.number self text.now).greeted) }
        ensures rises { IfOk result (λ led. led.rises
            ≡ (text_came place.now.me place.now.peer place.now.number self text.now).rises) }
        ensures says { Says (text_came place.now.me place.now.peer
            place.now.number self text.now).says out.old out.new result }
    {
        match self.awaited {
            AwaitedText::CalledName => self.on_called_name(place, text, out),
            AwaitedText::CallerName => self.on_caller_name(place, text, out),
            AwaitedText::Admission => Ok(self.on_admission(text)),
            AwaitedText::Protocols => self.on_protocols(text, out),
            AwaitedText::Choice => Ok(self.on_choice(text)),
        }
    }

    /// Handles a text that was too long: the session ends, and nothing is said.
    pub fn on_long_text(self) -> Greeted
        ensures { result ≡ long_text_came.greeted }
    {
        Greeted::Ended(End::BadTalk)
    }

    /// Handles a timeout. At the limit the session ends. Nothing is said.
    pub fn on_timeout(self) -> Greeted
        ensures { result ≡ (timed_out self).greeted }
    {
        if self.timeouts >= TIMEOUTS_MAX - 1 {
            return Greeted::Ended(End::GaveUp);
        }
        Greeted::GoesOn(Greeting {
            timeouts: self.timeouts + 1,
            ..self
        })
    }

    fn awaiting(awaited: AwaitedText) -> Self
        ensures { result ≡ first_greeting awaited }
    {
        Greeting {
            awaited,
            timeouts: 0,
        }
    }

    fn on_called_name<A: Allocator>(
        self,
        place: &Place,
        text: &[u8],
        out: &mut Outbox<A>,
    ) -> Result<Led, AllocError>
        ensures greeted { IfOk result (λ led. led.greeted
            ≡ (called_name_came place.now.me place.now.peer place.now.number self
            text.now).greeted) }
        ensures rises { IfOk result (λ led. led.rises
            ≡ (called_name_came place.now.me place.now.peer place.now.number self text.now).rises) }
        ensures says { Says (called_name_came place.now.me place.now.peer
            place.now.number self text.now).says out.old out.new result }
    {
        if text == b"Shere".as_slice() {
            return Greeting::tell_name(place, out);
        }
        if !text.starts_with(b"Shere=") {
            return Ok(Led::to(Greeted::GoesOn(self)));
        }
        if &text[6..] != place.peer.as_bytes() {
            return Ok(Led::to(Greeted::Ended(End::WrongName)));
        }
        Greeting::tell_name(place, out)
    }

    fn tell_name<A: Allocator>(place: &Place, out: &mut Outbox<A>) -> Result<Led, AllocError>
        ensures greeted { IfOk result (λ led. led.greeted
            ≡ (goes_on (call_text place.now.me place.now.number ∷ [])
            AwaitedText.Admission).greeted) }
        ensures rises { IfOk result (λ led. led.rises ≡ false) }
        ensures says { Says (call_text place.now.me place.now.number ∷ []) out.old out.new result }
    {
        say(&write_call(&place.me, place.number), out)?;
        Ok(Led::to(Greeted::GoesOn(Greeting::awaiting(AwaitedText::Admission))))
    }

    fn on_caller_name<A: Allocator>(
        self,
        place: &Place,
        text: &[u8],
        out: &mut Outbox<A>,
    ) -> Result<Led, AllocError>
        ensures greeted { IfOk result (λ led. led.greeted
            ≡ (caller_name_came place.now.peer place.now.number self text.now).greeted) }
        ensures rises { IfOk result (λ led. led.rises
            ≡ (caller_name_came place.now.peer place.now.number self text.now).rises) }
        ensures says { Says (caller_name_came place.now.peer place.now.number self text.now).says
            out.old out.new result }
    {
        if !text.starts_with(b"S") {
            return Ok(Led::to(Greeted::GoesOn(self)));
        }
        if name_in(text) != place.peer.as_bytes() {
            say(b"RYou are unknown to me", out)?;
            return Ok(Led::to(Greeted::Ended(End::Refused)));
        }
        Greeting::on_known_caller(expects(place.number, text), out)
    }

    /// Handles the text of the expected caller: lets it in, or refuses its number.
    fn on_known_caller<A: Allocator>(
        is_expected: bool,
        out: &mut Outbox<A>,
    ) -> Result<Led, AllocError>
        ensures greeted { IfOk result (λ led. led.greeted ≡ (number_came is_expected).greeted) }
        ensures rises { IfOk result (λ led. led.rises ≡ (number_came is_expected).rises) }
        ensures says { Says (number_came is_expected).says out.old out.new result }
    {
        if !is_expected {
            say(b"RBADSEQ", out)?;
            return Ok(Led::to(Greeted::Ended(End::BadSequence)));
        }
        say_both(b"ROK", b"Pg", out)?;
        Ok(Led::in_by(Greeting::awaiting(AwaitedText::Choice)))
    }

    fn on_admission(self, text: &[u8]) -> Led
        ensures greeted { result.greeted ≡ (admission_came self text.now).greeted }
        ensures rises { result.rises ≡ (admission_came self text.now).rises }
    {
        if text.starts_with(b"ROK") {
            Led::in_by(Greeting::awaiting(AwaitedText::Protocols))
        } else if text.starts_with(b"RBADSEQ") {
            Led::to(Greeted::Ended(End::BadSequence))
        } else if text.starts_with(b"R") {
            Led::to(Greeted::Ended(End::Refused))
        } else {
            Led::to(Greeted::GoesOn(self))
        }
    }

    fn on_protocols<A: Allocator>(self, text: &[u8], out: &mut Outbox<A>) -> Result<Led, AllocError>
        ensures greeted { IfOk result (λ led. led.greeted
            ≡ (protocols_came self text.now).greeted) }
        ensures rises { IfOk result (λ led. led.rises ≡ (protocols_came self text.now).rises) }
        ensures says { Says (protocols_came self text.now).says out.old out.new result }
    {
        if !text.starts_with(b"P") {
            return Ok(Led::to(Greeted::GoesOn(self)));
        }
        if !text[1..].contains(&b'g') {
            say(b"UN", out)?;
            return Ok(Led::to(Greeted::Ended(End::NoProtocol)));
        }
        say(b"Ug", out)?;
        Ok(Led::to(Greeted::LinkBegins))
    }

    fn on_choice(self, text: &[u8]) -> Led
        ensures greeted { result.greeted ≡ (choice_came self text.now).greeted }
        ensures rises { result.rises ≡ (choice_came self text.now).rises }
    {
        if text == b"Ug".as_slice() {
            Led::to(Greeted::LinkBegins)
        } else if text.starts_with(b"U") {
            Led::to(Greeted::Ended(End::NoProtocol))
        } else {
            Led::to(Greeted::GoesOn(self))
        }
    }
}

impl Led {
    /// Makes the effect that leaves the number as it was.
    fn to(greeted: Greeted) -> Self
        ensures greeted { result.greeted ≡ greeted }
        ensures rises { result.rises ≡ false }
    {
        Led {
            greeted,
            rises: false,
        }
    }

    /// Makes the effect that lets the caller in, so that the number rises.
    fn in_by(greeting: Greeting) -> Self
        ensures greeted { result.greeted ≡ Greeted.GoesOn greeting }
        ensures rises { result.rises ≡ true }
    {
        Led {
            greeted: Greeted::GoesOn(greeting),
            rises: true,
        }
    }
}

/// Returns whether a called end expects the number in a caller's text. `number` is the one that it keeps, if any.
fn expects(number: Option<u32>, text: &[u8]) -> bool
    ensures { result ≡ is_expected number (number_in_call text.now) }
{
    let Some(number) = number else {
        return true;
    };
    match caller_number(text) {
        Some(told) => told == number,
        None => false,
    }
}

/// Returns the number after a text. If it rises, it is one more. After the greatest number comes 0.
pub(crate) fn number_behind(rises: bool, number: Option<u32>) -> Option<u32>
    ensures { result ≡ number_by rises number }
{
    match number {
        Some(number) if rises => Some(number.wrapping_add(1)),
        _ => number,
    }
}

/// Returns the name in a caller's text: the bytes after its letter, up to the first space.
fn name_in(text: &[u8]) -> &[u8]
    requires { 0 < length text.now }
    ensures { result.now ≡ name_in_caller_text text.now }
{
    let (_, behind) = text.split_at(1);
    let (name, _) = behind.split_at(word_len(behind));
    name
}

fn word_len(text: &[u8]) -> usize
    ensures value { result ≡ position_or_len is_space text.now }
    ensures fits { result ≤ length text.now }
{
    text.iter().take_while(|b| **b != b' ').count()
}
