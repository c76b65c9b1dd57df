ghost use Rattle.std.specs.Prelude.{IsTrue};
ghost use Rattle.uug_conversation.specs.Party.{TakesSizes};
ghost use Rattle.uug_line.specs.OfBytes.{AreOfBytes, AreOfTypes, IsEndOfBytes, IsOfBytes};
ghost use Rattle.uug_line.specs.Setup.{end_setup_of, setup_of};
ghost use Rattle.uug_line.specs.SoundSetup.{IsSoundEnd};

use crate::event::Event;
use crate::setup::{EndSetup, Setup};
use std::alloc::Allocator;
use uug_session::Spool;

fn look_at_end<A: Allocator + Copy>(end: &EndSetup<A>)
    ensures sound { IsSoundEnd (end_setup_of end.now) }
    ensures of_bytes { IsEndOfBytes (end_setup_of end.now) }
{
    end.name.as_bytes();
    end.announce.window();
    end.queue.pending();
}

/// Matches an event: only then does a proof know that the numbers in it are bytes.
pub(crate) fn look_at_event(event: Event)
    ensures { IsOfBytes event }
{
    match event {
        Event::Flip { .. } => {}
        Event::Insert { .. } => {}
        _ => {}
    }
}

fn look_at_events(events: &[Event])
    ensures { AreOfBytes events.now }
{
    for event in events {
        look_at_event(*event);
    }
}

/// Looks at each set-up and event, and returns whether no end gives a file that is too large for the other. By their
/// types each set-up is else sound and of bytes, and all events are of bytes.
pub(crate) fn look_at_setup<A: Allocator + Copy>(setup: &Setup<A>, events: &[Event]) -> bool
    ensures { IsTrue result → AreOfTypes (setup_of setup.now) events.now }
{
    look_at_end(&setup.caller);
    look_at_end(&setup.called);
    look_at_events(events);
    takes_sizes(&setup.caller, &setup.called) && takes_sizes(&setup.called, &setup.caller)
}

/// Returns whether none of the files that one end gives is too large for the other.
fn takes_sizes<A: Allocator + Copy>(giver: &EndSetup<A>, taker: &EndSetup<A>) -> bool
    ensures { IsTrue result
        → TakesSizes (end_setup_of giver.now).holdings (end_setup_of taker.now).holdings }
{
    giver.spool.gives_within(taker.spool.limit())
}
