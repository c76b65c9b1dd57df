//! The law of two ends that hear each other. The function does nothing.
ghost use Rattle.uug_conversation.specs.Party.{Party, IsSound, Suit};
ghost use Rattle.uug_conversation.specs.declared.side.Side.TheVariants.{Caller, Called};
ghost use Rattle.uug_session.specs.TwoEnds.{Two, Reached, IsTold};

/// States that four numbers describe two ends that hear each other, whatever they do and when. Each has sent first
/// messages of its own in their conversation, no more than it may. Each has taken first messages of what the other has
/// sent. Each end is where the conversation says, and two numbers describe it.
pub fn two_ends_are_told_by_four_numbers()
    ensures { (a b : Party) → Suit a b → IsSound a → IsSound b → (two : Two) → Reached a b two
        → IsTold Caller a b two.caller_end two.called_end
        × IsTold Called a b two.called_end two.caller_end }
{}
