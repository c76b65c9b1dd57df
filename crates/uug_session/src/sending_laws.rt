//! Laws that an end sends while there is room, and closes if all is over. The functions do nothing.
ghost use Rattle.std.specs.Prelude.{◌≤◌, ℕ, List, Option};
ghost use Rattle.uug_link.specs.Announced.{Announced};
ghost use Rattle.uug_link.specs.declared.limits.TheConstants.{WINDOW_MAX};
ghost use Rattle.uug_session.specs.EndStep.{EndEvent, EndState, Identity, begins_session, end_step};
ghost use Rattle.uug_session.specs.Engine.{Does, EngineState, end_of};
ghost use Rattle.uug_conversation.specs.Holdings.{Holdings, Kept};
ghost use Rattle.uug_conversation.specs.Keeper.{Keeper};
ghost use Rattle.uug_session.specs.Node.{effect_of};
ghost use Rattle.uug_session.specs.Sending.{HasClosedWhereItIsOver, HasSaidWhatItCan, NodeHasSaidWhatItCan};

/// States that, after each event on a link that is up, the window lets no more messages out or none waits to be sent.
/// This holds whatever keeps the conversation, and for each window that can be announced, 1 to 7.
pub fn an_end_sends_while_there_is_room<C>()
    ensures first { (k : Keeper C) (id : Identity) (own : Announced) (number : Option ℕ) (c : C)
        → HasSaidWhatItCan k (begins_session id own number c).state }
    ensures stays { (k : Keeper C) (id : Identity) (event : EndEvent) (e : EndState C)
        → (end_step k id event e).state.link.window ≤ WINDOW_MAX
        → HasSaidWhatItCan k e → HasSaidWhatItCan k (end_step k id event e).state }
{}

/// States that, after each event, an end whose link is up still has something to say or to take. If all is over, it
/// has closed the link.
pub fn an_end_closes_where_all_is_over<C>()
    ensures first { (k : Keeper C) (id : Identity) (own : Announced) (number : Option ℕ) (c : C)
        → HasClosedWhereItIsOver k (begins_session id own number c).state }
    ensures stays { (k : Keeper C) (id : Identity) (event : EndEvent) (e : EndState C)
        → HasClosedWhereItIsOver k e → HasClosedWhereItIsOver k (end_step k id event e).state }
{}

/// States that a node sends while there is room. A step that its calls describe (`Does`) is such an event, whether it
/// handles an item or a timeout.
pub fn a_node_sends_while_there_is_room()
    ensures { (h : Holdings) (kept kept_after : List Kept) (event : EndEvent)
        (before after : EngineState)
        → after.link.window ≤ WINDOW_MAX
        → Does (effect_of h kept event before) (end_of h kept_after after) before after
        → NodeHasSaidWhatItCan h kept before → NodeHasSaidWhatItCan h kept_after after }
{}
