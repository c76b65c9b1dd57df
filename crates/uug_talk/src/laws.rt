//! Laws over the definitions that the other contracts cite. The functions do nothing.
ghost use Rattle.std.specs.Prelude.{◌≡◌, ◌+◌, ◌<◌, ◌≤◌, ℕ, List, [], ◌∷◌, ◌++◌, Ok, Some, None, true, false, length, take, drop, replicate, All};
ghost use Rattle.uug_talk.specs.declared.answer.Answer.{Answer};
ghost use Rattle.uug_talk.specs.declared.answer.TheConstants.{DEFAULT_MODE};
ghost use Rattle.uug_talk.specs.declared.chunks.TheConstants.{MESSAGE_MAX};
ghost use Rattle.uug_talk.specs.declared.gather.TheConstants.{FILE_MAX, FILE_LIMIT_MAX};
ghost use Rattle.uug_talk.specs.declared.hail.TheConstants.{HAIL_MAX, TEXT_START};
ghost use Rattle.uug_talk.specs.declared.lines.TheConstants.{LINE_MAX};
ghost use Rattle.uug_talk.specs.declared.mode.TheConstants.{MODE_MAX, MODE_DIGITS_MAX};
ghost use Rattle.uug_talk.specs.declared.name.TheConstants.{NAME_MAX};
ghost use Rattle.uug_talk.specs.declared.words.TheConstants.{COMMAND_MAX};
ghost use Rattle.uug_talk.specs.declared.order.Order.{Order};
ghost use Rattle.uug_talk.specs.Answer.{IsWritten, answer_of, answer_text};
ghost use Rattle.uug_talk.specs.Chunks.{AreShortOf, IsCommandText, Measure, command_messages, cut, file_messages, last_zeros, up_to_multiple};
ghost use Rattle.uug_talk.specs.Gathering.{Kind, OfCommand, OfFile, GathersBack, behind, gathered, with_message};
ghost use Rattle.uug_talk.specs.Order.{HasMode, HasNames, order_of, order_text};
ghost use Rattle.uug_talk.specs.HailCalls.{HailCall, Lead, FindsTooLong, all_used, all_shown};
ghost use Rattle.uug_talk.specs.StreamTexts.{StreamTexts, HasTexts, Rest, TooLong, texts_of, continued, with_text, no_text};
ghost use Rattle.uug_talk.specs.Texts.{IsFirstText, IsTooLong, Heard, Passing, Whole, Holds, is_whole, left_to_hear, used_before, hear};

/// States each limit as a number: the most bytes of a name, a command, a handshake text, a message, a file and a line.
/// Also stated are the greatest limit that a file may have, the limit of a mode, the most octal digits in which a mode
/// is read, and the mode of a file that is given without one. The byte at the start of a handshake text is stated too.
pub fn limits()
    ensures name { NAME_MAX ≡ 200 }
    ensures command { COMMAND_MAX ≡ 4096 }
    ensures hail { HAIL_MAX ≡ 256 }
    ensures message { MESSAGE_MAX ≡ 4096 }
    ensures file { FILE_MAX ≡ 1048576 }
    ensures file_limit { FILE_LIMIT_MAX ≡ 268435456 }
    ensures mode { MODE_MAX ≡ 4095 }
    ensures mode_digits { MODE_DIGITS_MAX ≡ 7 }
    ensures default_mode { DEFAULT_MODE ≡ 438 }
    ensures text_start { TEXT_START ≡ 16 }
    ensures line { LINE_MAX ≡ 65536 }
{}

/// States that the text written for a command is read as that command.
pub fn written_orders_are_read()
    ensures { (order : Order) → HasNames order → HasMode order
        → order_of (order_text order) ≡ Ok order }
{}

/// States that the text written for an answer is read as that answer.
pub fn written_answers_are_read()
    ensures { (answer : Answer) → IsWritten answer → answer_of (answer_text answer) ≡ Ok answer }
{}

/// States that the text written for a command or an answer may be cut into messages.
pub fn written_texts_are_commands()
    ensures order { (order : Order) → HasNames order → HasMode order
        → IsCommandText (order_text order) }
    ensures answer { (answer : Answer) → IsWritten answer → IsCommandText (answer_text answer) }
{}

/// States how short commands differ. A command that is not short goes with zeros up to a multiple of the size. A short
/// one goes in as many messages, all the same except the last, which lacks zeros at its end.
pub fn short_commands()
    ensures filled { (size : ℕ) (text : List ℕ)
        → command_messages (record { size = size; short = false }) text
        ≡ cut size (text ++ 0 ∷ replicate (up_to_multiple size (length text + 1)) 0) }
    ensures short { (size : ℕ) (text : List ℕ) → 0 < size
        → AreShortOf (command_messages (record { size = size; short = true }) text)
        (command_messages (record { size = size; short = false }) text) }
{}

/// States that the messages of a command from an offset on are the message there, then those after it, up to the one
/// with the zero byte. The rest of the text may be cut into messages too.
pub fn command_goes_on()
    ensures more { (m : Measure) (offset : ℕ) (text : List ℕ) → 0 < m.size
        → offset + m.size ≤ length text
        → command_messages m (drop offset text)
        ≡ take m.size (drop offset text) ∷ command_messages m (drop (offset + m.size) text) }
    ensures last { (m : Measure) (offset : ℕ) (text : List ℕ) → offset ≤ length text
        → length text < offset + m.size
        → command_messages m (drop offset text)
        ≡ (drop offset text ++ replicate (last_zeros m (length (drop offset text))) 0) ∷ [] }
    ensures left { (offset : ℕ) (text : List ℕ) → IsCommandText text
        → IsCommandText (drop offset text) }
{}

/// States that the messages of a file from an offset on are the message there, then those after it, up to the empty
/// one.
pub fn file_goes_on()
    ensures more { (size offset : ℕ) (bytes : List ℕ) → 0 < size → offset < length bytes
        → file_messages size (drop offset bytes)
        ≡ take size (drop offset bytes) ∷ file_messages size (drop (offset + size) bytes) }
    ensures last { (size offset : ℕ) (bytes : List ℕ) → length bytes ≤ offset
        → file_messages size (drop offset bytes) ≡ [] ∷ [] }
{}

/// States that no message is longer than the size.
pub fn messages_fit()
    ensures command { (m : Measure) (text : List ℕ)
        → All (λ message. length message ≤ m.size) (command_messages m text) }
    ensures file { (size : ℕ) (bytes : List ℕ)
        → All (λ message. length message ≤ size) (file_messages size bytes) }
{}

/// States what messages say together with one message more, if they are not whole before it.
pub fn gathering_goes_on()
    ensures { (kind : Kind) (messages : List (List ℕ)) (message : List ℕ)
        → (gathered kind messages).whole ≡ false
        → gathered kind (messages ++ message ∷ []) ≡ with_message (gathered kind messages) message }
{}

/// States that a command's messages are whole with the last one, then hold the command, and pass no limit before.
pub fn command_is_gathered()
    ensures { (m : Measure) (text : List ℕ) → 0 < m.size → IsCommandText text
        → GathersBack OfCommand (command_messages m text) text }
{}

/// States that a file's messages are whole with the last one, then hold the file, and pass no limit before.
pub fn file_is_gathered()
    ensures { (size limit : ℕ) (bytes : List ℕ) → 0 < size
        → GathersBack (OfFile limit) (file_messages size bytes) bytes }
{}

/// States that gathering after held bytes goes on message by message. If the held bytes are a front of a file, the
/// messages of the rest bring the file.
pub fn file_goes_on_behind_its_front()
    ensures next { (front : List ℕ) (kind : Kind) (messages : List (List ℕ)) (message : List ℕ)
        → (gathered kind messages).whole ≡ false
        → behind front (gathered kind (messages ++ message ∷ []))
        ≡ with_message (behind front (gathered kind messages)) message }
    ensures whole { (size limit offset : ℕ) (bytes : List ℕ) → 0 < size
        → behind (take offset bytes) (gathered (OfFile limit) (file_messages size (drop offset bytes)))
        ≡ record { kind = OfFile limit; bytes = bytes; whole = true } }
{}

/// States that a stream has one first text, which ends at one place, or one place at which it is too long.
pub fn one_first_text()
    ensures texts { (front text rest other_front other_text other_rest : List ℕ)
        → IsFirstText front text → IsFirstText other_front other_text
        → front ++ rest ≡ other_front ++ other_rest → (front ≡ other_front) × (text ≡ other_text) }
    ensures too_long { (front rest other_front other_rest : List ℕ)
        → IsTooLong front → IsTooLong other_front
        → front ++ rest ≡ other_front ++ other_rest → front ≡ other_front }
    ensures apart { (front text rest other_front other_rest : List ℕ)
        → IsFirstText front text → IsTooLong other_front
        → front ++ rest ≡ other_front ++ other_rest → ⊥ }
{}

/// States that each stream has its texts in exactly one way: those that a function gives.
pub fn one_reading_of_texts()
    ensures some { (stream : List ℕ) → HasTexts stream (texts_of stream) }
    ensures only { (stream : List ℕ) (found : StreamTexts) → HasTexts stream found
        → found ≡ texts_of stream }
{}

/// States that the texts of a stream do not depend on the pieces in which it comes. More bytes add the texts of the
/// rest with these bytes after it. If a text is too long, more bytes add none.
pub fn texts_in_pieces()
    ensures rest { (stream more : List ℕ) (texts : List (List ℕ)) (rest : List ℕ)
        (found : StreamTexts)
        → HasTexts stream (record { texts = texts; end = Rest rest })
        → HasTexts (rest ++ more) found
        → HasTexts (stream ++ more) (record { texts = texts ++ found.texts; end = found.end }) }
    ensures too_long { (stream more : List ℕ) (texts : List (List ℕ))
        → HasTexts stream (record { texts = texts; end = TooLong })
        → HasTexts (stream ++ more) (record { texts = texts; end = TooLong }) }

    // The same as a function.
    ensures continued { (stream more : List ℕ)
        → texts_of (stream ++ more) ≡ continued (texts_of stream) more }
{}

/// States that hearing a piece with more after it is hearing the piece, and then what is after it.
pub fn hearing_in_pieces()
    ensures goes_on { (heard next : Heard) (piece more : List ℕ) (used : ℕ)
        → hear heard piece ≡ Some (used, next) → is_whole next ≡ false
        → hear heard (piece ++ more) ≡ used_before used (hear next more) }
    ensures whole { (heard next : Heard) (piece more : List ℕ) (used : ℕ)
        → hear heard piece ≡ Some (used, next) → is_whole next ≡ true
        → hear heard (piece ++ more) ≡ Some (used, next) }
    ensures too_long { (heard : Heard) (piece more : List ℕ) → hear heard piece ≡ None
        → hear heard (piece ++ more) ≡ None }
{}

/// States that the text heard from a piece is what the stream says with the used bytes of the piece. The used bytes
/// are no more than the piece has, and all of them while no text is whole.
pub fn hearing_says_what_came()
    ensures holds { (heard next : Heard) (before piece : List ℕ) (used : ℕ) → Holds heard before
        → hear heard piece ≡ Some (used, next) → Holds next (before ++ take used piece) }
    ensures used { (heard next : Heard) (piece : List ℕ) (used : ℕ)
        → hear heard piece ≡ Some (used, next)
        → (used ≤ length piece) × (is_whole next ≡ false → used ≡ length piece) }
{}

/// States that hearing a piece shows how the texts of the stream go on.
pub fn hearing_finds_the_texts()
    ensures whole { (heard : Heard) (before piece text : List ℕ) (used : ℕ) → Holds heard before
        → hear heard piece ≡ Some (used, Whole text)
        → texts_of (before ++ piece) ≡ with_text text (texts_of (drop used piece)) }
    ensures rest { (heard next : Heard) (before piece : List ℕ) (used : ℕ) → Holds heard before
        → hear heard piece ≡ Some (used, next) → is_whole next ≡ false
        → texts_of (before ++ piece) ≡ no_text (Rest (before ++ piece)) }
    ensures too_long { (heard : Heard) (before piece : List ℕ) → Holds heard before
        → hear heard piece ≡ None → texts_of (before ++ piece) ≡ no_text TooLong }
{}

/// States that the texts that a `Hail` showed are those of all bytes that it used. This holds for any calls since it
/// was made, with a `clear` after each whole text and nowhere else.
pub fn shown_are_the_texts()
    ensures rest { (calls : List HailCall) (heard : Heard) → Lead Passing calls heard
        → is_whole heard ≡ false
        → (rest : List ℕ)
        × HasTexts (all_used calls) (record { texts = all_shown calls; end = Rest rest })
        × Holds heard rest }
    ensures whole { (calls : List HailCall) (text : List ℕ) → Lead Passing calls (Whole text)
        → HasTexts (all_used calls)
        (record { texts = all_shown calls ++ text ∷ []; end = Rest [] }) }
    ensures too_long { (calls : List HailCall) (heard : Heard) (piece : List ℕ)
        → Lead Passing calls heard
        → FindsTooLong heard piece
        → HasTexts (all_used calls ++ piece) (record { texts = all_shown calls; end = TooLong }) }
{}

/// States that hearing with a `clear` after each whole text comes to an end. The number of bytes left, plus one if a
/// text is whole, falls.
pub fn hearing_comes_to_an_end()
    ensures { (heard next : Heard) (bytes : List ℕ) (used : ℕ)
        → hear heard bytes ≡ Some (used, next)
        → is_whole next ≡ true → left_to_hear Passing (drop used bytes) < left_to_hear heard bytes }
{}
