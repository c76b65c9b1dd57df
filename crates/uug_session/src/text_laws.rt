//! Laws of the search for texts in the bytes of the greeting. The functions do nothing.
ghost use Rattle.std.specs.Prelude.{◌≡◌, ◌↔◌, ℕ, List, [], ◌∷◌, ◌++◌, drop};
ghost use Rattle.uug_session.specs.TextCalls.{TextCall, Makes, Make, dropped, all_accepted, all_dropped};
ghost use Rattle.uug_session.specs.TextsFound.{ReadsAs, FindsText, FindsNone, Taken, with_texts};
ghost use Rattle.uug_session.specs.TextsHeld.{TextsHeld, nothing_held, text_waits, text_stands, text_too_long, search_text, ShowsText, shown_text, size_of_text};
ghost use Rattle.uug_talk.specs.StreamTexts.{Rest, TooLong, StandBefore, no_text, texts_of};
ghost use Rattle.uug_talk.specs.Texts.{IsFirstText};

/// States that a search of some bytes finds their first text, or that none is whole, or that the first is too long,
/// exactly as the bytes say. The bytes that it leaves go on as the searched bytes do.
pub fn text_search_finds_the_first()
    ensures stands { (stream text others : List ℕ) → search_text stream ≡ text_stands text others
        → FindsText stream text others }
    ensures waits { (stream rest : List ℕ) → search_text stream ≡ text_waits rest
        → FindsNone stream rest }
    ensures too_long { (stream : List ℕ) → search_text stream ≡ text_too_long
        → texts_of stream ≡ no_text TooLong }

    // Each of these is found if it is there.
    ensures some { (front text behind : List ℕ) → IsFirstText front text
        → (others : List ℕ) × (search_text (front ++ behind) ≡ text_stands text others) }
    ensures none { (stream : List ℕ) → texts_of stream ≡ no_text (Rest stream)
        → (rest : List ℕ) × (search_text stream ≡ text_waits rest) }
    ensures long { (stream : List ℕ) → texts_of stream ≡ no_text TooLong
        → search_text stream ≡ text_too_long }
{}

/// States that the dropped texts are the first of all accepted bytes, and that the others are those of the held bytes.
/// This holds whatever was called since `new` or `clear`, if no text was too long. Right after a drop, exactly the
/// bytes after the text are held. If a search then finds a text too long, there are no others.
pub fn taken_texts_are_first()
    ensures texts { (calls : List TextCall) (now : TextsHeld) → Make calls nothing_held now
        → ReadsAs (texts_of (all_accepted calls))
        (with_texts (all_dropped calls) (texts_of now.bytes)) }
    ensures stand { (calls : List TextCall) (now : TextsHeld) → Make calls nothing_held now
        → (passed : List ℕ)
        × StandBefore (all_dropped calls) (passed ++ now.bytes) (all_accepted calls) }
    ensures behind { (calls : List TextCall) (text : List ℕ) (old now : TextsHeld)
        → Make calls nothing_held old
        → Makes (dropped text) old now
        → StandBefore (all_dropped calls ++ text ∷ []) now.bytes (all_accepted calls) }
    ensures too_long { (calls : List TextCall) (now : TextsHeld) → Make calls nothing_held now
        → search_text now.bytes ≡ text_too_long
        → texts_of (all_accepted calls) ≡ record { texts = all_dropped calls; end = TooLong } }
{}

/// States that texts are taken one after the other, each found by a search of the held bytes. In all accepted bytes,
/// the next text follows those that were taken, or there is none, or it is too long.
pub fn texts_are_taken_in_order()
    ensures begins { Taken [] [] [] }
    ensures more { (texts : List (List ℕ)) (accepted held more : List ℕ) → Taken texts accepted held
        → Taken texts (accepted ++ more) (held ++ more) }
    ensures stands { (texts : List (List ℕ)) (accepted held text others : List ℕ)
        → Taken texts accepted held
        → search_text held ≡ text_stands text others
        → StandBefore (texts ++ text ∷ []) (drop (size_of_text text) others) accepted }
    // Right after a text nothing was skipped.
    ensures behind { (texts : List (List ℕ)) (accepted held : List ℕ)
        → StandBefore texts held accepted
        → Taken texts accepted held }
    ensures waits { (texts : List (List ℕ)) (accepted held rest : List ℕ)
        → Taken texts accepted held
        → search_text held ≡ text_waits rest → Taken texts accepted rest }
    ensures too_long { (texts : List (List ℕ)) (accepted held : List ℕ) → Taken texts accepted held
        → search_text held ≡ text_too_long
        → texts_of accepted ≡ record { texts = texts; end = TooLong } }
    // The texts that were taken are the first of all bytes, and those of the held bytes are the others.
    ensures first { (texts : List (List ℕ)) (accepted held : List ℕ) → Taken texts accepted held
        → ReadsAs (texts_of accepted) (with_texts texts (texts_of held)) }
{}

/// States that a text shown is the first one. It stays shown, whatever is pushed, searched and shown, until it is
/// dropped. A further search, with more bytes after it, skips nothing and finds it again.
pub fn a_shown_text_stays()
    ensures is { (text : List ℕ) (held : TextsHeld) → ShowsText text held → text ≡ shown_text held }
    ensures again { (text more : List ℕ) (held : TextsHeld) → ShowsText text held
        → search_text (held.bytes ++ more) ≡ text_stands text (held.bytes ++ more) }
    ensures stays { (text : List ℕ) (calls : List TextCall) (old new : TextsHeld)
        → ShowsText text old → Make calls old new → all_dropped calls ≡ [] → ShowsText text new }
{}
