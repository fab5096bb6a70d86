// What the statements and the main theorem come to, in a reader's words.
ghost use Rattle.format.specs.Corollaries.{MessageInFrames, NothingElseBehindAHeader, OutOfPlaceNeverOpens, CutShortNeverOpens, CutShortAndEnded, ExchangedNeverOpens, ExchangedAndRenumbered, FramesOfAnother, TwoTextsTwoKeys, FrontHidesText, SameLengthSameSize, CorrectProgramAccounts, NothingGivenOut};

// A message is its header, the header's tag, and its frames one by one.
pub fn message_in_frames()
    ensures { MessageInFrames }
{}

// Behind a request's header nothing but its own message opens, unless a piece was forged or an id used twice.
pub fn nothing_else_behind_a_header()
    ensures { NothingElseBehindAHeader }
{}

// A frame in the place of an earlier one: whatever follows, it doesn't open.
pub fn out_of_place_never_opens()
    ensures { OutOfPlaceNeverOpens }
{}

// A message cut after any frame and ended by its own final frame doesn't open.
pub fn cut_short_never_opens()
    ensures { CutShortNeverOpens }
{}

// Nor does one that is ended by any final frame, unless a piece was forged or an id used twice.
pub fn cut_short_and_ended()
    ensures { CutShortAndEnded }
{}

// Two frames exchanged: it doesn't open.
pub fn exchanged_never_opens()
    ensures { ExchangedNeverOpens }
{}

// Nor if they are renumbered, unless they hold the same, or a piece was forged or an id used twice.
pub fn exchanged_and_renumbered()
    ensures { ExchangedAndRenumbered }
{}

// The frames of another message behind this header don't open, unless a piece was forged or an id used twice.
pub fn frames_of_another()
    ensures { FramesOfAnother }
{}

// One message doesn't open to two texts, unless two keys have the same commitment.
pub fn two_texts_two_keys()
    ensures { TwoTextsTwoKeys }
{}

// Header and header tag don't depend on the text.
pub fn front_hides_text()
    ensures { FrontHidesText }
{}

// Texts of equal length give messages of equal length with the same header.
pub fn same_length_same_size()
    ensures { SameLengthSameSize }
{}

// What a correct program opens is accounted for.
pub fn correct_program_accounts()
    ensures { CorrectProgramAccounts }
{}

// Of bytes that are no message of the sealed ones it gives out nothing, unless one of three things is shown.
pub fn nothing_given_out()
    ensures { NothingGivenOut }
{}
