// A message that opens ends where it ends.
ghost use Rattle.format.specs.Statements.{NothingLessOrMore, GoingOnIsRefused, NoBeginningOpens};

// Of two byte strings of which one begins with the other, one at most opens with a key.
pub fn nothing_less_or_more()
    ensures { NothingLessOrMore }
{}

// What begins with a message that opens and goes on is refused, with 8.
pub fn going_on_is_refused()
    ensures { GoingOnIsRefused }
{}

// No proper beginning of a message that opens does.
pub fn no_beginning_opens()
    ensures { NoBeginningOpens }
{}
