// A message opened frame by frame comes to what it comes to as a whole.
ghost use Rattle.opening.specs.Joined.{FramesJoin};

// However many calls there were and whatever bytes each was lent: what they gave out is a beginning of the text, all of it once `finish`
// agrees, and a refusal is the one that `open` gives.
pub fn frames_join()
    ensures { FramesJoin }
{}
