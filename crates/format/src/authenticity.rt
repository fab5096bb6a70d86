// The main theorem: what opens was sealed, as it is, or one of three things is shown.
ghost use Rattle.format.specs.Sealed.{WhatOpensWasSealed, WhatOpensWasSealedWhateverTag};

// Whatever opens is the message of a request that was sealed; or a piece of it was forged, with its right tag,
// or an id was used twice, or two keys come to the same.
pub fn what_opens_was_sealed()
    ensures { WhatOpensWasSealed }
{}

// The same without a word on the forged piece's tag.
pub fn what_opens_was_sealed_whatever_tag()
    ensures { WhatOpensWasSealedWhateverTag }
{}
