// How long a message is, and with which nonces its pieces are sealed.
ghost use Rattle.format.specs.Statements.{LengthIsKnown, NoncesDiffer};

// The length of a message follows from the request without its key.
pub fn length_is_known()
    ensures { LengthIsKnown }
{}

// No two pieces of a message are sealed with the same nonce.
pub fn nonces_differ()
    ensures { NoncesDiffer }
{}
