// What was sealed opens to what it was, with its key and not with another.
ghost use Rattle.format.specs.Statements.{SealedOpens, OtherKey};

// What was sealed opens, with its key, to what it was.
pub fn sealed_opens()
    ensures { SealedOpens }
{}

// With a key of another commitment the refusal is 4.
pub fn other_key_is_refused()
    ensures { OtherKey }
{}
