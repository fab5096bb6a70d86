// What the calls of a sealer come to.
ghost use Rattle.sealing.specs.Calls.{CallsMakeTheMessage};

// What a sealer wrote, call by call and joined, is the message of the request with their texts joined.
pub fn calls_make_the_message()
    ensures { CallsMakeTheMessage }
{}
