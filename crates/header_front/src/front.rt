// The answer.
ghost use Rattle.header_front.specs.Front.{Fronts};

use crate::settled::settled;
use header_read::read_header;

#[derive(Clone, Copy, Debug, PartialEq, Eq)]
pub enum HeaderFront {
    // the header and its tag are the first so many bytes, whatever follows
    Whole(usize),
    // the bytes are too few to tell
    Short,
    // no message begins with these bytes, whatever follows
    Wrong,
}

// What stands at the front of a message that begins with these bytes.
pub fn header_front(bytes: &[u8]) -> HeaderFront
    ensures value { Fronts bytes.now result }
{
    if let Some(read) = read_header(bytes) {
        return HeaderFront::Whole(bytes.len() - read.rest.len());
    }
    if settled(bytes).is_some() {
        return HeaderFront::Wrong;
    }
    HeaderFront::Short
}
