// Refusals to open, in words.
use commands::problem::Problem;
use opening::OpenRefusal;

// The words are this program's, so they are a table here and no Display of the library's type.
fn meaning(refusal: OpenRefusal) -> &'static str {
    match refusal {
        OpenRefusal::OutTooShort => "the frame's text doesn't fit",
        OpenRefusal::NoHeader => "it doesn't begin with a header and its tag",
        OpenRefusal::Commitment => "the key isn't the one that it was sealed with",
        OpenRefusal::HeaderTag => "the header's tag isn't right",
        OpenRefusal::Frame(_) => "what comes next isn't the next frame",
        OpenRefusal::FrameTag(_) => "the frame's tag isn't right",
        OpenRefusal::AfterFinal(_) => "something comes after the final frame",
    }
}

pub fn refused(refusal: OpenRefusal) -> Problem<'static> {
    Problem::Refused {
        number: refusal.number(),
        frame: refusal.at_frame(),
        why: meaning(refusal),
    }
}
