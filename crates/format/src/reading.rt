// Headers and frames are read in one way only, and a header shows what was sealed.
ghost use Rattle.format.specs.Statements.{ReadIsWritten, FrameIsWritten, HeaderIsSeen};

// A header that can be read is, written, the bytes that were read.
pub fn header_read_is_written()
    ensures { ReadIsWritten }
{}

// So is a frame.
pub fn frame_read_is_written()
    ensures { FrameIsWritten }
{}

// Reading a sealed message's header, without a key, shows what the request said.
pub fn header_is_seen()
    ensures { HeaderIsSeen }
{}
