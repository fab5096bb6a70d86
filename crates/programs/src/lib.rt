// What both programs do with files and for people: the command line, the key from its file, INPUT and OUTPUT, lines on standard output.
// Whatever fails comes back as a problem that names the file; nothing here decides what is sealed or opened.
#![tactic(auto)]

mod file_result;
mod input;
mod key;
mod output;
mod rooms;
mod tool;

pub use file_result::FileResult;
pub use input::input_len;
pub use key::{KeyUse, read_key, with_key};
pub use output::{Output, check_output, finish_output, say};
pub use rooms::{FRAME_ROOM, START_ROOM, TEXT_ROOM};
pub use tool::{Tool, run_tool};
