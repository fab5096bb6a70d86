// Strongbox: messages sealed and opened again. This is the library that programs use; it needs no memory but what is lent to it.
// The contracts of `seal`, `read_header` and `open` are the promise: each answers what the definitions of the format say, nothing
// is given out of a message that isn't whole, and what opens was sealed.
#![tactic(auto)]

mod calls;
mod promise;

pub use calls::{open, read_header, seal, sealed_len};
pub use header::{EncryptedDataKey, HeaderRequest, Pair, Request, SealRefusal};
pub use header_read::{Context, EncryptedDataKeys, Header, ReadHeader};
pub use opening::{FrameText, OpenRefusal, Opened, Opener, Step};
pub use promise::{Program, Strongbox};
pub use sealing::{FrameRefusal, Sealer, message_len};
