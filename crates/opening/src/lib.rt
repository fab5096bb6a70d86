// Messages opened: whole ones in memory, and frame by frame. A message opens only with the key that it was sealed with, and only as it
// was sealed; the contract of `open` says so. Nothing of a frame is written before its tag was right, and after a refusal the lent bytes
// are zeros.
#![tactic(auto)]

pub mod joined;
mod message;
mod opener;
mod refusal;
mod state;
mod unlock;
mod walk;

pub use message::{Opened, open};
pub use refusal::OpenRefusal;
pub use state::{FrameText, Opener, Step};
