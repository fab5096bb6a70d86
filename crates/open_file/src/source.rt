// The frames of a message as they are read: every byte that is taken goes into a hash.
use files::window::Window;
use programs::FRAME_ROOM;
use sha512::Hasher;
use std::fs::File;
use std::io;
use std::io::{BufReader, Seek, SeekFrom};

// The window stands beside it: a struct that held both would be moved, with all its room, as it is made.
#[derive(Drop)]
pub struct Source {
    file: BufReader<File>,
    hasher: Hasher,
}

impl Source {
    // The file from its header's end on; the header's bytes were taken.
    pub fn after(rt: &HostRuntime, mut file: File, header: &[u8]) -> io::Result<Source> {
        file.seek(SeekFrom::Start(header.len() as u64))?;
        let mut hasher = Hasher::new();
        hasher.update(header);
        let file = BufReader::new(rt.alloc(), file)?;
        Ok(Source { file, hasher })
    }

    // Reads on behind the bytes that are there already, as much as the window has room for.
    pub fn fill(&mut self, bytes: &mut Window<FRAME_ROOM>) -> io::Result<()> {
        bytes.fill(&mut self.file)
    }

    // Takes so many of the bytes that are there.
    pub fn take(&mut self, bytes: &mut Window<FRAME_ROOM>, n: usize) {
        let held = bytes.held();
        self.hasher.update(&held[..n.min(held.len())]);
        bytes.take(n);
    }

    // The hash of all that was taken.
    pub fn digest(self) -> [u8; 64] {
        self.hasher.finish()
    }
}
