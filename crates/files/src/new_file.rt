// A new file, beside its place under a name of its own until it is whole. Only what was made here is ever removed.
use crate::read::random;
use std::fs::File;
use std::io::Write;
use std::path::Path;
use std::{fs, io};

#[derive(Drop)]
pub struct NewFile {
    file: File,
    path: String,
}

impl NewFile {
    // A file that wasn't there, in the folder of its place.
    pub fn create(rt: &HostRuntime, place: &str) -> io::Result<NewFile> {
        let mark = u64::from_be_bytes(random(rt)?);
        let path = format!(in rt.alloc(); "{place}.{mark:016x}.tmp")?;
        let file = File::create_new(rt, path.as_str())?;
        Ok(NewFile { file, path })
    }

    // Puts it in its place, which nothing else may have unless it is to be replaced. Where that fails, nothing is left of it.
    pub fn finish(self, rt: &HostRuntime, place: &str, replace: bool) -> io::Result<()> {
        let settled = self.settle(rt, place, replace);
        if settled.is_err() {
            self.discard(rt);
        }
        settled
    }

    pub fn discard(self, rt: &HostRuntime) {
        let _ = fs::remove_file(rt, self.path.as_str());
    }

    fn settle(&self, rt: &HostRuntime, place: &str, replace: bool) -> io::Result<()> {
        self.file.sync_all()?;
        if replace {
            fs::rename(rt, self.path.as_str(), place)?;
        } else {
            take_place(rt, self.path.as_str(), place)?;
        }
        // The file is whole and in its place; that the folder is synced too is not always to be had.
        let _ = sync_folder(rt, place);
        Ok(())
    }
}

impl Write for NewFile {
    fn write(&mut self, bytes: &[u8]) -> io::Result<usize> {
        self.file.write(bytes)
    }

    fn flush(&mut self) -> io::Result<()> {
        self.file.flush()
    }
}

// An empty file that wasn't there takes the place first, so that no other is replaced.
fn take_place(rt: &HostRuntime, path: &str, place: &str) -> io::Result<()> {
    let _claim = File::create_new(rt, place)?;
    let renamed = fs::rename(rt, path, place);
    if renamed.is_err() {
        let _ = fs::remove_file(rt, place);
    }
    renamed
}

fn sync_folder(rt: &HostRuntime, place: &str) -> io::Result<()> {
    let folder = Path::new(place)
        .parent()
        .map(|folder| folder.as_str())
        .filter(|name| !name.is_empty())
        .unwrap_or(".");
    File::open(rt, folder)?.sync_all()
}

#[cfg(test)]
mod tests {
    use super::*;
    use std::test::Fail;

    fn made(rt: &HostRuntime, place: &str, text: &str, replace: bool) -> io::Result<()> {
        let mut file = NewFile::create(rt, place)?;
        file.write_all(text.as_bytes())?;
        file.finish(rt, place, replace)
    }

    #[test]
    fn takes_its_place(rt: HostRuntime) -> Result<(), Fail> {
        made(&rt, "new_file.test", "one", false)?;
        assert!(rt; made(&rt, "new_file.test", "two", false).is_err());
        assert!(rt; fs::read_to_string(&rt, "new_file.test")?.as_str() == "one");
        made(&rt, "new_file.test", "three", true)?;
        assert!(rt; fs::read_to_string(&rt, "new_file.test")?.as_str() == "three");
        NewFile::create(&rt, "new_file.test")?.discard(&rt);
        fs::remove_file(&rt, "new_file.test")?;
        Ok(())
    }
}
