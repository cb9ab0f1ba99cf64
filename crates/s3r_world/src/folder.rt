//! The files of a folder that stand for volumes.
ghost use Rattle.std.specs.Prelude.{◌≡◌, ◌≤◌, ◌<◌, length, vec_len, IfOk};

use std::alloc::{AllocError, Global};
use std::fs::{File, OpenFile, OpenOptions};
use std::io::{self, Read, Seek, SeekFrom, Write};
use std::rt::Files;

// Volume v is the file `volume-v`, of which an opened one is kept.
#[derive(Drop)]
pub(crate) struct Folder<F: Drop> {
    alloc: Global,
    path: String,
    files: Vec<Option<F>>,
    pub volumes: u32,
    ghost all: { vec_len files ≡ volumes },
}

// Opens the file of a volume, made empty where it is missing. Its name is durable from then on.
fn open_file<R: Files>(rt: &R, alloc: Global, folder: &str, v: u32) -> io::Result<R::File> {
    let path = format!(in alloc; "{folder}/volume-{v}")?;
    let mut how = OpenOptions::new();
    how.read(true);
    how.write(true);
    how.create(true);
    let file = how.open(rt, path.as_str())?;
    File::open(rt, folder)?.sync_all()?;
    Ok(file)
}

// Fills the front of a buffer from a place of a file on, up to the file's end.
fn read_from<F: Read + Seek>(file: &mut F, at: u64, into: &mut [u8]) -> io::Result<usize>
    ensures { IfOk result (λ k. k ≤ length into.old) }
{
    file.seek(SeekFrom::Start(at))?;
    let mut filled = 0;
    for _ in 0..into.len() {
        let count = file.read(&mut into[filled..])?;
        if count == 0 {
            break;
        }
        filled += count;
    }
    Ok(filled)
}

fn write_from<F: Write + Seek>(file: &mut F, at: u64, bytes: &[u8]) -> io::Result<()> {
    file.seek(SeekFrom::Start(at))?;
    file.write_all(bytes)
}

impl<F: Read + Write + Seek + OpenFile + Drop> Folder<F> {
    // Opens nothing.
    pub fn new(alloc: Global, path: &str, volumes: u32) -> Result<Folder<F>, AllocError>
        ensures { IfOk result (λ folder. folder.volumes ≡ volumes) }
    {
        let mut files = Vec::new(alloc);
        for _ in 0..volumes {
            files.push(None)?;
        }
        let path = String::from_str(alloc, path)?;
        Ok(Folder {
            alloc,
            path,
            files,
            volumes,
        })
    }

    // The file of a volume, opened where it isn't yet. Its place is empty until it is kept.
    fn opened<R: Files<File = F>>(&mut self, rt: &R, v: u32) -> io::Result<F>
        requires { v < self.old.volumes }
        ensures { self.new.volumes ≡ self.old.volumes }
    {
        match self.files[v as usize].take() {
            Some(file) => Ok(file),
            None => open_file(rt, self.alloc, self.path.as_str(), v),
        }
    }

    fn keep(&mut self, v: u32, file: F)
        requires { v < self.old.volumes }
        ensures { self.new.volumes ≡ self.old.volumes }
    {
        self.files[v as usize] = Some(file);
    }

    pub fn size<R: Files<File = F>>(&mut self, rt: &R, v: u32) -> io::Result<u64>
        requires { v < self.old.volumes }
        ensures { self.new.volumes ≡ self.old.volumes }
    {
        let file = self.opened(rt, v)?;
        let found = file.metadata();
        self.keep(v, file);
        Ok(found?.len())
    }

    pub fn read<R: Files<File = F>>(
        &mut self,
        rt: &R,
        v: u32,
        at: u64,
        into: &mut [u8],
    ) -> io::Result<usize>
        requires { v < self.old.volumes }
        ensures within { IfOk result (λ k. k ≤ length into.old) }
        ensures volumes { self.new.volumes ≡ self.old.volumes }
    {
        let mut file = self.opened(rt, v)?;
        let count = read_from(&mut file, at, into);
        self.keep(v, file);
        count
    }

    pub fn write<R: Files<File = F>>(
        &mut self,
        rt: &R,
        v: u32,
        at: u64,
        bytes: &[u8],
    ) -> io::Result<()>
        requires { v < self.old.volumes }
        ensures { self.new.volumes ≡ self.old.volumes }
    {
        let mut file = self.opened(rt, v)?;
        let done = write_from(&mut file, at, bytes);
        self.keep(v, file);
        done
    }

    pub fn sync<R: Files<File = F>>(&mut self, rt: &R, v: u32) -> io::Result<()>
        requires { v < self.old.volumes }
        ensures { self.new.volumes ≡ self.old.volumes }
    {
        let file = self.opened(rt, v)?;
        let done = file.sync_all();
        self.keep(v, file);
        done
    }
}
