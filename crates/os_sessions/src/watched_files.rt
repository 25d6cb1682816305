//! Files of the system and streams under a watch.

use crate::watch::{Call, Watch};
use rio_os::{FileLock, HostFile};
use std::alloc::Allocator;
use std::fs::{File, Metadata, OpenFile, OpenOptions, Permissions};
use std::io::{self, PipeReader, PipeWriter, Read, Seek, SeekFrom, Write};
use std::os::fd::BorrowedFd;
use std::os::unix::fs::FileExt;
use std::os::unix::net::SocketAddr;
use std::path::PathBuf;
use std::rt::Files;

/// A stream, an open file or an open folder, watched.
#[derive(Drop)]
pub struct Watched<'a, S> {
    pub stream: S,
    is_folder: bool,
    watch: &'a Watch,
}

impl<'a, S> Watched<'a, S> {
    /// A stream whose calls are recorded by `watch`.
    pub fn new(stream: S, watch: &'a Watch) -> Watched<'a, S> {
        Watched {
            stream,
            is_folder: false,
            watch,
        }
    }
}

impl<'a, S: Read> Read for Watched<'a, S> {
    fn read(&mut self, buf: &mut [u8]) -> io::Result<usize> {
        let most = self.watch.record(Call::Read)?.min(buf.len());
        self.stream.read(&mut buf[..most])
    }
}

impl<'a, S: Write> Write for Watched<'a, S> {
    fn write(&mut self, buf: &[u8]) -> io::Result<usize> {
        let most = self.watch.record_given(Call::Write, buf)?.min(buf.len());
        self.stream.write(&buf[..most])
    }

    fn flush(&mut self) -> io::Result<()> {
        self.stream.flush()
    }
}

impl<'a, S: Seek> Seek for Watched<'a, S> {
    fn seek(&mut self, to: SeekFrom) -> io::Result<u64> {
        self.watch.record(Call::Seek)?;
        self.stream.seek(to)
    }
}

impl<'a, S: OpenFile> OpenFile for Watched<'a, S> {
    fn metadata(&self) -> io::Result<Metadata> {
        self.watch.record(Call::Look)?;
        self.stream.metadata()
    }

    fn set_len(&self, size: u64) -> io::Result<()> {
        self.watch.record(Call::SetLength)?;
        self.stream.set_len(size)
    }

    fn sync_all(&self) -> io::Result<()> {
        self.watch.record(if self.is_folder {
            Call::SyncFolder
        } else {
            Call::SyncFile
        })?;
        self.stream.sync_all()
    }

    /// This may leave a file's length behind, so it is not recorded.
    fn sync_data(&self) -> io::Result<()> {
        self.stream.sync_data()
    }
}

impl<'a, S: FileExt> FileExt for Watched<'a, S> {
    fn read_at(&self, buf: &mut [u8], offset: u64) -> io::Result<usize> {
        let most = self.watch.record(Call::Read)?.min(buf.len());
        self.stream.read_at(&mut buf[..most], offset)
    }

    fn write_at(&self, buf: &[u8], offset: u64) -> io::Result<usize> {
        let most = self.watch.record_given(Call::Write, buf)?.min(buf.len());
        self.stream.write_at(&buf[..most], offset)
    }
}

impl<'a, S: HostFile> HostFile for Watched<'a, S> {
    fn take_lock(&self, lock: FileLock) -> io::Result<()> {
        self.watch.record(Call::Lock)?;
        self.stream.take_lock(lock)
    }
}

/// The files of the system, watched.
#[derive(Drop)]
pub struct WatchedFiles<'a> {
    rt: HostRuntime,
    watch: &'a Watch,
}

impl<'a> WatchedFiles<'a> {
    /// The calls of these files are recorded by `watch`.
    pub fn new(rt: HostRuntime, watch: &'a Watch) -> WatchedFiles<'a> {
        WatchedFiles { rt, watch }
    }

    /// Gives the name of a file to the one that stands beside it as its next.
    fn overtake(&self, path: &str) -> io::Result<()> {
        let next = format!(in self.rt.alloc(); "{path}.next")?;
        self.rt.rename(next.as_str(), path)
    }

    /// Whether there is a folder of this name.
    fn is_folder(&self, path: &str) -> bool {
        match self.rt.metadata(path) {
            Ok(metadata) => metadata.is_dir(),
            Err(_) => false,
        }
    }
}

impl<'a> Files for WatchedFiles<'a> {
    type File = Watched<'a, File>;

    type Dir = <HostRuntime as Files>::Dir;

    fn open_file(&self, how: &OpenOptions, path: &str) -> io::Result<Watched<'a, File>> {
        let is_folder = self.is_folder(path);
        let call = match (how.asks_create_new(), is_folder) {
            (true, _) => Call::MakeFile,
            (false, true) => Call::OpenFolder,
            (false, false) => Call::OpenFile,
        };
        self.watch.record(call)?;
        let stream = self.rt.open_file(how, path)?;
        if self.watch.overtakes() {
            self.overtake(path)?;
        }
        Ok(Watched {
            stream,
            is_folder,
            watch: self.watch,
        })
    }

    fn open_dir(&self, path: &str) -> io::Result<<HostRuntime as Files>::Dir> {
        self.rt.open_dir(path)
    }

    fn metadata(&self, path: &str) -> io::Result<Metadata> {
        self.watch.record(Call::Look)?;
        self.rt.metadata(path)
    }

    fn symlink_metadata(&self, path: &str) -> io::Result<Metadata> {
        self.watch.record(Call::Look)?;
        self.rt.symlink_metadata(path)
    }

    fn copy(&self, from: &str, to: &str) -> io::Result<u64> {
        self.watch.record(Call::Copy)?;
        self.rt.copy(from, to)
    }

    fn rename(&self, from: &str, to: &str) -> io::Result<()> {
        self.watch.record(Call::Rename)?;
        self.rt.rename(from, to)
    }

    fn remove_file(&self, path: &str) -> io::Result<()> {
        self.watch.record(Call::Remove)?;
        self.rt.remove_file(path)
    }

    fn create_dir(&self, path: &str) -> io::Result<()> {
        self.rt.create_dir(path)
    }

    fn remove_dir(&self, path: &str) -> io::Result<()> {
        self.rt.remove_dir(path)
    }

    fn remove_dir_all<B: Allocator>(&self, alloc: B, path: &str) -> io::Result<()> {
        self.rt.remove_dir_all(alloc, path)
    }

    fn canonicalize<B: Allocator>(&self, alloc: B, path: &str) -> io::Result<PathBuf<B>> {
        self.rt.canonicalize(alloc, path)
    }

    fn read_link<B: Allocator>(&self, alloc: B, path: &str) -> io::Result<PathBuf<B>> {
        self.rt.read_link(alloc, path)
    }

    fn bind_unix(&self, socket: BorrowedFd<'_>, addr: &SocketAddr) -> io::Result<()> {
        self.rt.bind_unix(socket, addr)
    }

    fn symlink(&self, original: &str, link: &str) -> io::Result<()> {
        self.rt.symlink(original, link)
    }

    fn pipe(&self) -> io::Result<(PipeReader, PipeWriter)> {
        self.rt.pipe()
    }

    fn hard_link(&self, original: &str, link: &str) -> io::Result<()> {
        self.rt.hard_link(original, link)
    }

    fn set_permissions(&self, path: &str, perm: Permissions) -> io::Result<()> {
        self.rt.set_permissions(path, perm)
    }

    fn chown(&self, path: &str, uid: Option<u32>, gid: Option<u32>) -> io::Result<()> {
        self.rt.chown(path, uid, gid)
    }

    fn lchown(&self, path: &str, uid: Option<u32>, gid: Option<u32>) -> io::Result<()> {
        self.rt.lchown(path, uid, gid)
    }

    fn create_dir_with_mode(&self, path: &str, mode: u32) -> io::Result<()> {
        self.rt.create_dir_with_mode(path, mode)
    }
}
