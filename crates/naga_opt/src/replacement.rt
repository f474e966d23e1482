//! Replacing a file by a new one at once.
use arrayvec::ArrayString;
use std::fs::{self, File, Metadata, OpenOptions, Permissions};
use std::io::{self, Error, ErrorKind, Write};
use std::os::fd::AsFd;
use std::os::unix::fs::{MetadataExt, OpenOptionsExt, PermissionsExt, fchown};
use std::{fmt, process};

/// The maximum number of names that are tried for the file beside the one to replace.
const MAX_TRIES: u32 = 1_000_000;

/// The mode of a new file while it is written, if it replaces another one: only its owner may read and write it.
const PRIVATE_MODE: u32 = 0o600;

/// The mode of a new file that replaces none, from which the system takes the bits of the umask.
const ORDINARY_MODE: u32 = 0o666;

/// The kind of file that a name denotes.
#[derive(Drop)]
pub enum Target {
    /// A device, a pipe, a folder or a link to nothing.
    Special,
    /// A file with this path and this access. Links to it are resolved.
    File(String, Access),
    /// No file at all. This is its path.
    Missing(String),
}

/// Who may do what with a file.
#[derive(Clone, Copy, Debug, PartialEq, Eq)]
pub struct Access {
    /// The user that owns the file.
    owner: u32,
    /// The group of the file.
    group: u32,
    /// The permissions of the owner, of the group and of others.
    permissions: u32,
}

impl Target {
    /// Returns what a name denotes.
    pub fn of(rt: &HostRuntime, name: &str) -> io::Result<Target> {
        if name.starts_with("/dev/") || name.starts_with("/proc/") {
            return Ok(Target::Special);
        }
        match fs::metadata(rt, name) {
            Ok(found) if found.is_file() => Target::resolved(rt, name, &found),
            Ok(_) => Ok(Target::Special),
            Err(_) => Target::missing(rt, name),
        }
    }

    /// Returns the file that a name denotes, if that is a file.
    fn resolved(rt: &HostRuntime, name: &str, found: &Metadata) -> io::Result<Target> {
        let path = fs::canonicalize(rt, name)?;
        let path = String::from_str(rt.alloc(), path.as_str())?;
        Ok(Target::File(path, Access::of(found)))
    }

    /// Returns what a name denotes behind which there is no file.
    fn missing(rt: &HostRuntime, name: &str) -> io::Result<Target> {
        if fs::symlink_metadata(rt, name).is_ok() {
            return Ok(Target::Special);
        }
        Ok(Target::Missing(String::from_str(rt.alloc(), name)?))
    }
}

impl Access {
    /// Returns the access to the file that has this metadata. The bits that set the user or the group of a process, and
    /// the sticky bit, are left out.
    fn of(found: &Metadata) -> Access {
        Access {
            owner: found.uid(),
            group: found.gid(),
            permissions: found.mode() & 0o777,
        }
    }

    /// Returns the permissions for a file with another group than this one: of this group and of others, both get what
    /// both had.
    fn permissions_for_another_group(&self) -> u32 {
        let common = (self.permissions >> 3) & self.permissions & 0o7;
        (self.permissions & 0o700) | (common << 3) | common
    }

    /// Gives a file this access.
    ///
    /// If the system does not allow this owner, or neither this owner nor this group, these stay as they are. Then no
    /// user gets more permissions than before, except for the owner of the file.
    fn give(&self, file: &File) -> io::Result<()> {
        if fchown(file.as_fd(), Some(self.owner), Some(self.group)).is_err() {
            let _ = fchown(file.as_fd(), None, Some(self.group));
        }
        let found = file.metadata()?;
        let permissions = if found.gid() == self.group {
            self.permissions
        } else {
            self.permissions_for_another_group()
        };
        // A file system without permissions refuses a change, and needs none.
        if found.mode() & 0o7777 == permissions {
            return Ok(());
        }
        file.set_permissions(Permissions::from_mode(permissions))
    }
}

/// A new file beside one that it is to replace.
///
/// The file to replace is unchanged until a flush, which renames the new one. If a write or the flush fails, the new
/// file is removed. A run that is killed, as by a limit on the size of files, leaves the new file beside the old one.
/// Until the flush, only its owner may read it. Then it gets the owner, the group and the permissions of the old file,
/// as far as the system allows, but not its access control lists and other attributes. Other names of the old file,
/// which hard links are, keep the old contents.
#[derive(Drop)]
pub struct Replacement<'a> {
    /// The handle through which files are reached.
    rt: &'a HostRuntime,
    /// The path of the file to replace.
    path: String,
    /// The access to the file to replace, if there is such a file.
    access: Option<Access>,
    /// The path of the new file, which is in the same folder.
    beside: String,
    /// The new file.
    file: File,
    /// `true` once the new file has its final name or was removed.
    is_over: bool,
}

impl<'a> Replacement<'a> {
    /// Creates an empty file beside the one at the path, which has this access if there is one.
    ///
    /// The name of the new file is `.naga_opt-`, the number of the process, a hyphen, and the first number that makes it
    /// the name of no file. If it cannot be created, the error names it, unless there is no folder for it.
    pub fn begin(
        rt: &'a HostRuntime,
        path: String,
        access: Option<Access>,
    ) -> io::Result<Replacement<'a>> {
        let process = process::id(rt.process());
        for number in 0..MAX_TRIES {
            let name = format!(in rt.alloc(); ".naga_opt-{process}-{number}")?;
            let beside = format!(in rt.alloc(); "{}{name}", folder_of(path.as_str()))?;
            match create(rt, beside.as_str(), access.is_some()) {
                Ok(file) => {
                    return Ok(Replacement {
                        rt,
                        path,
                        access,
                        beside,
                        file,
                        is_over: false,
                    });
                }
                Err(error) if error.kind() == ErrorKind::AlreadyExists => {}
                Err(error) => return Err(not_created(name.as_str(), error)),
            }
        }
        Err(Error::from(ErrorKind::AlreadyExists))
    }

    /// Removes the new file after a call on it failed with this error, unless the call is to be tried again.
    fn discard(&mut self, error: &Error) {
        if error.kind() != ErrorKind::Interrupted && !self.is_over {
            self.is_over = true;
            let _ = fs::remove_file(self.rt, self.beside.as_str());
        }
    }

    /// Gives the new file the access of the old one and its final name, once it is on the disk, unless that was done
    /// before.
    fn finish(&mut self) -> io::Result<()> {
        if self.is_over {
            return Ok(());
        }
        if let Some(access) = &self.access {
            access.give(&self.file)?;
        }
        self.file.sync_all()?;
        fs::rename(self.rt, self.beside.as_str(), self.path.as_str())?;
        self.is_over = true;
        Ok(())
    }
}

impl Write for Replacement<'_> {
    fn write(&mut self, buf: &[u8]) -> io::Result<usize> {
        match self.file.write(buf) {
            Ok(count) => Ok(count),
            Err(error) => {
                self.discard(&error);
                Err(error)
            }
        }
    }

    fn flush(&mut self) -> io::Result<()> {
        match self.finish() {
            Ok(()) => Ok(()),
            Err(error) => {
                self.discard(&error);
                Err(error)
            }
        }
    }
}

/// Returns the path of the folder of a file, with a slash at its end, or nothing if the path has no slash.
fn folder_of(path: &str) -> &str {
    match path.rfind('/') {
        Some(slash) => path.split_at(slash.saturating_add(1)).0,
        None => "",
    }
}

/// Creates an empty file, which is private if `is_private` is `true`.
fn create(rt: &HostRuntime, path: &str, is_private: bool) -> io::Result<File> {
    let mode = if is_private {
        PRIVATE_MODE
    } else {
        ORDINARY_MODE
    };
    OpenOptions::new()
        .write(true)
        .create_new(true)
        .mode(mode)
        .open(rt, path)
}

/// Returns the error of a new file of this name that could not be created. It has the name, unless the reason is that
/// there is no folder for it.
fn not_created(name: &str, error: Error) -> Error {
    match error.kind() {
        ErrorKind::NotFound | ErrorKind::NotADirectory | ErrorKind::InvalidFilename => error,
        kind => {
            let mut text = ArrayString::<256>::new();
            let _ = fmt::Write::write_fmt(
                &mut text,
                format_args!("creating {name} beside it: {error}"),
            );
            Error::new(kind, text.as_str())
        }
    }
}
