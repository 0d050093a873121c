// Writing the image back where it lies: the file keeps its name, owner and mode, and a link stays a link. A power cut can leave such a
// write half done, so a synced copy of the new image stands beside it until the image itself is synced. A new image
// is such a copy, which gets the image's name.
use crate::files::{create, open_read, remove, rename};
use crate::messages::{Told, tell};
use std::fs::{OpenFile, Permissions};
use std::io;
use std::io::{Seek, SeekFrom, Write};
use std::os::unix::fs::PermissionsExt;
use std::rt::Files;

// The part of a path that is the name of its folder, with the slash at the end; `.` for a name alone.
fn folder_of(path: &[u8]) -> &[u8] {
    match path.iter().rposition(|byte| *byte == b'/') {
        Some(slash) => &path[..slash + 1],
        None => b".",
    }
}

// The names in a path's folder reach the device.
fn sync_folder(rt: &impl Files, path: &[u8]) -> io::Result<()> {
    let folder = open_read(rt, folder_of(path))?;
    folder.sync_all()
}

// The copy is one byte too long until its bytes are synced: one of the image's length is whole.
fn write_copy<F: Write + Seek + OpenFile>(file: &mut F, image: &[u8]) -> io::Result<()> {
    file.write_all(image)?;
    let end = file.seek(SeekFrom::Current(0))?;
    file.write_all(b"\n")?;
    file.sync_all()?;
    file.set_len(end)?;
    file.sync_all()
}

// A copy of an image that is there may be read by its owner alone, as the image may be.
fn write_private<F: Write + Seek + OpenFile>(file: &mut F, image: &[u8]) -> io::Result<()> {
    file.set_permissions(Permissions::from_mode(0o600))?;
    write_copy(file, image)
}

fn write_new<F: Write + Seek + OpenFile>(
    file: &mut F,
    image: &[u8],
    private: bool,
) -> io::Result<()> {
    if private {
        return write_private(file, image);
    }
    write_copy(file, image)
}

// Writes the copy into a new file, which is closed then, and sees to its name.
fn finish_copy<R: Files>(
    rt: &R,
    mut file: R::File,
    path: &[u8],
    image: &[u8],
    private: bool,
) -> io::Result<()> {
    write_new(&mut file, image, private)?;
    drop(file);
    sync_folder(rt, path)
}

// Makes the copy, unless its name is taken.
fn keep_copy<R: Files + Eprint>(
    rt: &R,
    path: &[u8],
    image: &[u8],
    private: bool,
) -> Result<(), Told> {
    let file = create(rt, path).map_err(|error| tell(rt, path, &error))?;
    finish_copy(rt, file, path, image, private).map_err(|error| {
        let told = tell(rt, path, &error);
        let _ = remove(rt, path);
        told
    })
}

fn overwrite<F: Write + Seek + OpenFile>(file: &mut F, image: &[u8]) -> io::Result<()> {
    file.seek(SeekFrom::Start(0))?;
    file.write_all(image)?;
    file.sync_all()
}

// Writes the image over its file. Where that fails, the copy stays: it alone is whole then.
pub(crate) fn write_back<R: Files + Eprint>(
    rt: &R,
    file: &mut R::File,
    path: &[u8],
    copy_path: &[u8],
    image: &[u8],
) -> Result<(), Told> {
    if image.is_empty() {
        return Ok(());
    }
    keep_copy(rt, copy_path, image, true)?;
    overwrite(file, image).map_err(|error| tell(rt, path, &error))?;
    if let Err(error) = remove(rt, copy_path) {
        tell(rt, copy_path, &error);
    }
    Ok(())
}

// Makes the image file, where there is none: a whole copy gets its name. Where the name is not sure to last, the image is there all the same.
pub(crate) fn make_image<R: Files + Eprint>(
    rt: &R,
    path: &[u8],
    copy_path: &[u8],
    image: &[u8],
) -> Result<(), Told> {
    if image.is_empty() {
        return Ok(());
    }
    keep_copy(rt, copy_path, image, false)?;
    rename(rt, copy_path, path).map_err(|error| {
        let told = tell(rt, path, &error);
        let _ = remove(rt, copy_path);
        told
    })?;
    sync_folder(rt, path).map_err(|error| tell(rt, path, &error))
}
