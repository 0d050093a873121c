// Runs a program in each of the folders that standard input names, in lines `update NAME` and `load NAME`, and prints for each folder its
// name, the answer line and the SHA-1 of the image file after it.
#![tactic(auto)]

ghost use Rattle.std.specs.Prelude.{◌≤◌, length};

use records::buffers::append;
use records::fields::{field, rest};
use records::streams::{Hex, INPUT_ROOM, read_full, read_input, say};
use std::fs;
use std::fs::File;
use std::rt::Files;
use std::str::from_utf8;

// A path has fewer bytes.
const PATH_ROOM: usize = 4096;

const IMAGE_ROOM: usize = 65536;

// A path that is too long fills the room, and no file has it.
fn in_folder<'a>(folder: &[u8], name: &[u8], room: &'a mut [u8; PATH_ROOM]) -> &'a [u8]
    ensures { length result.now ≤ 4096 }
{
    let a = append(room, 0, folder);
    let b = append(room, a, b"/");
    let n = append(room, b, name);
    &room[..n]
}

// std opens no file whose name is no text.
fn open<R: Files>(rt: &R, path: &[u8]) -> Option<R::File> {
    fs::open(rt, from_utf8(path).ok()?).ok()
}

fn show_file<R: Files + Print>(rt: &R, path: &[u8]) {
    match open(rt, path) {
        Some(mut file) => {
            let mut image = [0u8; IMAGE_ROOM];
            let n = read_full(&mut file, &mut image);
            let digest = sha1_digest::digest(&image[..n]);
            let _ = println!(rt; "{}", Hex(&digest));
        }
        None => say(rt, b"no image\n"),
    }
}

fn show_image<R: Files + Print>(rt: &R, folder: &[u8]) {
    let mut image = [0u8; PATH_ROOM];
    show_file(rt, in_folder(folder, b"system.img", &mut image));
}

fn update_folder<R: Files<File = File> + Print + Eprint>(rt: &R, folder: &[u8]) {
    let mut list = [0u8; PATH_ROOM];
    let mut image = [0u8; PATH_ROOM];
    let mut data = [0u8; PATH_ROOM];
    let mut patch = [0u8; PATH_ROOM];
    let mut copy = [0u8; PATH_ROOM];
    let paths = package::Paths {
        list: in_folder(folder, b"system.transfer.list", &mut list),
        image: in_folder(folder, b"system.img", &mut image),
        data: in_folder(folder, b"system.new.dat", &mut data),
        patch: in_folder(folder, b"system.patch.dat", &mut patch),
        copy: in_folder(folder, b"system.img.updated", &mut copy),
    };
    package::update(rt, paths);
}

fn load_folder<R: Files<File = File> + Print + Eprint>(rt: &R, folder: &[u8]) {
    let mut file = [0u8; PATH_ROOM];
    let mut image = [0u8; PATH_ROOM];
    let mut copy = [0u8; PATH_ROOM];
    let paths = package::load::Paths {
        file: in_folder(folder, b"system.simg", &mut file),
        image: in_folder(folder, b"system.img", &mut image),
        copy: in_folder(folder, b"system.img.updated", &mut copy),
    };
    package::load::load_sparse(rt, paths);
}

fn run_folder<R: Files<File = File> + Print + Eprint>(rt: &R, line: &[u8]) {
    let folder = rest(line, 1);
    say(rt, folder);
    say(rt, b": ");
    match field(line, 0) {
        b"update" => update_folder(rt, folder),
        b"load" => load_folder(rt, folder),
        _ => {}
    }
    show_image(rt, folder);
}

fn main(rt: HostRuntime) {
    let mut text = [0u8; INPUT_ROOM];
    for line in read_input(&rt, &mut text).split_inclusive(|b| *b == b'\n') {
        if let Some(line) = line.strip_suffix(b"\n") {
            run_folder(&rt, line);
        }
    }
}
