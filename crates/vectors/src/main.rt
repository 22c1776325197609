// Runs the stored cases: for each argument, which names a harbour file, the name, then the print of that file, then its page. The file `stdout` beside
// src/ has what the reference gives for them (reference/src/bin/make_vectors.rs writes all three).
#![tactic(auto)]

ghost use Rattle.io.specs.Counts.{IsPrefixLen};

use harbour_file::LONGEST_FILE;
use harbour_print::{LONGEST_PRINT, Layout, PrintRoom};
use std::env::{Env, FillError};
use std::fs::File;
use std::io::Read;
use std::rt::Files;

// One byte more than a harbour file may have.
const READ_ROOM: usize = LONGEST_FILE + 1;

// Room for a path, as the system has it.
const NAME_ROOM: usize = 4096;

// Bytes on standard output. What cannot be written is missing there, so that the comparison fails.
fn show(rt: &impl Print, bytes: &[u8]) {
    let _ = rt.write_all(bytes);
}

// The print of a file's text in a layout.
fn show_print(rt: &impl Print, text: &[u8], layout: Layout) {
    let mut out: PrintRoom = [0; LONGEST_PRINT];
    let printed = harbour_print::print_file(text, layout, &mut out);
    show(rt, &out[..printed]);
}

// Reads until `text` is full, the file ends or a read fails. Answers how many bytes were read.
// Not `program::read_input`, which says that a read failed: here what was read is shown all the same.
fn read_full<R: Read>(file: &mut R, text: &mut [u8]) -> usize
    ensures { IsPrefixLen result text.new }
{
    let mut at = 0;
    while at < text.len() {
        let Ok(more) = file.read(&mut text[at..]) else {
            return at;
        };
        if more == 0 {
            return at;
        }
        at += more;
    }
    at
}

// The print of the open file, and its page.
fn show_file<R: Read>(rt: &impl Print, file: &mut R) {
    let mut text = [0u8; READ_ROOM];
    let length = read_full(file, &mut text);
    show_print(rt, &text[..length], Layout::Columns);
    show_print(rt, &text[..length], Layout::Page);
}

// The file of that name. One that cannot be opened gives a line that no print has, so that the comparison fails.
fn show_named(rt: &(impl Print + Files), name: &[u8]) {
    let Ok(path) = str::from_utf8(name) else {
        show(rt, b"(missing)\n");
        return;
    };
    let Ok(mut file) = File::open(rt, path) else {
        show(rt, b"(missing)\n");
        return;
    };
    show_file(rt, &mut file);
}

// Case i: a line with the name, then the print and the page. Answers whether there is such an argument.
fn show_case(rt: &(impl Print + Files + Env), i: usize) -> bool {
    let mut name = [0u8; NAME_ROOM];
    let length = match rt.arg(i, &mut name) {
        Ok(length) => length,
        Err(FillError::TooLong) => 0,
        Err(FillError::NotPresent) => return false,
    };
    show(rt, &name[..length]);
    show(rt, b"\n");
    show_named(rt, &name[..length]);
    true
}

fn main(rt: HostRuntime) {
    for i in 1..usize::MAX {
        if !show_case(&rt, i) {
            return;
        }
    }
}
