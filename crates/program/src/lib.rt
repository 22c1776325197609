// What the programs `columns` and `page` do: the harbour file on standard input, its print in a layout on standard output. Where the input cannot be
// read, or the print cannot be written, a line on standard error says so.
#![tactic(auto)]

ghost use Rattle.std.specs.Prelude.{take};
ghost use Rattle.std.specs.Io.KnownBytes.{Appends};
ghost use Rattle.io.specs.Counts.{IsPrefixLen};
ghost use Rattle.program.specs.Running.{Within, InputPrinted, HandedOn};
ghost use Rattle.program.specs.Streams.{ReadsFirst, PrintsFirst, HandsFirst, AddsFirst, AddsParts, WritesHanded, WritesPrint, TellsOf};

use harbour_file::LONGEST_FILE;
use harbour_print::{Layout, PrintRoom, print_file};
use std::io::{self, Read, Write};

// One byte more than a harbour file may have: a file that fills it is too long, however much of it is left unread.
const READ_ROOM: usize = LONGEST_FILE + 1;

// Why the bytes are not on standard output: there was no input to print, or of so many bytes that were handed to it some could not be written.
#[derive(Clone, Copy, Debug, PartialEq, Eq)]
pub enum Failure {
    Unread,
    Unwritten(usize),
}

// Reads the input until `text` is full, the input ends or a read fails. Answers how many bytes were read. After the end it reads no more: a terminal would wait.
fn read_input<R: Read>(input: &mut R, text: &mut [u8]) -> io::Result<usize>
    ensures within { Within result text.new }
    ensures first { ReadsFirst result (R.remaining input.old) text.new }
{
    let mut at = 0;
    while at < text.len() {
        let more = input.read(&mut text[at..])?;
        if more == 0 {
            return Ok(at);
        }
        at += more;
    }
    Ok(at)
}

// Prints what the text on the input gives to the start of `out`. Answers how many bytes that are.
fn print_input<R: Read>(input: &mut R, layout: Layout, out: &mut PrintRoom) -> io::Result<usize>
    ensures printed { InputPrinted layout result out.old out.new }
    ensures first { PrintsFirst layout result (R.remaining input.old) out.old out.new }
{
    let mut text = [0u8; READ_ROOM];
    let length = read_input(input, &mut text)?;
    Ok(print_file(&text[..length], layout, out))
}

// Writes the bytes until all are written, a write takes none of them or one fails. Answers how many were written.
fn write_bytes<W: Write>(output: &mut W, bytes: &[u8]) -> usize
    ensures counted { IsPrefixLen result bytes.now }
    ensures added { Appends (W.contents output.old) (W.contents output.new) (take result bytes.now) }
{
    let mut done = 0;
    while done < bytes.len() {
        let Ok(more) = output.write(&bytes[done..]) else {
            return done;
        };
        if more == 0 {
            return done;
        }
        done += more;
    }
    done
}

// Hands the first `count` bytes to the output. Answers whether all were written.
fn write_first<W: Write>(output: &mut W, bytes: &[u8], count: usize) -> bool
    requires { IsPrefixLen count bytes.now }
    ensures { AddsFirst result count bytes.now (W.contents output.old) (W.contents output.new) }
{
    write_bytes(output, &bytes[..count]) == count
}

// A line on standard error, after the program's name. What of it cannot be written is left out.
fn tell_failure<W: Write>(errors: &mut W, name: &[u8], what: &[u8])
    ensures { AddsParts name.now what.now (W.contents errors.old) (W.contents errors.new) }
{
    write_bytes(errors, name);
    write_bytes(errors, what);
}

// The program of that name, over its three streams. What it hands to the output it leaves at the start of `out`, and answers how many bytes that are;
// whether they were written is what the output says of it.
pub fn run<R: Read, W: Write, E: Write>(
    layout: Layout,
    name: &[u8],
    input: &mut R,
    output: &mut W,
    errors: &mut E,
    out: &mut PrintRoom,
) -> Result<usize, Failure>
    ensures handed { HandedOn layout result out.old out.new }

    // Where the bytes of the input, or those that an output holds, are known.
    ensures first { HandsFirst layout result (R.remaining input.old) out.old out.new }
    ensures written { WritesHanded W.contents result output.old output.new out.new }
    ensures printed { WritesPrint layout result (R.remaining input.old) (W.contents output.old)
        (W.contents output.new) }
    ensures told { TellsOf E.contents result name.now errors.old errors.new }
{
    let Ok(length) = print_input(input, layout, out) else {
        tell_failure(errors, name, b": standard input cannot be read\n");
        return Err(Failure::Unread);
    };
    if !write_first(output, out, length) {
        tell_failure(errors, name, b": standard output cannot be written\n");
        return Err(Failure::Unwritten(length));
    }
    Ok(length)
}
