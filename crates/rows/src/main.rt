// Rows of document 01, each a line `NAME OPERATION NUMBER.. xBYTES`. The first line names the operations, in the order of `operation::IN_ORDER`.
// An operation is a C function, a part of a packet, or a form that lends records or holds its bytes; the program writes NAME, the answer's numbers and
// the bytes.
#![tactic(auto)]

mod answer;
mod forms;
mod operation;
mod print;
mod read;
mod receive;
mod row;
mod write;

use operation::Operation;
use row::{Row, is_blank};
use std::alloc::Global;
use std::io;
use std::io::{Read, Write};
use write::Request;

// The most bytes that a buffer has.
const ROOM: usize = 524288;

// The place of a word among the names; how many there are where it is none of them, which no operation has.
fn place_of(word: &[u8], names: &[u8]) -> usize {
    names
        .split_inclusive(is_blank)
        .take_while(|name| name.strip_suffix(b" ").unwrap_or(name) != word)
        .count()
}

// Writes the row's name, takes what the row gives, and says which operation it asks for.
fn asked(to: &mut Vec<u8>, names: &[u8], line: &[u8], row: &mut Row) -> io::Result<usize> {
    let mut words = line.splitn(3, is_blank);
    to.write_all(words.next().unwrap_or_default())?;
    to.write_all(b":")?;
    let place = place_of(words.next().unwrap_or_default(), names);
    row.read(words.next().unwrap_or_default())?;
    Ok(place)
}

fn run(operation: Operation, request: Request) -> io::Result<()> {
    let row = request.row;
    match operation {
        Operation::Read(reading) => read::row(request.to, reading, row),
        Operation::Part(part) => read::part(request.to, part, row.bytes()),
        Operation::Walk(walking) => forms::walk(request.to, walking, row),
        Operation::Write(writing) => request.write(writing),
        Operation::Receive(receiving) => receive::row(request.to, receiving, row),
    }
}

// Answers what the place asks for, if it is an operation's.
fn answer_at(place: usize, request: Request) -> io::Result<()> {
    match Operation::try_from(place) {
        Ok(operation) => run(operation, request),
        Err(e) => write!(request.to, " {e}"),
    }
}

// So much room as a row names, of what there is.
fn buffer(space: &mut [u8], room: u64) -> &mut [u8] {
    let end = (room as usize).min(space.len());
    &mut space[..end]
}

// The answers to the rows behind the first line.
fn answers(alloc: Global, text: &[u8]) -> io::Result<Vec<u8>> {
    let mut to = Vec::new(alloc);
    let mut row = Row::new(alloc)?;
    let mut writer = [0u64; 4];
    let mut space = vec![in alloc; 0u8; ROOM]?;
    let mut lines = text
        .split_inclusive(|byte| *byte == b'\n')
        .map(|line| line.strip_suffix(b"\n").unwrap_or(line));
    let names = lines.next().unwrap_or_default();
    for line in lines {
        let place = asked(&mut to, names, line, &mut row)?;
        let request = Request {
            row: &row,
            to: &mut to,
            writer: &mut writer,
            buf: buffer(&mut space, row.number(0)),
        };
        answer_at(place, request)?;
        to.write_all(b"\n")?;
    }
    Ok(to)
}

fn main(rt: HostRuntime) -> io::Result<()> {
    let mut text = Vec::new(rt.alloc());
    rt.reader().read_to_end(&mut text)?;
    let answers = answers(rt.alloc(), &text)?;
    io::writer(&rt).write_all(&answers)
}
