// Replays calls of the library from standard input, and writes what each one gives to standard output. The independent program under
// tests/second makes both files.
//
// A call is a header of 13 bytes, then the page, the pages, the file or the block, and the other buffer, as they are before the call:
//
//     byte 0         the entry: 0 encode word, 1 decode word, 2 fill word, 3 word capacity, 4 write first, 5 read first,
//                    6 page capacity, 7 write second, 8 read second, 9 write file, 10 fill page, 11 write Inspect, 12 read Inspect,
//                    13 read file, 14 place record, 15 collect block
//     bytes 1 to 8   the argument of a word entry, write file's device number, or the marks of a block
//     bytes 9, 10    the length of the page, the pages, the file or the block, at most 4,352, a block and a page
//     bytes 11, 12   the length of the other buffer (data, output, record or target), at most 4,352
//
// with the high byte of each number first. Its line is the call's index from 0, the entry, the refusal's number (0 for none) and the result
// or the refusal's index, in decimal; for an entry that may write a buffer, what the buffer holds afterwards, in hexadecimal.
#![tactic(auto)]

use std::io;

// Reads a whole buffer from standard input; whether there was enough.
fn read_whole(rt: &HostRuntime, buffer: &mut [u8]) -> bool {
    streams::read_full(&mut rt.stdin(), buffer) == buffer.len()
}

// A number's 32 low bits.
fn low_half(argument: u64) -> u32 {
    (argument % 4294967296) as u32
}

// A number's 16 low bits.
fn low_quarter(argument: u64) -> u16 {
    (argument % 65536) as u16
}

// The answer of a word entry.
fn answer_word(entry: u8, argument: u64) -> u64 {
    match entry {
        0 => wom::wom_encode_word(low_half(argument)),
        1 => wom::wom_decode_word(argument),
        2 => wom::wom_fill_word(argument),
        _ => wom::wom_word_capacity(argument),
    }
}

// The answer of an entry on a page, pages, a file or a block, and the buffer that it may have written.
fn answer_page<'a>(
    entry: u8,
    argument: u64,
    page: &'a mut [u8],
    other: &'a mut [u8],
) -> (u64, Option<&'a [u8]>) {
    match entry {
        4 => (wom::wom_write_first(page, other), Some(page)),
        5 => (wom::wom_read_first(page, other), Some(other)),
        6 => (wom::wom_page_capacity(page), None),
        7 => (wom::wom_write_second(page, other), Some(page)),
        8 => (wom::wom_read_second(page, other), Some(other)),
        9 => (
            wom::wom_write_file(low_half(argument), page, other),
            Some(other),
        ),
        10 => (wom::wom_fill_page(page), Some(page)),
        11 => (wom::wom_write_inspect(page, other), Some(page)),
        12 => (wom::wom_read_inspect(page, other), Some(other)),
        13 => (wom::wom_read_file(page, other), Some(other)),
        14 => (
            wom::wom_place_record(page, low_quarter(argument), other),
            Some(page),
        ),
        _ => (
            wom::wom_collect_block(page, low_quarter(argument), other),
            Some(other),
        ),
    }
}

// Writes the numbers of a call's line.
fn tell_answer(rt: &HostRuntime, index: u32, entry: u8, answer: u64) -> io::Result<()> {
    let refusal = answer >> 56;
    let value = answer % 72057594037927936;
    print!(rt; "{index} {entry} {refusal} {value}")
}

// Writes a space and a buffer in hexadecimal.
fn tell_bytes(rt: &HostRuntime, buffer: &[u8]) -> io::Result<()> {
    print!(rt; " ")?;
    for b in buffer {
        print!(rt; "{b:02x}")?;
    }
    Ok(())
}

// Reads the buffers of an entry on a page, pages, a file or a block, makes the call and writes its line but for the end; whether they were
// there.
fn replay_page(
    rt: &HostRuntime,
    index: u32,
    entry: u8,
    argument: u64,
    page: &mut [u8],
    other: &mut [u8],
) -> io::Result<bool> {
    if !read_whole(rt, page) || !read_whole(rt, other) {
        return Ok(false);
    }
    let (answer, written) = answer_page(entry, argument, page, other);
    tell_answer(rt, index, entry, answer)?;
    if let Some(buffer) = written {
        tell_bytes(rt, buffer)?;
    }
    Ok(true)
}

// Makes one call by its header and writes its line; whether it is one.
fn replay(rt: &HostRuntime, index: u32, header: &[u8; 13]) -> io::Result<bool> {
    let entry = header[0];
    let argument = (cells::four_bytes(header, 1) << 32) | cells::four_bytes(header, 5);
    if entry < 4 {
        tell_answer(rt, index, entry, answer_word(entry, argument))?;
        return Ok(true);
    }
    if 15 < entry {
        return Ok(false);
    }
    let lengths = cells::four_bytes(header, 9);
    let n = lengths / 65536;
    let m = lengths % 65536;
    if 4352 < n || 4352 < m {
        return Ok(false);
    }
    let mut page: [u8; 4352] = [0; 4352];
    let mut other: [u8; 4352] = [0; 4352];
    replay_page(
        rt,
        index,
        entry,
        argument,
        &mut page[..n as usize],
        &mut other[..m as usize],
    )
}

// Reads the header of a call and replays it; whether there was one.
fn replay_next(rt: &HostRuntime, index: u32) -> io::Result<bool> {
    let mut header: [u8; 13] = [0; 13];
    if !read_whole(rt, &mut header) {
        return Ok(false);
    }
    if !replay(rt, index, &header)? {
        return Ok(false);
    }
    println!(rt; "")?;
    Ok(true)
}

fn main(rt: HostRuntime) -> io::Result<()> {
    for index in 0..65536 {
        if !replay_next(&rt, index)? {
            break;
        }
    }
    Ok(())
}
