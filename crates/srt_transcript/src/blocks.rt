//! The words of a conclusion's extension blocks (draft-sharabayko-srt-01, section 3.2.1), also of those that are malformed.

use crate::text::Words;
use srt_types::protocol_limits::MAX_DATAGRAM;
use srt_types::read_word;

/// The names of the low eight flags of an HSREQ (section 3.2.1.1.1), the lowest bit first.
const FLAGS: [&[u8]; 8] = [
    b"TSBPDSND",
    b"TSBPDRCV",
    b"CRYPT",
    b"TLPKTDROP",
    b"PERIODICNAK",
    b"REXMITFLG",
    b"STREAM",
    b"PACKET_FILTER",
];

/// An extension block.
#[derive(Clone, Copy)]
struct Block<'a> {
    kind: u16,
    /// Its content; None if fewer bytes are left than it states.
    content: Option<&'a [u8]>,
    /// The bytes after it.
    rest: &'a [u8],
}

/// The first block of these bytes; None if they are fewer than 4.
fn first_block(bytes: &[u8]) -> Option<Block<'_>> {
    if bytes.len() < 4 {
        return None;
    }
    let kind = u16::from_be_bytes([bytes[0], bytes[1]]);
    let len = 4 * usize::from(u16::from_be_bytes([bytes[2], bytes[3]]));
    let after = &bytes[4..];
    if len > after.len() {
        return Some(Block {
            kind,
            content: None,
            rest: &[],
        });
    }
    Some(Block {
        kind,
        content: Some(&after[..len]),
        rest: &after[len..],
    })
}

/// Puts the name of a block's type.
fn put_name(words: &mut Words, kind: u16) {
    match kind {
        1 => words.put(b"HSREQ"),
        2 => words.put(b"HSRSP"),
        3 => words.put(b"KMREQ"),
        4 => words.put(b"KMRSP"),
        5 => words.put(b"Stream ID"),
        6 => words.put(b"congestion"),
        7 => words.put(b"packet filter"),
        8 => words.put(b"group"),
        _ => {
            words.put(b"block ");
            words.put_number(u64::from(kind));
        }
    }
}

/// Puts the flags of an HSREQ: the low eight by name, any others as a hexadecimal number.
fn put_flags(words: &mut Words, flags: u32) {
    if flags == 0 {
        words.put(b"no flags");
        return;
    }
    let mut rest = flags;
    let mut is_first = true;
    for name in &FLAGS {
        if rest % 2 == 1 {
            if !is_first {
                words.put(b" ");
            }
            words.put(name);
            is_first = false;
        }
        rest /= 2;
    }
    if flags > 0xff {
        if !is_first {
            words.put(b" ");
        }
        words.put_short_hex(flags - flags % 0x100);
    }
}

/// Puts a version of SRT: three numbers.
fn put_version(words: &mut Words, version: u32) {
    words.put_word(version / 0x1_0000 % 0x100);
    words.put(b".");
    words.put_word(version / 0x100 % 0x100);
    words.put(b".");
    words.put_word(version % 0x100);
}

/// Puts the content of an HSREQ or HSRSP block: 12 bytes.
fn put_hsreq(words: &mut Words, content: &[u8]) {
    if content.len() != 12 {
        return;
    }
    words.put(b" SRT ");
    put_version(words, read_word(content, 0));
    words.put(b" (");
    put_flags(words, read_word(content, 4));
    words.put(b") receiver ");
    let delays = read_word(content, 8);
    words.put_word(delays / 0x1_0000);
    words.put(b" ms sender ");
    words.put_word(delays % 0x1_0000);
    words.put(b" ms");
}

/// Writes the bytes of a text block to the front of `out`, each group of four in reverse order. Returns the number of bytes
/// before the zeros at the end.
fn turned_text(content: &[u8], out: &mut [u8; MAX_DATAGRAM]) -> usize {
    let mut end = 0;
    for at in 0..content.len() / 4 {
        for place in 0..4 {
            let byte = content[4 * at + 3 - place];
            let index = 4 * at + place;
            if index < MAX_DATAGRAM {
                out[index] = byte;
                if byte != 0 {
                    end = index + 1;
                }
            }
        }
    }
    end
}

/// Puts the text of a Stream ID or congestion block.
fn put_text(words: &mut Words, content: &[u8]) {
    let mut text = [0; MAX_DATAGRAM];
    let end = turned_text(content, &mut text);
    words.put(b" ");
    words.put_shown(crate::text::front(&text, end));
}

/// Puts a block with its content.
fn put_content(words: &mut Words, kind: u16, content: &[u8]) {
    put_name(words, kind);
    match kind {
        1 | 2 if content.len() == 12 => put_hsreq(words, content),
        5 | 6 => put_text(words, content),
        _ => {
            words.put(b" of ");
            words.put_size(content.len());
        }
    }
}

fn put_block(words: &mut Words, block: &Block<'_>) {
    words.put(b", ");
    match block.content {
        Some(content) => put_content(words, block.kind, content),
        None => {
            words.put(b"block ");
            words.put_number(u64::from(block.kind));
            words.put(b" cut short");
        }
    }
}

/// Puts the blocks of these bytes, each after a comma, and the number of bytes that are left over.
pub(crate) fn put_blocks(words: &mut Words, bytes: &[u8]) {
    let mut rest = bytes;
    for _ in 0..bytes.len() / 4 {
        let Some(block) = first_block(rest) else {
            break;
        };
        put_block(words, &block);
        rest = block.rest;
    }
    if !rest.is_empty() {
        words.put(b", ");
        words.put_size(rest.len());
        words.put(b" left over");
    }
}
