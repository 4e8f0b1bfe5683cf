// Lines in, lines out: nothing is held of a line but what its answer depends on, and nothing is allocated.
use crate::trouble::Trouble;
use calls::mind::Mind;
use device::filed::Filed;
use lines::hex::say;
use lines::input::each_piece;
use lines::reader::Reader;
use lines::reply::{ROOM, Reply};
use std::io;
use std::io::{ErrorKind, Write};
use together::herd::answer;

// The longest answer as text: a word and a space, two digits for each byte, a newline.
const TEXT: usize = 5 + 2 * ROOM;

// A line as it is read, whether it has begun, and the answer to it, as bytes and as text.
#[derive(Drop)]
struct Desk {
    reader: Reader,
    begun: bool,
    reply: Reply,
    text: [u8; TEXT],
}

// The line of text is at its end: it is answered, and what has changed is kept before the answer goes out, in one write.
fn reply(
    rt: &HostRuntime,
    words: &mut Filed,
    mind: &mut Mind,
    desk: &mut Desk,
) -> Result<(), Trouble> {
    answer(words, mind, desk.reader.finish(), &mut desk.reply)?;
    if let Some(n) = say(desk.reply.bytes(), &mut desk.text) {
        rt.stdout()
            .write_all(&desk.text[..n])
            .map_err(Trouble::Lines)?;
    }
    desk.reader.restart();
    desk.begun = false;
    Ok(())
}

// What came in one read.
fn feed(
    rt: &HostRuntime,
    words: &mut Filed,
    mind: &mut Mind,
    desk: &mut Desk,
    piece: &[u8],
) -> Result<(), Trouble> {
    for c in piece {
        if *c == b'\n' {
            reply(rt, words, mind, desk)?;
        } else {
            desk.reader.push(*c);
            desk.begun = true;
        }
    }
    Ok(())
}

// Answers every line to the end of standard input; the last one need not be ended.
pub fn serve(rt: &HostRuntime, words: &mut Filed, mind: &mut Mind) -> Result<(), Trouble> {
    let mut desk = Desk {
        reader: Reader::new(),
        begun: false,
        reply: Reply::new(),
        text: [0; TEXT],
    };
    // Why it stopped, where that is no error of reading: `each_piece` hands on none but those, and any stops it.
    let mut fed = Ok(());
    let read = each_piece(&mut rt.stdin(), |piece| {
        fed = feed(rt, words, mind, &mut desk, piece);
        fed.map_err(|_| io::Error::from(ErrorKind::Other))
    });
    fed?;
    read.map_err(Trouble::Lines)?;
    if desk.begun {
        reply(rt, words, mind, &mut desk)?;
    }
    Ok(())
}
