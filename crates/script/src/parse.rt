// A line as a command.
use crate::bad::Bad;
use crate::command::{Adding, Command, Fate, Lines, Saying, Setting};
use crate::numbers::{long, machine, middle, short, tags, task};
use crate::usage::usage;
use std::alloc::Global;

// The longest name that a call has room for.
const LONGEST: usize = 255;

fn name(word: &str) -> Option<&str> {
    if word.len() > LONGEST {
        return None;
    }
    Some(word)
}

// What stands behind the numbers: tags, apart, both or none.
fn extras<'a>(heap: Global, words: &[&'a str]) -> Result<Option<(Vec<u8>, bool)>, Bad> {
    let (list, rest) = match words {
        ["tags", list, rest @ ..] => (tags(heap, list)?, rest),
        _ => (Some(Vec::new(heap)), words),
    };
    let apart = match rest {
        [] => false,
        ["apart"] => true,
        _ => return Ok(None),
    };
    Ok(list.map(|list| (list, apart)))
}

// A job to be set, by the words behind `set`.
fn setting<'a>(heap: Global, words: &[&'a str]) -> Result<Option<Setting<'a>>, Bad> {
    let [
        first,
        "image",
        image,
        "cpu",
        cpu,
        "memory",
        mem,
        "count",
        count,
        "least",
        least,
        "most",
        most,
        rest @ ..,
    ] = words
    else {
        return Ok(None);
    };
    let Some((tags, apart)) = extras(heap, rest)? else {
        return Ok(None);
    };
    Ok(job(first, [image, cpu, mem], [count, least, most], tags, apart))
}

fn job<'a>(
    first: &'a str,
    [image, cpu, mem]: [&str; 3],
    [count, least, most]: [&str; 3],
    tags: Vec<u8>,
    apart: bool,
) -> Option<Setting<'a>> {
    Some(Setting {
        name: name(first)?,
        image: middle(image)?,
        cpu: middle(cpu)?,
        mem: middle(mem)?,
        count: short(count)?,
        least: short(least)?,
        most: short(most)?,
        tags,
        apart,
    })
}

// A machine to be added, by the words behind `add`.
fn adding(heap: Global, words: &[&str]) -> Result<Option<Adding>, Bad> {
    let [number, "cpu", cpu, "memory", mem, rest @ ..] = words else {
        return Ok(None);
    };
    let Some((tags, false)) = extras(heap, rest)? else {
        return Ok(None);
    };
    let (Some(machine), Some(cpu), Some(mem)) = (machine(number), middle(cpu), middle(mem)) else {
        return Ok(None);
    };
    Ok(Some(Adding {
        machine,
        cpu,
        mem,
        tags,
    }))
}

// What people and the clock say in few words.
fn saying<'a>(words: &[&'a str]) -> Option<Saying<'a>> {
    match words {
        ["end", job] => Some(Saying::End(name(job)?)),
        ["close", number] => Some(Saying::Close(machine(number)?)),
        ["reopen", number] => Some(Saying::Reopen(machine(number)?)),
        ["forget", number] => Some(Saying::Forget(machine(number)?)),
        ["time", ms] => Some(Saying::Time(long(ms)?)),
        ["show", job] => Some(Saying::Show(name(job)?)),
        _ => None,
    }
}

// What happens to letters.
fn picking<'a>(words: &[&str]) -> Option<Command<'a>> {
    let [fate, place] = words else {
        return None;
    };
    let fate = match *fate {
        "hand" => Fate::Hand,
        "lose" => Fate::Lose,
        "double" => Fate::Double,
        _ => return None,
    };
    Some(Command::Pick(fate, long(place)?))
}

// What machines, lines and the dark do, and what is looked at.
fn doing<'a>(words: &[&str]) -> Option<Command<'a>> {
    match words {
        ["report", number] => Some(Command::Report(machine(number)?)),
        ["ready", number] => Some(Command::Ready(task(number)?)),
        ["dies", number] => Some(Command::Dies(task(number)?)),
        ["fall", number] => Some(Command::Fall(machine(number)?)),
        ["lines", "good"] => Some(Command::Lines(Lines::Good)),
        ["lines", "bad"] => Some(Command::Lines(Lines::Bad)),
        ["seed", seed] => Some(Command::Seed(long(seed)?)),
        ["deliver"] => Some(Command::Deliver),
        ["letters"] => Some(Command::Letters),
        ["dark", stores] => Some(Command::Dark(long(stores)?)),
        ["stores"] => Some(Command::Stores),
        ["rounds", times, ms] => Some(Command::Rounds(short(times)?, long(ms)?)),
        ["settle", ms] => Some(Command::Settle(long(ms)?)),
        ["hex", "on"] => Some(Command::Hex(true)),
        ["hex", "off"] => Some(Command::Hex(false)),
        ["show"] => Some(Command::ShowAll),
        ["check"] => Some(Command::Check),
        _ => picking(words),
    }
}

// What these words say, if they are of the form that their first one has.
fn formed<'a>(heap: Global, words: &[&'a str]) -> Result<Option<Command<'a>>, Bad> {
    match words {
        ["set", rest @ ..] => Ok(setting(heap, rest)?.map(|job| Command::Say(Saying::Set(job)))),
        ["add", rest @ ..] => Ok(adding(heap, rest)?.map(|machine| Command::Say(Saying::Add(
            machine,
        )))),
        _ => match saying(words) {
            Some(said) => Ok(Some(Command::Say(said))),
            None => Ok(doing(words)),
        },
    }
}

// Printable ASCII, and what parts words.
fn is_plain(c: u8) -> bool {
    c.is_ascii_graphic() || c == b' ' || c == b'\t' || c == b'\r'
}

// The line without its comment, if it has none but plain characters.
fn plain(line: &[u8]) -> Option<&str> {
    if !line.iter().all(|c| is_plain(*c)) {
        return None;
    }
    let text = str::from_utf8(line).ok()?;
    match text.split_once('#') {
        Some((before, _)) => Some(before),
        None => Some(text),
    }
}

// What a line says; nothing where it has no words.
pub fn parse(heap: Global, line: &[u8]) -> Result<Option<Command<'_>>, Bad> {
    let text = plain(line).ok_or(Bad::NotAscii)?;
    let words: Vec<&str> = text.split_ascii_whitespace().collect(heap)?;
    let Some(first) = words.first() else {
        return Ok(None);
    };
    let usage = usage(first).ok_or(Bad::NoCommand)?;
    let said = formed(heap, words.as_slice())?;
    Ok(Some(said.ok_or(Bad::Say(usage))?))
}
