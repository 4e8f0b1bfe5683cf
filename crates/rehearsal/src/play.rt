// A command is played.
use crate::check::put_check;
use crate::show::put_all;
use crate::stage::{Stage, Voice};
use script::bad::Bad;
use script::command::{Command, Fate, Lines};
use std::alloc::AllocError;

impl Stage {
    fn set_lines(&mut self, lines: Lines) -> Result<(), AllocError> {
        self.post.set_lines(lines);
        match lines {
            Lines::Good => self.said.push_str("lines good\n"),
            Lines::Bad => self.said.push_str("lines bad\n"),
        }
    }

    fn set_hex(&mut self, hex: bool) -> Result<(), AllocError> {
        self.hex = hex;
        self.said
            .push_str(if hex { "hex on\n" } else { "hex off\n" })
    }

    fn put_letters(&mut self) -> Result<(), AllocError> {
        for (i, letter) in self.post.letters().iter().enumerate() {
            writeln!(
                self.said,
                "letter {}: {}",
                i.saturating_add(1),
                letter.about
            )?;
        }
        if self.post.letters().is_empty() {
            self.said.push_str("letters: none\n")?;
        }
        Ok(())
    }

    // One letter is handed over, lost or doubled.
    fn pick(&mut self, fate: Fate, k: u64) -> Result<(), Bad> {
        let place = self.post.place(k).ok_or(Bad::NoLetter(k))?;
        let found = match fate {
            Fate::Double => self.post.copy(self.heap, place)?,
            Fate::Hand | Fate::Lose => self.post.take(place),
        };
        let letter = found.ok_or(Bad::NoLetter(k))?;
        match fate {
            Fate::Hand => self.hand(letter, Voice::Loud)?,
            Fate::Lose => writeln!(self.said, "lose {k}: {}", letter.about)?,
            Fate::Double => {
                writeln!(self.said, "double {k}: {}", letter.about)?;
                self.post.put(letter)?;
            }
        }
        Ok(())
    }

    fn look(&mut self) -> Result<(), AllocError> {
        let letters = self.post.letters().len();
        put_all(&mut self.said, self.herd.mind(), &self.machines, letters)
    }

    fn check(&mut self) -> Result<(), AllocError> {
        let well = put_check(
            &mut self.said,
            self.herd.mind(),
            &self.machines,
            &self.mosts,
        )?;
        if !well {
            self.failed = true;
        }
        Ok(())
    }

    // A line begins: nothing is said, and no check has failed.
    pub fn begin(&mut self) {
        self.said.clear();
        self.failed = false;
    }

    pub fn said(&self) -> &str {
        self.said.as_str()
    }

    // Did a check fail, or was the line none.
    pub fn failed(&self) -> bool {
        self.failed
    }

    // The line is not done.
    pub fn refuse(&mut self, number: u64, why: Bad) -> Result<(), AllocError> {
        self.failed = true;
        writeln!(self.said, "bad line {number}: {why}")
    }

    pub fn obey(&mut self, command: Command) -> Result<(), Bad> {
        match command {
            Command::Say(saying) => self.say(&saying)?,
            Command::Report(machine) => self.report_of(machine)?,
            Command::Ready(task) => self.ready(task)?,
            Command::Dies(task) => self.dies(task)?,
            Command::Fall(machine) => self.fall(machine)?,
            Command::Lines(lines) => self.set_lines(lines)?,
            Command::Seed(seed) => {
                self.post.seed(seed);
                writeln!(self.said, "seed {seed}")?;
            }
            Command::Deliver => self.deliver(Voice::Loud)?,
            Command::Letters => self.put_letters()?,
            Command::Pick(fate, k) => self.pick(fate, k)?,
            Command::Dark(stores) => {
                self.herd.fail_after(stores);
                writeln!(self.said, "dark after {stores} stores")?;
            }
            Command::Stores => {
                let stores = self.herd.take_stores();
                writeln!(self.said, "stores: {stores}")?;
            }
            Command::Rounds(times, ms) => self.rounds(times, ms)?,
            Command::Settle(ms) => self.settle(ms)?,
            Command::Hex(hex) => self.set_hex(hex)?,
            Command::ShowAll => self.look()?,
            Command::Check => self.check()?,
        }
        Ok(())
    }
}
