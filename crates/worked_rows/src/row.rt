use super::answer::{Answer, LentAnswer, answer_at, answer_to};
use super::evidence::without_evidence;
use super::spelling::append_line;
use super::streams::{Fault, calls_of};
use super::texts::{Texts, text_asked};
use list_base::{Bytes, NoMemory};
use std::alloc::Global;
use std::sync::Wait;
use std::thread::Threads;
use text_lines::split_once;

/// What is tried of a row.
#[derive(Clone, Copy)]
enum Trial {
    /// The answer, as it stands.
    Answer,
    /// The answer; the evidence of its verdicts is tried in place of being wanted as it stands.
    Evidence,
    /// The answer, and a fault at each read of the input and at each write.
    Faults,
    /// The answer, and a fault at each write. Nothing is read.
    WriteFaults,
}

/// A command and an input, with the answer that is wanted; and a name, and the line where the row
/// begins.
#[derive(Drop)]
pub(crate) struct Row {
    pub name: Bytes,
    pub line: u64,
    pub command: Bytes,
    input: Bytes,
    /// Known from the end of the input on.
    trial: Option<Trial>,
    wanted: Answer,
}

impl Row {
    /// A row that begins at the line with `NAME | COMMAND`, a program's name and its arguments.
    pub(crate) fn of(alloc: Global, line: u64, head: &[u8]) -> Result<Row, NoMemory> {
        let (name, command) = split_once(head, b'|');
        Ok(Row {
            name: Bytes::from_slice(alloc, name.trim_ascii())?,
            line,
            command: Bytes::from_slice(alloc, command.unwrap_or(b""))?,
            input: Bytes::new(alloc),
            trial: None,
            wanted: Answer {
                status: Bytes::new(alloc),
                output: Bytes::new(alloc),
            },
        })
    }

    /// Takes a line: the one with the status, which ends the input, or one of the input or the
    /// output.
    pub(crate) fn take_line(
        &mut self,
        alloc: Global,
        texts: &Texts,
        line: &[u8],
    ) -> Result<(), NoMemory> {
        match line {
            [b'=', b' ', status @ ..] => self.want(Trial::Answer, status),
            [b'~', b' ', status @ ..] => self.want(Trial::Evidence, status),
            [b'!', b' ', status @ ..] => self.want(Trial::Faults, status),
            [b'-', b' ', status @ ..] => self.want(Trial::WriteFaults, status),
            _ => self.push_line(alloc, texts, line),
        }
    }

    /// Ends the input with the status that is wanted.
    fn want(&mut self, trial: Trial, status: &[u8]) -> Result<(), NoMemory> {
        self.trial = Some(trial);
        self.wanted.status.append(status)
    }

    /// Puts a line, or the text of a file that it stands for, to the input, or to the output once the
    /// status is known.
    fn push_line(&mut self, alloc: Global, texts: &Texts, line: &[u8]) -> Result<(), NoMemory> {
        let taken = if self.trial.is_some() {
            &mut self.wanted.output
        } else {
            &mut self.input
        };
        match text_asked(line) {
            Some((name, true)) => taken.append(texts.find(name).unwrap_or(b"no such text\n")),
            Some((name, false)) => taken.append(without_end(texts.find(name).unwrap_or(b""))),
            None => append_line(alloc, taken, line),
        }
    }

    /// What the program gives for the command and the input.
    pub(crate) fn answer<H: Threads + Wait + Sync>(
        &self,
        rt: &H,
        alloc: Global,
    ) -> Result<Answer, NoMemory> {
        let input = self.input.as_slice();
        let answer = answer_to(rt, alloc, self.command.as_slice(), input)?;
        let Some(Trial::Evidence) = self.trial else {
            return Ok(answer);
        };
        Ok(Answer {
            output: without_evidence(rt, alloc, input, answer.output.as_slice())?,
            status: answer.status,
        })
    }

    /// What the program gives for them at a fault.
    pub(crate) fn answer_at<H: Threads + Wait + Sync>(
        &self,
        rt: &H,
        alloc: Global,
        fault: Fault,
    ) -> Result<Answer, NoMemory> {
        answer_at(
            rt,
            alloc,
            fault,
            self.command.as_slice(),
            self.input.as_slice(),
        )
    }

    /// The answer that is wanted without a fault. Before the status is known no answer has it.
    pub(crate) fn wanted(&self) -> LentAnswer<'_> {
        self.wanted.lent()
    }

    /// How many reads, each of at most `piece` bytes, take the input and find its end, if the row is
    /// tried with faults.
    pub(crate) fn reads(&self, piece: usize) -> Option<u32> {
        match self.trial {
            Some(Trial::Faults) => Some(calls_of(self.input.len(), piece).saturating_add(1)),
            Some(Trial::WriteFaults) => Some(0),
            _ => None,
        }
    }
}

/// The text without its last line end.
fn without_end(text: &[u8]) -> &[u8] {
    text.strip_suffix(b"\n").unwrap_or(text)
}
