use super::answer::LentAnswer;
use super::row::Row;
use super::spelling::append_number;
use super::streams::{Fault, NO_FAULT};
use super::texts::Texts;
use super::trial::{faults_of, wanted_at};
use list_base::{Bytes, NoMemory};
use std::alloc::Global;
use std::sync::Wait;
use std::thread::Threads;

/// How many rows and faults there were, how many of them were answered otherwise, and which; and the
/// section, the line and the row that are being read.
#[derive(Drop)]
pub(crate) struct Tally {
    rows: u64,
    faults: u64,
    wrong: u64,
    report: Bytes,
    section: Bytes,
    line: u64,
    row: Option<Row>,
}

impl Tally {
    /// Nothing was tried yet.
    pub(crate) fn new(alloc: Global) -> Tally {
        Tally {
            rows: 0,
            faults: 0,
            wrong: 0,
            report: Bytes::new(alloc),
            section: Bytes::new(alloc),
            line: 0,
            row: None,
        }
    }

    /// The report so far.
    pub(crate) fn report(&self) -> &[u8] {
        self.report.as_slice()
    }

    /// Takes all lines of a section. A line `$ NAME | PROGRAM ARGUMENTS` begins a row, the lines
    /// after it are the input, a line with the status ends the input, and the lines after that are
    /// the output. A line that begins with `# ` is passed over.
    pub(crate) fn take_section<H: Threads + Wait + Sync>(
        &mut self,
        rt: &H,
        alloc: Global,
        name: &[u8],
        texts: &Texts,
        rows: &[u8],
    ) -> Result<(), NoMemory> {
        self.section = Bytes::from_slice(alloc, name)?;
        self.line = 0;
        let lines = rows.strip_suffix(b"\n").unwrap_or(rows);
        for line in lines.split(|b| *b == b'\n') {
            self.line = self.line.saturating_add(1);
            self.take_line(rt, alloc, texts, line)?;
        }
        self.end_row(rt, alloc)
    }

    /// Takes a line of the rows.
    fn take_line<H: Threads + Wait + Sync>(
        &mut self,
        rt: &H,
        alloc: Global,
        texts: &Texts,
        line: &[u8],
    ) -> Result<(), NoMemory> {
        if line.starts_with(b"# ") {
            return Ok(());
        }
        match line.strip_prefix(b"$") {
            Some(head) => self.begin_row(rt, alloc, head),
            None => self.go_on(alloc, texts, line),
        }
    }

    /// Begins a row with this name and command, after the one before it.
    fn begin_row<H: Threads + Wait + Sync>(
        &mut self,
        rt: &H,
        alloc: Global,
        head: &[u8],
    ) -> Result<(), NoMemory> {
        self.end_row(rt, alloc)?;
        self.row = Some(Row::of(alloc, self.line, head)?);
        Ok(())
    }

    /// Gives the line to the row that is being read. A line before the first row is passed over.
    fn go_on(&mut self, alloc: Global, texts: &Texts, line: &[u8]) -> Result<(), NoMemory> {
        match &mut self.row {
            Some(row) => row.take_line(alloc, texts, line),
            None => Ok(()),
        }
    }

    /// Counts the row that was read, if there is one.
    fn end_row<H: Threads + Wait + Sync>(&mut self, rt: &H, alloc: Global) -> Result<(), NoMemory> {
        match self.row.take() {
            Some(row) => self.count(rt, alloc, &row),
            None => Ok(()),
        }
    }

    /// Counts the row and its faults. What is answered otherwise is reported.
    fn count<H: Threads + Wait + Sync>(
        &mut self,
        rt: &H,
        alloc: Global,
        row: &Row,
    ) -> Result<(), NoMemory> {
        self.rows = self.rows.saturating_add(1);
        let answer = row.answer(rt, alloc)?;
        self.compare(alloc, row, NO_FAULT, row.wanted(), answer.lent())?;
        for fault in faults_of(alloc, row)?.iter() {
            self.count_fault(rt, alloc, row, *fault)?;
        }
        Ok(())
    }

    /// Counts the fault.
    fn count_fault<H: Threads + Wait + Sync>(
        &mut self,
        rt: &H,
        alloc: Global,
        row: &Row,
        fault: Fault,
    ) -> Result<(), NoMemory> {
        self.faults = self.faults.saturating_add(1);
        let answer = row.answer_at(rt, alloc, fault)?;
        self.compare(alloc, row, fault, wanted_at(row, fault), answer.lent())
    }

    /// Reports the place and the name of the row, its command, the fault, what is wanted and what
    /// was found, if these two differ.
    fn compare(
        &mut self,
        alloc: Global,
        row: &Row,
        fault: Fault,
        wanted: LentAnswer<'_>,
        found: LentAnswer<'_>,
    ) -> Result<(), NoMemory> {
        if wanted.equals(found) {
            return Ok(());
        }
        self.wrong = self.wrong.saturating_add(1);
        self.report_row(alloc, row)?;
        fault.push_to(alloc, &mut self.report)?;
        self.report.append(b"wanted = ")?;
        wanted.push_to(&mut self.report)?;
        self.report.append(b"found = ")?;
        found.push_to(&mut self.report)
    }

    /// Reports the place and the name of the row, and its command.
    fn report_row(&mut self, alloc: Global, row: &Row) -> Result<(), NoMemory> {
        self.report.append(self.section.as_slice())?;
        self.report.push(b':')?;
        append_number(alloc, &mut self.report, row.line)?;
        self.report.append(b": answered otherwise: ")?;
        self.report.append(row.name.as_slice())?;
        self.report.append(b"\n$")?;
        self.report.append(row.command.as_slice())?;
        self.report.push(b'\n')
    }

    /// Reports how many rows and faults there were, and how many of them were answered otherwise.
    pub(crate) fn report_counts(&mut self, alloc: Global) -> Result<(), NoMemory> {
        append_number(alloc, &mut self.report, self.rows)?;
        self.report.append(b" rows and ")?;
        append_number(alloc, &mut self.report, self.faults)?;
        self.report.append(b" faults, ")?;
        append_number(alloc, &mut self.report, self.wrong)?;
        self.report.append(b" answered otherwise\n")
    }
}
