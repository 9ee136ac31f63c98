use crate::case::Case;
use crate::text::{plain_string, push_plain, push_repeated};
use std::alloc::Global;
use std::mem;
use vba_base::OrMemory;

/// What the lines of a text belong to.
#[derive(Drop)]
enum Section {
    /// No case is open.
    Outside,
    /// A line stands in front that has no text.
    Head,
    File(String),
    Out,
    Err,
    After(String),
}

/// The case that is being read.
#[derive(Drop)]
pub struct CaseReader {
    alloc: Global,
    case: Case,
    section: Section,
    text: Vec<u8>,
}

impl CaseReader {
    /// No line was read.
    pub fn new(alloc: Global) -> CaseReader {
        CaseReader {
            alloc,
            case: Case::new(alloc),
            section: Section::Outside,
            text: Vec::new(alloc),
        }
    }

    /// The case that was read last.
    pub fn case(&self) -> &Case {
        &self.case
    }

    /// Whether the case that was read last lacks its end.
    pub fn is_open(&self) -> bool {
        !matches!(self.section, Section::Outside)
    }

    /// Takes the next line. Does it end a case? Where it is of no form, the answer says what is wrong.
    pub fn take_line(&mut self, line: &str) -> Result<bool, OrMemory<&'static str>> {
        if let Some(text) = line.strip_prefix('|') {
            self.take_text(text)?;
            self.text.push(b'\n')?;
            return Ok(false);
        }
        if let Some(text) = line.strip_prefix('+') {
            self.take_text(text)?;
            return Ok(false);
        }
        let (word, rest) = line.split_once(' ').unwrap_or((line, ""));
        match word {
            "repeat" => self.take_repeated(rest)?,
            "end" => return self.take_end(rest),
            _ => self.take_head(word, rest)?,
        }
        Ok(false)
    }

    // Takes a line behind its mark.
    fn take_text(&mut self, text: &str) -> Result<(), OrMemory<&'static str>> {
        if matches!(self.section, Section::Outside | Section::Head) {
            return Err(OrMemory::Fault("no text may stand here"));
        }
        push_plain(text, &mut self.text)
    }

    // Takes `repeat N TEXT` behind its word.
    fn take_repeated(&mut self, rest: &str) -> Result<(), OrMemory<&'static str>> {
        if matches!(self.section, Section::Outside | Section::Head) {
            return Err(OrMemory::Fault("no text may stand here"));
        }
        let Some((times, text)) = rest.split_once(' ') else {
            return Err(OrMemory::Fault("repeat wants a number and a text"));
        };
        let Ok(times) = times.parse::<u32>() else {
            return Err(OrMemory::Fault("no number"));
        };
        let mut once = Vec::new(self.alloc);
        push_plain(text, &mut once)?;
        Ok(push_repeated(once.as_slice(), times, &mut self.text)?)
    }

    // Takes `end`.
    fn take_end(&mut self, rest: &str) -> Result<bool, OrMemory<&'static str>> {
        if !self.is_open() || !rest.is_empty() {
            return Err(OrMemory::Fault("no end may stand here"));
        }
        self.close_text()?;
        self.section = Section::Outside;
        Ok(true)
    }

    // Takes any other line: a word and what stands behind it.
    fn take_head(&mut self, word: &str, rest: &str) -> Result<(), OrMemory<&'static str>> {
        if !self.is_open() {
            return self.take_between(word, rest);
        }
        self.close_text()?;
        match word {
            "words" => self.take_words(rest)?,
            "status" => self.take_status(rest)?,
            "file" => self.section = Section::File(plain_string(self.alloc, rest)?),
            "after" => self.section = Section::After(plain_string(self.alloc, rest)?),
            "out" if rest.is_empty() => self.section = Section::Out,
            "err" if rest.is_empty() => self.section = Section::Err,
            _ => return Err(OrMemory::Fault("no such line")),
        }
        Ok(())
    }

    // Takes a line between cases.
    fn take_between(&mut self, word: &str, rest: &str) -> Result<(), OrMemory<&'static str>> {
        if word == "case" {
            self.case = Case::named(self.alloc, rest)?;
            self.section = Section::Head;
        } else if !word.is_empty() && !word.starts_with('#') {
            return Err(OrMemory::Fault("no case is open"));
        }
        Ok(())
    }

    // Takes `words WORD ..` behind its word.
    fn take_words(&mut self, rest: &str) -> Result<(), OrMemory<&'static str>> {
        if rest.is_empty() {
            return Ok(());
        }
        for word in rest.split(' ') {
            self.case.words.push(plain_string(self.alloc, word)?)?;
        }
        Ok(())
    }

    // Takes `status N` behind its word.
    fn take_status(&mut self, rest: &str) -> Result<(), OrMemory<&'static str>> {
        match rest.parse::<u8>() {
            Ok(status) => self.case.status = status,
            Err(_) => return Err(OrMemory::Fault("no status")),
        }
        Ok(())
    }

    // Gives the text that was read to what it belongs to.
    fn close_text(&mut self) -> Result<(), OrMemory<&'static str>> {
        let text = mem::replace(&mut self.text, Vec::new(self.alloc));
        match mem::replace(&mut self.section, Section::Head) {
            Section::Outside | Section::Head => {}
            Section::File(name) => self.case.files.push((name, text))?,
            Section::Out => self.case.out = text,
            Section::Err => self.case.err = text,
            Section::After(name) => self.case.after.push((name, text))?,
        }
        Ok(())
    }
}
