use std::alloc::Global;
use std::mem::replace;
use sv_value::{NoMemory, put_int};

/// A command on a document, and what is wanted of it.
#[derive(Drop)]
pub struct Case {
    pub document: Vec<u8>,
    pub command: String,
    /// Lines, each with its line feed.
    pub wanted: Vec<u8>,
}

/// The cases of lines that are taken one after the other, and what is told of them.
#[derive(Drop)]
pub struct Cases {
    alloc: Global,
    front: Vec<u8>,
    back: Vec<u8>,
    /// The lines of the document that came.
    document: Vec<u8>,
    /// The command, once its line came.
    command: Option<String>,
    /// The wanted lines that came.
    wanted: Vec<u8>,
    /// How many cases were judged, and how many of them came out otherwise.
    judged: u32,
    others: u32,
    /// Those that came out otherwise, each with what was found.
    told: Vec<u8>,
}

fn put(out: &mut Vec<u8>, bytes: &[u8]) -> Result<(), NoMemory> {
    out.extend_from_slice(bytes)?;
    Ok(())
}

fn put_line(out: &mut Vec<u8>, line: &[u8]) -> Result<(), NoMemory> {
    put(out, line)?;
    put(out, b"\n")
}

/// The bytes without the last one, which is the line feed of the last line.
fn without_last(bytes: &[u8]) -> &[u8] {
    match bytes {
        [front @ .., _] => front,
        [] => bytes,
    }
}

impl Cases {
    /// No lines yet.
    pub fn new(alloc: Global) -> Cases {
        Cases {
            alloc,
            front: Vec::new(alloc),
            back: Vec::new(alloc),
            document: Vec::new(alloc),
            command: None,
            wanted: Vec::new(alloc),
            judged: 0,
            others: 0,
            told: Vec::new(alloc),
        }
    }

    /// Takes the next line, without its line feed, and answers the case that it ends.
    pub fn take(&mut self, line: &str) -> Result<Option<Case>, NoMemory> {
        let is_end = line.starts_with("===");
        match replace(&mut self.command, None) {
            Some(command) if is_end => Ok(Some(self.case_of(command)?)),
            Some(command) => {
                self.command = Some(command);
                put_line(&mut self.wanted, line.as_bytes())?;
                Ok(None)
            }
            None => {
                if !is_end {
                    self.before_command(line)?;
                }
                Ok(None)
            }
        }
    }

    /// Takes a line of a document, or the line of its command.
    fn before_command(&mut self, line: &str) -> Result<(), NoMemory> {
        match line.strip_prefix("--- ") {
            None => put_line(&mut self.document, line.as_bytes()),
            Some("front") => {
                self.front = replace(&mut self.document, Vec::new(self.alloc));
                Ok(())
            }
            Some("back") => {
                self.back = replace(&mut self.document, Vec::new(self.alloc));
                Ok(())
            }
            Some(command) => {
                self.command = Some(String::from_str(self.alloc, command)?);
                Ok(())
            }
        }
    }

    /// The case of the lines that came, and begins the next one.
    fn case_of(&mut self, command: String) -> Result<Case, NoMemory> {
        let mut document = Vec::from_slice(self.alloc, &self.front)?;
        put(&mut document, without_last(&self.document))?;
        if !self.back.is_empty() {
            put(&mut document, b"\n")?;
            put(&mut document, without_last(&self.back))?;
        }
        self.document.clear();
        let wanted = replace(&mut self.wanted, Vec::new(self.alloc));
        Ok(Case {
            document,
            command,
            wanted,
        })
    }

    /// Compares what was found with what is wanted.
    pub fn judge(&mut self, case: &Case, found: &[u8]) -> Result<(), NoMemory> {
        self.judged = self.judged.saturating_add(1);
        if found == case.wanted.as_slice() {
            return Ok(());
        }
        self.others = self.others.saturating_add(1);
        put_line(&mut self.told, &case.document)?;
        put(&mut self.told, b"--- ")?;
        put_line(&mut self.told, case.command.as_bytes())?;
        put(&mut self.told, &case.wanted)?;
        put_line(&mut self.told, b"=== but found")?;
        put_line(&mut self.told, found)
    }

    /// What is told at the end: the cases that came out otherwise, and how many cases there were.
    pub fn told(self) -> Result<Vec<u8>, NoMemory> {
        let mut told = self.told;
        put_int(&mut told, self.judged as i128)?;
        put(&mut told, b" cases, ")?;
        put_int(&mut told, self.others as i128)?;
        put_line(&mut told, b" come out otherwise")?;
        Ok(told)
    }
}
