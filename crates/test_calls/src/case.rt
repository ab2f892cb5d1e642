//! A case as it is written, line by line:
//!
//!     call WORD..          the words of the call, `""` for an empty one; without this line `solve` and the names of the files
//!     file NAME TEXT       one more file; `""` is the empty name
//!     more TEXT            the text at the end of the last file
//!     line TEXT            the same, and a line feed
//!     times N TEXT         the text so many times at the end of the last file
//!     byte N               this byte at the end of the last file
//!     fails shelf N..      the calls of the shelf that fail, from 1; so for `out` and `err`
use opl_list::Seq;
use std::alloc::{AllocError, Global};

/// A file with its name.
#[derive(Drop)]
pub struct File {
    pub name: String,
    pub bytes: Vec<u8>,
}

/// The words of a call, its files, and the numbers of the calls that fail.
#[derive(Drop)]
pub struct Case {
    pub words: Option<Vec<String>>,
    pub files: Vec<File>,
    pub shelf: Seq<u64>,
    pub out: Seq<u64>,
    pub err: Seq<u64>,
}

/// A number that is written, or 0 where none is.
fn number(text: &str) -> u64 {
    text.parse::<u64>().unwrap_or(0)
}

/// The numbers that are written.
fn numbers(alloc: Global, text: &str) -> Result<Seq<u64>, AllocError> {
    let mut numbers = Seq::new(alloc);
    for written in text.split_whitespace() {
        numbers.push(number(written))?;
    }
    Ok(numbers)
}

/// The word or name that is written, where `""` is the empty one.
fn named(alloc: Global, text: &str) -> Result<String, AllocError> {
    String::from_str(alloc, if text == "\"\"" { "" } else { text })
}

/// The words that are written.
fn words(alloc: Global, text: &str) -> Result<Vec<String>, AllocError> {
    let mut words = Vec::new(alloc);
    for written in text.split_whitespace() {
        words.push(named(alloc, written)?)?;
    }
    Ok(words)
}

impl Case {
    /// A case without lines.
    pub fn new(alloc: Global) -> Case {
        Case {
            words: None,
            files: Vec::new(alloc),
            shelf: Seq::new(alloc),
            out: Seq::new(alloc),
            err: Seq::new(alloc),
        }
    }

    /// One more file.
    fn add_file(&mut self, alloc: Global, name: &str, text: &str) -> Result<(), AllocError> {
        let file = File {
            name: named(alloc, name)?,
            bytes: Vec::from_slice(alloc, text.as_bytes())?,
        };
        self.files.push(file)?;
        Ok(())
    }

    /// The words of the call.
    fn set_words(&mut self, alloc: Global, text: &str) -> Result<(), AllocError> {
        self.words = Some(words(alloc, text)?);
        Ok(())
    }

    /// The text and a line feed at the end of the last file.
    fn add_line(&mut self, text: &str) -> Result<(), AllocError> {
        self.extend(text, 1)?;
        self.extend("\n", 1)
    }

    /// The text so many times at the end of the last file.
    fn extend(&mut self, text: &str, times: u64) -> Result<(), AllocError> {
        if let Some(file) = self.files.last_mut() {
            for _ in 0..times {
                file.bytes.extend_from_slice(text.as_bytes())?;
            }
        }
        Ok(())
    }

    /// The byte at the end of the last file.
    fn add_byte(&mut self, byte: u64) -> Result<(), AllocError> {
        if let Some(file) = self.files.last_mut() {
            file.bytes.push(u8::try_from(byte).unwrap_or(0))?;
        }
        Ok(())
    }

    /// The calls that fail.
    fn set_failing(&mut self, alloc: Global, text: &str) -> Result<(), AllocError> {
        let (side, written) = text.split_once(" ").unwrap_or((text, ""));
        let numbers = numbers(alloc, written)?;
        match side {
            "shelf" => self.shelf = numbers,
            "out" => self.out = numbers,
            "err" => self.err = numbers,
            _ => {}
        }
        Ok(())
    }

    /// Adds what a line says. A line of another form tells whoever reads it what the case is for.
    pub fn read(&mut self, alloc: Global, line: &str) -> Result<(), AllocError> {
        let (kind, text) = line.split_once(" ").unwrap_or((line, ""));
        let (first, rest) = text.split_once(" ").unwrap_or((text, ""));
        match kind {
            "call" => self.set_words(alloc, text),
            "file" => self.add_file(alloc, first, rest),
            "more" => self.extend(text, 1),
            "line" => self.add_line(text),
            "times" => self.extend(rest, number(first)),
            "byte" => self.add_byte(number(text)),
            "fails" => self.set_failing(alloc, text),
            _ => Ok(()),
        }
    }
}
