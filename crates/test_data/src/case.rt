//! A case as it is written: lines `model TEXT`, `data TEXT` for each data file, and `assign NAME INDEX.. = NUMBER`.
use opl_bind::Override;
use opl_list::Seq;
use opl_tree::Name;
use std::alloc::{AllocError, Global};

/// A model, data files, and values that are assigned.
#[derive(Drop)]
pub struct Case {
    pub model: Vec<u8>,
    pub files: Vec<Vec<u8>>,
    pub assigned: Seq<Override>,
}

/// A number that is written, or 0 where none is.
fn number(text: &str) -> i128 {
    text.parse::<i128>().unwrap_or(0)
}

/// `NAME INDEX.. = NUMBER`
fn assigned(alloc: Global, text: &str) -> Result<Override, AllocError> {
    let (item, value) = text.split_once(" = ").unwrap_or((text, ""));
    let (name, indices) = item.split_once(" ").unwrap_or((item, ""));
    let mut index = Seq::new(alloc);
    for written in indices.split_whitespace() {
        index.push(number(written))?;
    }
    Ok(Override {
        name: Name::from_slice(alloc, name.as_bytes())?,
        index,
        value: number(value),
    })
}

impl Case {
    /// A case without lines.
    pub fn new(alloc: Global) -> Case {
        Case {
            model: Vec::new(alloc),
            files: Vec::new(alloc),
            assigned: Seq::new(alloc),
        }
    }

    /// One more data file.
    fn add_file(&mut self, alloc: Global, text: &str) -> Result<(), AllocError> {
        self.files.push(Vec::from_slice(alloc, text.as_bytes())?)?;
        Ok(())
    }

    /// One more assigned value.
    fn add_assigned(&mut self, alloc: Global, text: &str) -> Result<(), AllocError> {
        self.assigned.push(assigned(alloc, text)?)
    }

    /// Adds what a line says. A line of another form tells whoever reads it what the case is for.
    pub fn read(&mut self, alloc: Global, line: &str) -> Result<(), AllocError> {
        let (word, text) = line.split_once(" ").unwrap_or((line, ""));
        match word {
            "model" => self.model.extend_from_slice(text.as_bytes()),
            "data" => self.add_file(alloc, text),
            "assign" => self.add_assigned(alloc, text),
            _ => Ok(()),
        }
    }
}
