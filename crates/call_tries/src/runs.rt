//! Answers of which equal ones are counted.
use column_types::{NoMemory, Text};
use journal_text::push_count;
use std::alloc::Global;

/// Answers in order, those that are equal to the one before only counted.
#[derive(Drop)]
pub struct Runs {
    written: Text,
    last: Text,
    count: u64,
}

impl Runs {
    pub fn new(alloc: Global) -> Runs {
        Runs {
            written: Text::new(alloc),
            last: Text::new(alloc),
            count: 0,
        }
    }

    pub fn push(&mut self, answer: Text) -> Result<(), NoMemory> {
        if self.count > 0 && answer.as_str() == self.last.as_str() {
            self.count = self.count.saturating_add(1);
            return Ok(());
        }
        self.write_last()?;
        self.last = answer;
        self.count = 1;
        Ok(())
    }

    /// Writes the last answer with its count, if there is one.
    fn write_last(&mut self) -> Result<(), NoMemory> {
        if self.count == 0 {
            return Ok(());
        }
        if !self.written.is_empty() {
            self.written.push(", ")?;
        }
        if self.count > 1 {
            push_count(&mut self.written, self.count)?;
            self.written.push(" times ")?;
        }
        self.written.push(self.last.as_str())
    }

    /// All that was written.
    pub fn finish(mut self) -> Result<Text, NoMemory> {
        self.write_last()?;
        let Runs { written, .. } = self;
        Ok(written)
    }
}
