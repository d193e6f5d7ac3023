// Bytes under names.
use std::alloc::{AllocError, Global};

/// A name and its bytes.
#[derive(Drop)]
pub struct Row {
    pub name: String,
    pub bytes: Vec<u8>,
}

/// Rows in the order in which their names came.
#[derive(Drop)]
pub struct Table {
    rows: Vec<Row>,
}

impl Table {
    /// No rows.
    pub fn new(alloc: Global) -> Table {
        Table {
            rows: Vec::new(alloc),
        }
    }

    /// The rows.
    pub fn rows(&self) -> &[Row] {
        self.rows.as_slice()
    }

    /// Where a name stands.
    fn place(&self, name: &str) -> Option<usize> {
        self.rows.iter().position(|row| row.name.as_str() == name)
    }

    /// The bytes under a name, where it is there.
    pub fn get(&self, name: &str) -> Option<&[u8]> {
        let row = self.rows.get(self.place(name)?)?;
        Some(row.bytes.as_slice())
    }

    /// Adds a row. There may be one of the same name.
    pub fn add(&mut self, name: String, bytes: Vec<u8>) -> Result<(), AllocError> {
        self.rows.push(Row { name, bytes })?;
        Ok(())
    }

    /// Puts bytes under a name, in the place of those that it had.
    pub fn put(&mut self, name: String, bytes: Vec<u8>) -> Result<(), AllocError> {
        if let Some(place) = self.place(name.as_str()) {
            if let Some(row) = self.rows.get_mut(place) {
                row.bytes = bytes;
            }
            return Ok(());
        }
        self.add(name, bytes)
    }
}
