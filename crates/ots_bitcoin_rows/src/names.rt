// The bytes to which a script gives names.
use std::alloc::Global;

/// A name and its bytes.
#[derive(Drop)]
struct Row {
    name: String,
    bytes: Vec<u8>,
}

/// Names in the order in which they came.
#[derive(Drop)]
pub struct Names {
    alloc: Global,
    rows: Vec<Row>,
}

impl Names {
    /// No name yet.
    pub fn new(alloc: Global) -> Names {
        Names {
            alloc,
            rows: Vec::new(alloc),
        }
    }

    /// What all that a script spells is made with.
    pub fn allocator(&self) -> Global {
        self.alloc
    }

    /// Gives these bytes a name, unless memory runs out.
    pub fn add(&mut self, name: &str, bytes: Vec<u8>) {
        if let Ok(name) = name.to_string(self.alloc) {
            let _ = self.rows.push(Row { name, bytes });
        }
    }

    /// The bytes under a name, of which there are none where there is no such name.
    pub fn bytes_of(&self, name: &str) -> &[u8] {
        for row in &self.rows {
            if row.name.as_str() == name {
                return row.bytes.as_slice();
            }
        }
        &[]
    }
}
