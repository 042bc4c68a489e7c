ghost use Rattle.std.specs.Prelude.{◌≡◌, IfOk};

use crate::memory::NoMemory;
use crate::text::Text;
use std::alloc::Global;
use std::marker::Model;

/// An open file of a trace.
#[derive(Debug, Drop)]
pub struct FileRow {
    pub fd: i32,
    /// Whether it is open for reading.
    pub read: bool,
    /// Whether it is open for writing.
    pub write: bool,
    /// Its size in bytes.
    pub size: u64,
    pub major: u32,
    pub minor: u32,
    pub inode: u64,
    pub path: Text,
}

/// The files of a trace, seen by contracts as a list of file rows. The first is object 1.
#[derive(Debug, Drop)]
pub struct Files {
    items: Vec<FileRow>,
}

impl Model for Files {
    ghost use Rattle.std.specs.Prelude.{List};
    ghost use Rattle.mm_types.specs.declared.files.FileRow.{FileRow};

    ghost Value = { List FileRow };

    ghost view = { λ f. f.items.items };
}

impl Files {
    /// Owns the rows, in this order.
    pub fn of(items: Vec<FileRow>) -> Files
        ensures { result ≡ items.items }
    {
        Files { items }
    }

    /// Shows the rows.
    pub fn items(&self) -> &[FileRow]
        ensures { result.now ≡ self.now }
    {
        self.items.as_slice()
    }

    /// A copy of the rows.
    pub fn copy(&self, alloc: Global) -> Result<Files, NoMemory>
        ensures { IfOk result (λ copy. copy ≡ self.now) }
    {
        let mut rows = Vec::new(alloc);
        for row in self.items() {
            rows.push(row.copy(alloc)?)?;
        }
        Ok(Files::of(rows))
    }
}

impl FileRow {
    /// A copy, with its path.
    pub fn copy(&self, alloc: Global) -> Result<FileRow, NoMemory>
        ensures { IfOk result (λ copy. copy ≡ self.now) }
    {
        Ok(FileRow {
            path: Text::of(String::from_str(alloc, self.path.as_str())?),
            ..*self
        })
    }
}
