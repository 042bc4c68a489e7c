ghost use Rattle.std.specs.Prelude.{◌≡◌};

use std::marker::Model;

/// A page by its number: page `p` covers the addresses from `4096 p` to `4096 p + 4095`.
#[derive(Clone, Copy, Debug, PartialEq, Eq)]
pub struct Page(pub u64);

/// The pages from `lo` up to but not including `hi`.
#[derive(Clone, Copy, Debug, PartialEq, Eq)]
pub struct Span {
    pub lo: u64,
    pub hi: u64,
}

/// Which accesses are allowed, as `PROT_READ`, `PROT_WRITE` and `PROT_EXEC` of mmap(2).
#[derive(Clone, Copy, Debug, PartialEq, Eq)]
pub struct Prot {
    pub read: bool,
    pub write: bool,
    pub exec: bool,
}

/// The attributes of an area. Two neighbours are kept apart where one of these differs.
#[derive(Clone, Copy, Debug, PartialEq, Eq)]
pub struct Attr {
    /// What is allowed now.
    pub prot: Prot,
    /// The most that mprotect(2) may allow: the `VM_MAY*` flags of the kernel.
    pub most: Prot,
    /// Whether it was mapped with `MAP_SHARED`.
    pub shared: bool,
    /// Whether it grows downwards: `MAP_GROWSDOWN` of mmap(2).
    pub grows: bool,
    /// Whether mseal(2) sealed it.
    pub sealed: bool,
    /// Whether it is part of the heap of brk(2).
    pub heap: bool,
}

/// One area: a span of pages with its attributes and what it maps.
#[derive(Clone, Copy, Debug, PartialEq, Eq)]
pub struct Record {
    pub span: Span,
    pub attr: Attr,
    /// 0 for private anonymous memory, the place of a file in the configuration counted from 1, or a
    /// greater number for a shared anonymous object.
    pub object: u32,
    /// Where the span begins within the object, in pages.
    pub offset: u64,
}

/// A list of areas, seen by contracts as a list of records.
#[derive(Debug, Drop)]
pub struct AreaList {
    items: Vec<Record>,
}

impl Model for AreaList {
    ghost use Rattle.std.specs.Prelude.{List};
    ghost use Rattle.mm_types.specs.declared.area.Record.{Record};

    ghost Value = { List Record };

    ghost view = { λ l. l.items.items };
}

impl AreaList {
    /// Owns the records, in this order.
    pub fn of(items: Vec<Record>) -> AreaList
        ensures { result ≡ items.items }
    {
        AreaList { items }
    }

    /// Shows the records.
    pub fn items(&self) -> &[Record]
        ensures { result.now ≡ self.now }
    {
        self.items.as_slice()
    }
}

/// What a page fault wanted to do.
#[derive(Clone, Copy, Debug, PartialEq, Eq)]
pub enum Access {
    Read,
    Write,
    Exec,
}

/// The outcome of a page fault, with the signal codes of sigaction(2).
#[derive(Clone, Copy, Debug, PartialEq, Eq)]
pub enum Verdict {
    /// The area serves it, and the page is this one of its object, in pages; 0 for private anonymous memory.
    Served { area: Record, index: u64 },
    /// No area has the page: `SEGV_MAPERR`.
    MapErr,
    /// The area does not allow the access: `SEGV_ACCERR`.
    AccErr,
    /// The page lies past the end of the file: `BUS_ADRERR`.
    BusErr,
}
