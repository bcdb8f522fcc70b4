//! Why a run stopped.
ghost use Rattle.std.specs.Prelude.{◌≡◌};
ghost use Rattle.mg_dev.specs.Faults.{fault_number, fault_of_part, fault_of_show, fault_of_store, fault_of_output};
ghost use Rattle.mg_dev.specs.declared.fault.Fault.TheVariants.{Memory};

use crate::{Bad, Part, PartErr, PutErr, ShowErr, What};
use mg_defs::Stream;
use std::alloc::{AllocError, AllocFailed};
use std::fmt;

/// Why a run stopped. Each has a status number, with which the program ends, and a line that the
/// program writes to its standard error.
#[derive(Clone, Copy, PartialEq, Eq)]
pub enum Fault {
    /// The words after the program's name are no words of a tool.
    Usage,
    /// The store failed.
    StoreFault,
    /// The input could not be read.
    ReadFault,
    /// The output could not be written.
    WriteFault,
    /// The head is missing or empty.
    NotBuilt,
    /// The files are those of no collection.
    Damaged(Bad),
    /// The collection's file is missing.
    NoCollection,
    /// The collection has `size` bytes, and the tool takes at most `most`.
    TooLarge { size: u64, most: u64 },
    /// The collection has more than 2^24 documents.
    TooManyDocuments,
    /// The stream has more than 2^22 distinct pieces.
    TooManyPieces { stream: Stream },
    /// The collection was read twice, and a number came out differently.
    Changed { what: What, first: u64, second: u64 },
    /// There was no memory.
    Memory,
    /// The collection has the full name of a part that would be written.
    NameClash { part: Part },
    /// The input has more than 2^32 bytes.
    InputTooLong,
    /// A set was to be made from itself.
    SameName,
    /// The terms have `count` rotations, which is more than 2^27.
    TooManyRotations { count: u64 },
}

impl Fault {
    /// The variant's name.
    fn name(&self) -> &'static str {
        match self {
            Fault::Usage => "Usage",
            Fault::StoreFault => "StoreFault",
            Fault::ReadFault => "ReadFault",
            Fault::WriteFault => "WriteFault",
            Fault::NotBuilt => "NotBuilt",
            Fault::Damaged(_) => "Damaged",
            Fault::NoCollection => "NoCollection",
            Fault::TooLarge { .. } => "TooLarge",
            Fault::TooManyDocuments => "TooManyDocuments",
            Fault::TooManyPieces { .. } => "TooManyPieces",
            Fault::Changed { .. } => "Changed",
            Fault::Memory => "Memory",
            Fault::NameClash { .. } => "NameClash",
            Fault::InputTooLong => "InputTooLong",
            Fault::SameName => "SameName",
            Fault::TooManyRotations { .. } => "TooManyRotations",
        }
    }

    /// The status number of a run that stopped for this.
    pub fn number(&self) -> u8
        ensures { result ≡ fault_number self.now }
    {
        match self {
            Fault::Usage => 1,
            Fault::StoreFault => 2,
            Fault::ReadFault => 3,
            Fault::WriteFault => 4,
            Fault::NotBuilt => 5,
            Fault::Damaged(_) => 6,
            Fault::NoCollection => 7,
            Fault::TooLarge { .. } => 8,
            Fault::TooManyDocuments => 9,
            Fault::TooManyPieces { .. } => 10,
            Fault::Changed { .. } => 11,
            Fault::Memory => 12,
            Fault::NameClash { .. } => 13,
            Fault::InputTooLong => 14,
            Fault::SameName => 16,
            Fault::TooManyRotations { .. } => 17,
        }
    }

    /// The fault of a refused write to the store.
    pub fn of_store(error: PutErr) -> Fault
        ensures { result ≡ fault_of_store error }
    {
        match error {
            PutErr::Failed => Fault::StoreFault,
            PutErr::Memory => Fault::Memory,
        }
    }

    /// The fault of a refused write to the output.
    pub fn of_output(error: PutErr) -> Fault
        ensures { result ≡ fault_of_output error }
    {
        match error {
            PutErr::Failed => Fault::WriteFault,
            PutErr::Memory => Fault::Memory,
        }
    }
}

// What is derived writes all fields of all variants in one function, which is dear to prove.
impl fmt::Debug for Fault {
    fn fmt<W: fmt::Write>(&self, f: &mut fmt::Formatter<W>) -> fmt::Result {
        let name = self.name();
        match self {
            Fault::Damaged(bad) => debug_damaged(f, bad),
            Fault::TooLarge { size, most } => debug_numbers(
                f,
                name,
                ("size", *size),
                ("most", *most),
            ),
            Fault::TooManyPieces { stream } => debug_field(f, name, "stream", stream),
            Fault::Changed {
                what,
                first,
                second,
            } => debug_changed(f, *what, *first, *second),
            Fault::NameClash { part } => debug_field(f, name, "part", part),
            Fault::TooManyRotations { count } => debug_field(f, name, "count", count),
            _ => f.write_str(name),
        }
    }
}

fn debug_damaged<W: fmt::Write>(f: &mut fmt::Formatter<W>, bad: &Bad) -> fmt::Result {
    f.debug_tuple("Damaged").field(bad).finish()
}

fn debug_field<W: fmt::Write, T: fmt::Debug>(
    f: &mut fmt::Formatter<W>,
    name: &str,
    field: &str,
    value: &T,
) -> fmt::Result {
    f.debug_struct(name).field(field, value).finish()
}

fn debug_numbers<W: fmt::Write>(
    f: &mut fmt::Formatter<W>,
    name: &str,
    first: (&str, u64),
    second: (&str, u64),
) -> fmt::Result {
    f.debug_struct(name)
        .field(first.0, &first.1)
        .field(second.0, &second.1)
        .finish()
}

fn debug_changed<W: fmt::Write>(
    f: &mut fmt::Formatter<W>,
    what: What,
    first: u64,
    second: u64,
) -> fmt::Result {
    f.debug_struct("Changed")
        .field("what", &what)
        .field("first", &first)
        .field("second", &second)
        .finish()
}

impl From<PartErr> for Fault {
    ghost from_gives = { λ p f. f ≡ fault_of_part p };

    fn from(error: PartErr) -> Self {
        match error {
            PartErr::Device => Fault::StoreFault,
            PartErr::Memory => Fault::Memory,
            PartErr::Bad(bad) => Fault::Damaged(bad),
        }
    }
}

impl From<ShowErr> for Fault {
    ghost from_gives = { λ s f. f ≡ fault_of_show s };

    fn from(error: ShowErr) -> Self {
        match error {
            ShowErr::Part(error) => Fault::from(error),
            ShowErr::Write => Fault::WriteFault,
            ShowErr::Memory => Fault::Memory,
        }
    }
}

impl From<AllocError> for Fault {
    ghost from_gives = { λ _ f. f ≡ Memory };

    fn from(_: AllocError) -> Self {
        Fault::Memory
    }
}

impl<T: Drop> From<AllocFailed<T>> for Fault {
    ghost from_gives = { λ _ f. f ≡ Memory };

    fn from(_: AllocFailed<T>) -> Self {
        Fault::Memory
    }
}
