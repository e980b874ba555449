//! What the program says, and its status, where its words can't be handed to the library.
use super::explain;
use std::alloc::Global;
use std::io::{Error, ErrorKind, Result, Write};

// Why there are no words, the status, and what is said.
const CAUSES: [(ErrorKind, u8, &str); 2] = [
    (ErrorKind::OutOfMemory, 3, "sllink: memory\n"),
    (
        ErrorKind::InvalidData,
        2,
        "error: the command line is no UTF-8 text\n",
    ),
];

// Refuses each write.
#[derive(Drop)]
struct Unwritable;

impl Write for Unwritable {
    fn write(&mut self, _octets: &[u8]) -> Result<usize> {
        Err(Error::from(ErrorKind::StorageFull))
    }

    fn flush(&mut self) -> Result<()> {
        Ok(())
    }
}

// Whether a cause gives this status, and is said. An error output that fails changes no status.
fn is_explained(alloc: Global, kind: ErrorKind, status: u8, said: &str) -> bool {
    let error = Error::from(kind);
    let mut errors = Vec::new(alloc);
    let is_so = explain(&error, &mut errors) == status && errors.as_slice() == said.as_bytes();
    is_so && explain(&error, &mut Unwritable) == status
}

#[test]
fn a_cause_has_its_status_and_its_line(rt: HostRuntime) {
    for (kind, status, said) in &CAUSES {
        let is_so = is_explained(rt.alloc(), *kind, *status, said);
        assert!(rt; is_so, "at {said:?}");
    }
}
