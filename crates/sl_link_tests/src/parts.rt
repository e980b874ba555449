//! Managed parameters, faults and counted streams by themselves.
use super::support::rows::{holds, is_text, passes};
use super::support::streams::{Unflushed, Unreadable, Unwritable};
use sl_link::{Counted, LinkFault, Managed, ManagedFault};
use std::io::{ErrorKind, Read, Result as IoResult, Write};

// Spacecraft, TM and TC length, window and limit, and why these are refused.
const PARAMETERS: [((u16, u16, u16, u8, u64), Option<ManagedFault>); 10] = [
    ((1023, 32, 16, 2, 1), None),
    ((0, 2048, 1024, 254, u64::MAX), None),
    ((1024, 32, 16, 2, 0), Some(ManagedFault::Spacecraft)),
    ((1, 31, 15, 2, 1), Some(ManagedFault::TmLength)),
    ((1, 2049, 16, 2, 1), Some(ManagedFault::TmLength)),
    ((1, 32, 15, 2, 0), Some(ManagedFault::TcLength)),
    ((1, 32, 1025, 0, 1), Some(ManagedFault::TcLength)),
    ((1, 32, 16, 11, 0), Some(ManagedFault::Window)),
    ((1, 32, 16, 0, 1), Some(ManagedFault::Window)),
    ((1, 32, 16, 2, 0), Some(ManagedFault::Limit)),
];

// Faults and their names.
const MANAGED_FAULTS: [(ManagedFault, &str); 5] = [
    (ManagedFault::Spacecraft, "spacecraft"),
    (ManagedFault::TmLength, "tm length"),
    (ManagedFault::TcLength, "tc length"),
    (ManagedFault::Window, "window"),
    (ManagedFault::Limit, "limit"),
];

const LINK_FAULTS: [(LinkFault, &str); 4] = [
    (LinkFault::Read, "read"),
    (LinkFault::TooLong, "too long"),
    (LinkFault::Memory, "memory"),
    (LinkFault::Write, "write"),
];

#[test]
fn parameters_are_refused_in_their_order(rt: HostRuntime) {
    for (parameters, fault) in &PARAMETERS {
        let (spacecraft, tm, tc, window, limit) = *parameters;
        let link = Managed::new(spacecraft, tm, true, tc, true, window, 255, limit);
        holds(&rt, parameters, link.err() == *fault);
    }
}

#[test]
fn faults_have_names(rt: HostRuntime) {
    for (fault, name) in &MANAGED_FAULTS {
        passes(&rt, name, is_text(rt.alloc(), fault, name));
    }
    for (fault, name) in &LINK_FAULTS {
        passes(&rt, name, is_text(rt.alloc(), fault, name));
    }
}

// Whether a write takes this number of octets, and this number of faults is counted after it.
fn takes<W: Write>(writer: &mut Counted<W>, octets: &[u8], taken: usize, faults: u64) -> bool {
    let is_taken = match writer.write(octets) {
        Ok(found) => found == taken,
        Err(_) => false,
    };
    is_taken && writer.faults() == faults
}

// What a stream has for an answer of this kind.
fn is_fault<T: Drop>(answer: IoResult<T>, kind: ErrorKind) -> bool {
    match answer {
        Ok(_) => false,
        Err(error) => error.kind() == kind,
    }
}

// Each fault comes back, and is counted.
#[test]
fn faults_of_streams_are_counted(rt: HostRuntime) {
    let mut reader = Counted::new(Unreadable);
    for faults in 1..3u64 {
        let is_so = is_fault(reader.read(&mut [0; 4]), ErrorKind::ConnectionReset);
        holds(&rt, &("read", faults), is_so && reader.faults() == faults);
    }
    // A flush that goes well is no fault.
    let mut writer = Counted::new(Unwritable);
    let is_so = is_fault(writer.write(&[]), ErrorKind::StorageFull);
    holds(
        &rt,
        &"write",
        is_so && writer.flush().is_ok() && writer.faults() == 1,
    );
    // A write that goes well is none.
    let mut writer = Counted::new(Unflushed);
    let is_taken = takes(&mut writer, &[1], 1, 0);
    let is_so = is_fault(writer.flush(), ErrorKind::BrokenPipe);
    holds(&rt, &"flush", is_taken && is_so && writer.faults() == 1);
    // A write that takes none of one or more octets is one, and a write of no octets isn't.
    let mut room = [0; 0];
    let mut full = Counted::new(room.as_mut_slice());
    holds(&rt, &"no octets", takes(&mut full, &[], 0, 0));
    holds(&rt, &"full", takes(&mut full, &[1, 2], 0, 1));
}

// Two of three octets are read, and the reader then has the third one; three octets are written;
// and the fault of a write comes back.
#[test]
fn calls_are_passed_on_and_answers_back(rt: HostRuntime) {
    let mut reader = Counted::new([1, 2, 3].as_slice());
    let mut buffer = [0; 2];
    let is_read = matches!(reader.read(&mut buffer), Ok(2)) && buffer == [1, 2];
    holds(
        &rt,
        &"read",
        is_read && reader.into_inner() == [3].as_slice(),
    );
    let mut writer = Counted::new(Vec::new(rt.alloc()));
    let is_taken = takes(&mut writer, &[1, 2, 3], 3, 0);
    let is_written = writer.into_inner().as_slice() == [1, 2, 3].as_slice();
    holds(&rt, &"write", is_taken && is_written);
    let fault = Counted::new(Unwritable).write(&[1, 2]);
    holds(&rt, &"fault", is_fault(fault, ErrorKind::StorageFull));
}
