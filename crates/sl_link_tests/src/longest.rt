//! A packet of the greatest length, 65,542 octets, in 2,522 TM frames.
use super::support::engines::ALL;
use super::support::recordings::{front_of_longest, longest};
use super::support::rows::{Stop, holds};
use super::support::run::{ProgramRun, writes};

const NORMALISE: &str = "sllink normalise tm --scid 1 --tm-length 32";

const PACKETS: &str = "sllink packets tm --scid 1 --tm-length 32";

const CHECK: &str = "sllink check tm --scid 1 --tm-length 32";

// What is listed of the packet before its data, whose octets are all `33`.
const START: &str = "vc 0 apid 3 type 0 secondary 0 flags 3 count 0 octets 65542 0003c000ffff";

// What `check` writes of the whole, and of the whole without its last two frames.
const WHOLE: &[u8] = b"frames 2522 skipped 0 packets 1 idle 1 anomalies 0\n";

const FRONT: &[u8] =
    b"80640 open vc 0 octets 65520\nframes 2520 skipped 0 packets 0 idle 0 anomalies 1\n";

// Whether these are digits of data, and the end of a line.
fn are_digits(data: &str) -> bool {
    for digit in data.as_bytes() {
        if *digit != b'3' && *digit != b'\n' {
            return false;
        }
    }
    data.len() == 2 * 65_536 + 1 && data.ends_with("33\n")
}

#[test]
fn a_longest_packet_of_tm(rt: HostRuntime) -> Result<(), Stop> {
    let alloc = rt.alloc();
    let recording = longest(alloc)?;
    let is_form = writes(alloc, NORMALISE, &recording, ALL, (0, &recording))?;
    holds(&rt, &NORMALISE, recording.len() == 80_704 && is_form);
    let outcome = ProgramRun::of(alloc, PACKETS, &recording)?;
    let data = outcome.text().strip_prefix(START).unwrap_or("");
    holds(&rt, &PACKETS, outcome.says(0, "") && are_digits(data));
    let is_whole = writes(alloc, CHECK, &recording, ALL, (0, WHOLE))?;
    holds(&rt, &CHECK, is_whole);
    let front = front_of_longest(alloc)?;
    let is_front = writes(alloc, CHECK, &front, ALL, (1, FRONT))?;
    holds(&rt, &"without its last two frames", is_front);
    Ok(())
}
