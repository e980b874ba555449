//! How many packets a recording delivers.

use crate::command_line::Link;
use sl_link::{Counted, check_tm};
use std::alloc::{AllocError, Global};
use std::io;

/// How many packets a recording delivers. It fails only where memory is refused: reading a slice
/// never fails, and there is no limit.
pub fn packets_of(alloc: Global, link: &Link, recording: &[u8]) -> Result<u64, AllocError> {
    let mut reader = Counted::new(recording);
    let mut writer = Counted::new(io::sink());
    match check_tm(alloc, &link.managed, &mut reader, &mut writer) {
        Ok(totals) => Ok(totals.packets()),
        Err(_) => Err(AllocError),
    }
}
