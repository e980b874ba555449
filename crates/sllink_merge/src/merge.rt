//! Recordings merged one after another.
ghost use Rattle.std.specs.Prelude.{◌≡◌, ◌≢◌, ◌<◌, ◌&&◌, ◌∷◌, [], true, false, IfErr, IfOk, OnOk};
ghost use Rattle.sl_merge.specs.Merge.{is_merge};
ghost use Rattle.sllink_merge.specs.Run.{IsMergedBy, IsRefusedFor, MergeAllTo, MergesOn, MergesTo};
ghost use Rattle.sllink_merge.specs.Run.{counts_of, is_sure, octets_of};

use crate::command_line::Link;
use crate::order::{Order, Unordered, find_order};
use crate::totals::packets_of;
use sl_merge::{Fate, FateCounts, count_fates, is_merge_tm, merged_recording};
use std::alloc::{AllocError, Global};
use std::hash::BuildHasher;
use thiserror::Error;

/// A recording.
#[derive(Clone, Copy, Debug)]
pub struct Recording<'a> {
    /// Its name, as it stands in a line.
    pub name: &'a str,
    pub octets: &'a [u8],
    /// How many packets it delivers.
    pub packets: u64,
}

/// What became of two recordings that were merged.
#[derive(Clone, Copy, Debug)]
pub struct Turn {
    /// How many frames have which fate.
    pub counts: FateCounts,
    /// Stretches in which 256 frames or more of a channel were lost in a row, in the likeliest order.
    pub outages: u64,
    /// Stretches whose order is a guess.
    pub guessed: u64,
    /// Stretches of which frames of one recording are left out.
    pub undecided: u64,
    /// Choices among equal idle frames.
    pub idle: u64,
    /// How many packets the merge delivers.
    pub packets: u64,
}

/// What recordings were merged to.
#[derive(Drop)]
pub struct Merge {
    pub octets: Vec<u8>,
    /// Whether each frame that was left out is skipped or a repeat, and no order is a guess.
    pub is_sure: bool,
    /// What became of the first two, and then of each further one and what came before it.
    pub turns: Vec<Turn>,
}

/// Why two recordings aren't merged.
#[derive(Clone, Copy, Debug, PartialEq, Eq, Error)]
pub enum Unmerged {
    /// Memory was refused.
    #[error("memory")]
    Memory,
    /// No order was found.
    #[error("{0}")]
    Unordered(Unordered),
    /// What was found is no merge.
    #[error("no merge that was found passes the check; an outage of 256 frames or a multiple looks so")]
    Unchecked,
}

impl From<AllocError> for Unmerged {
    ghost use Rattle.std.specs.Prelude.{◌≡◌};
    ghost use Rattle.sllink_merge.specs.declared.merge.Unmerged.{Unmerged};

    ghost from_gives = { λ error why. why ≡ Unmerged.Memory };

    fn from(_: AllocError) -> Unmerged {
        Unmerged::Memory
    }
}

impl From<Unordered> for Unmerged {
    fn from(why: Unordered) -> Unmerged {
        match why {
            Unordered::Memory => Unmerged::Memory,
            why => Unmerged::Unordered(why),
        }
    }
}

/// Two recordings that aren't merged, by their names, and why.
#[derive(Clone, Copy, Debug)]
pub struct Refused<'a> {
    pub first: &'a str,
    pub second: &'a str,
    pub why: Unmerged,
}

/// How a line calls what was merged so far.
pub const SO_FAR: &str = "merge so far";

/// Merges the first two recordings, and then each further one with what came before it.
pub fn merge_all<'a, S: BuildHasher + Copy>(
    alloc: Global,
    hasher: S,
    link: &Link,
    first: &Recording<'a>,
    second: &Recording<'a>,
    others: &[Recording<'a>],
) -> Result<Merge, Refused<'a>>
    ensures { IfOk result (λ merge. MergeAllTo link.now first.now.octets.now
        (second.now.octets.now ∷ octets_of others.now) merge.is_sure merge.octets.items) }
{
    let mut merge = match begin(alloc, hasher, link, first.octets, second.octets) {
        Ok(merge) => merge,
        Err(why) => {
            return Err(Refused {
                first: first.name,
                second: second.name,
                why,
            });
        }
    };
    for other in others {
        if let Err(why) = add(alloc, hasher, link, &mut merge, other.octets) {
            return Err(Refused {
                first: SO_FAR,
                second: other.name,
                why,
            });
        }
    }
    Ok(merge)
}

// Merges two recordings.
fn begin<S: BuildHasher + Copy>(
    alloc: Global,
    hasher: S,
    link: &Link,
    one: &[u8],
    other: &[u8],
) -> Result<Merge, Unmerged>
    ensures { IfOk result (λ merge. MergeAllTo link.now one.now (other.now ∷ []) merge.is_sure
        merge.octets.items) }
{
    let mut turns = Vec::new(alloc);
    match take_turn(alloc, hasher, link, one, other, &mut turns) {
        Ok((octets, is_sure)) => Ok(Merge {
            octets,
            is_sure,
            turns,
        }),
        Err(why) => Err(why),
    }
}

// Merges what came before with a further recording.
fn add<S: BuildHasher + Copy>(
    alloc: Global,
    hasher: S,
    link: &Link,
    merge: &mut Merge,
    other: &[u8],
) -> Result<(), Unmerged>
    ensures { OnOk result (MergesOn link.now merge.old.octets.items other.now merge.old.is_sure
        merge.new.octets.items merge.new.is_sure) }
{
    match take_turn(
        alloc,
        hasher,
        link,
        merge.octets.as_slice(),
        other,
        &mut merge.turns,
    ) {
        Ok((octets, is_sure)) => {
            merge.is_sure = merge.is_sure && is_sure;
            merge.octets = octets;
            Ok(())
        }
        Err(why) => Err(why),
    }
}

// Merges two recordings, keeps what became of them, and says whether the turn is sure.
fn take_turn<S: BuildHasher + Copy>(
    alloc: Global,
    hasher: S,
    link: &Link,
    one: &[u8],
    other: &[u8],
    turns: &mut Vec<Turn>,
) -> Result<(Vec<u8>, bool), Unmerged>
    ensures { IfOk result (λ merged. MergesOn link.now one.now other.now true merged.0.items
        merged.1) }
{
    match merge_two(alloc, hasher, link, one, other) {
        Ok((octets, turn)) => {
            let sure = is_sure(&turn);
            match turns.push(turn) {
                Ok(()) => Ok((octets, sure)),
                Err(_) => Err(Unmerged::Memory),
            }
        }
        Err(why) => Err(why),
    }
}

// Merges two recordings by the order that is found of their frames.
fn merge_two<S: BuildHasher + Copy>(
    alloc: Global,
    hasher: S,
    link: &Link,
    one: &[u8],
    other: &[u8],
) -> Result<(Vec<u8>, Turn), Unmerged>
    ensures { IfOk result (λ merged. MergesTo link.now one.now other.now merged.0.items merged.1) }
{
    match find_order(alloc, hasher, &link.shape, link.spacecraft, one, other) {
        Ok(order) => merge_by(alloc, hasher, link, one, other, &order),
        Err(why) => Err(Unmerged::from(why)),
    }
}

// Merges two recordings by this order, if it passes the check.
fn merge_by<S: BuildHasher + Copy>(
    alloc: Global,
    hasher: S,
    link: &Link,
    one: &[u8],
    other: &[u8],
    order: &Order,
) -> Result<(Vec<u8>, Turn), Unmerged>
    ensures merged { IfOk result (λ merged. IsMergedBy link.now one.now other.now
        order.now.fates.items merged.0.items merged.1.counts) }
    ensures told { IfOk result (λ merged. (merged.1.outages ≡ order.now.outages)
        × (merged.1.guessed ≡ order.now.guessed) × (merged.1.undecided ≡ order.now.undecided)
        × (merged.1.idle ≡ order.now.idle)) }
    ensures refused { IfErr result (λ why. why ≢ Unmerged.Memory
        → IsRefusedFor link.now one.now other.now order.now.fates.items why) }
{
    let fates = order.fates.as_slice();
    match merge_fates(alloc, hasher, link, one, other, fates) {
        Ok((octets, counts)) => match packets_of(alloc, link, octets.as_slice()) {
            Ok(packets) => {
                let turn = Turn {
                    counts,
                    outages: order.outages,
                    guessed: order.guessed,
                    undecided: order.undecided,
                    idle: order.idle,
                    packets,
                };
                Ok((octets, turn))
            }
            Err(_) => Err(Unmerged::Memory),
        },
        Err(why) => Err(why),
    }
}

// Merges two recordings by these fates, if they pass the check, and counts frames by their fates.
fn merge_fates<S: BuildHasher + Copy>(
    alloc: Global,
    hasher: S,
    link: &Link,
    one: &[u8],
    other: &[u8],
    fates: &[Fate],
) -> Result<(Vec<u8>, FateCounts), Unmerged>
    ensures merged { IfOk result (λ merged. IsMergedBy link.now one.now other.now fates.now
        merged.0.items merged.1) }
    ensures refused { IfErr result (λ why. why ≢ Unmerged.Memory
        → IsRefusedFor link.now one.now other.now fates.now why) }
{
    if let Err(why) = require_merge(alloc, hasher, link, one, other, fates) {
        return Err(why);
    }
    let counts = match count_common(alloc, link, one, other, fates) {
        Ok(counts) => counts,
        Err(why) => return Err(why),
    };
    match merged_recording(alloc, &link.shape, one, other, fates) {
        Ok(octets) => Ok((octets, counts)),
        Err(_) => Err(Unmerged::Memory),
    }
}

// Refuses fates that are no merge.
fn require_merge<S: BuildHasher + Copy>(
    alloc: Global,
    hasher: S,
    link: &Link,
    one: &[u8],
    other: &[u8],
    fates: &[Fate],
) -> Result<(), Unmerged>
    ensures merge { OnOk result (is_merge link.now.shape link.now.spacecraft one.now other.now
        fates.now ≡ true) }
    ensures refused { IfErr result (λ why. why ≢ Unmerged.Memory → (why ≡ Unmerged.Unchecked)
        × (is_merge link.now.shape link.now.spacecraft one.now other.now fates.now ≡ false)) }
{
    match is_merge_tm(
        alloc,
        hasher,
        &link.shape,
        link.spacecraft,
        one,
        other,
        fates,
    ) {
        Ok(true) => Ok(()),
        Ok(false) => Err(Unmerged::Unchecked),
        Err(_) => Err(Unmerged::Memory),
    }
}

// Counts frames by their fates, and refuses recordings without a frame in common.
fn count_common(
    alloc: Global,
    link: &Link,
    one: &[u8],
    other: &[u8],
    fates: &[Fate],
) -> Result<FateCounts, Unmerged>
    ensures counted { IfOk result (λ counts.
        counts ≡ counts_of link.now one.now other.now fates.now) }
    ensures common { IfOk result (λ counts. 0 < counts.both) }
    ensures refused { IfErr result (λ why. why ≢ Unmerged.Memory
        → (why ≡ Unmerged.Unordered Unordered.Apart)
        × ((counts_of link.now one.now other.now fates.now).both ≡ 0)) }
{
    match count_fates(alloc, &link.shape, link.spacecraft, one, other, fates) {
        Ok(counts) if counts.both == 0 => Err(Unmerged::Unordered(Unordered::Apart)),
        Ok(counts) => Ok(counts),
        Err(_) => Err(Unmerged::Memory),
    }
}

// Whether each frame that was left out is skipped or a repeat, and no order is a guess.
fn is_sure(turn: &Turn) -> bool
    ensures { result ≡ is_sure turn.now }
{
    turn.counts.first_left_out.stretches == 0
        && turn.counts.second_left_out.stretches == 0
        && turn.outages == 0
        && turn.guessed == 0
        && turn.undecided == 0
}
