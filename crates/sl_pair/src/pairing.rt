//! Two recordings, whose packets come in turns.
ghost use Rattle.std.specs.Prelude.{◌≡◌, ◌↔◌, ◌<◌, ℕ, IfOk, IsTrue, OnOk};
ghost use Rattle.std.specs.Vec.{vec_len};
ghost use Rattle.sl_packet.specs.Packet.{IsPacket};
ghost use Rattle.sl_pair.specs.Pairing.{AreChannels, ByChannel, HaveSame, NothingIsLeft};
ghost use Rattle.sl_pair.specs.Pairing.{StandsAfter, failures_of, in_order, no_packets};
ghost use Rattle.sl_pair.specs.Pairing.{turn_of, with_packet};
ghost use Rattle.sl_pair.specs.Placed.{AreInPlace, left_in};
ghost use Rattle.sl_pair.specs.Runs.{by_apid};

use crate::channel::{Channel, Station};
use crate::left::Left;
use sl_packet::{PacketSink, SinkFault};
use std::alloc::{AllocError, Global};
use std::hash::BuildHasher;

/// The space packets (CCSDS 133.0-B) of two recordings that have no counterpart yet, on each
/// channel. As a [`PacketSink`] it takes the packets of one recording, and after
/// [`take_turn`](Pairing::take_turn) those of the other one. In whatever turns they come, what is
/// left in the end is the same.
///
/// It keeps the packets that wait for their counterparts, with their numbers, and for each channel
/// and APID how many packets came. Of packets that were paired it keeps no octets. No clause says
/// what is kept: that is seen by reading. Its only fault is `Memory`, where memory was refused or
/// 2^64 - 1 packets came on a channel, and then nothing more is promised of it.
///
/// The hasher should be made with a seed that nobody who writes a recording can know: so nobody can
/// choose packets that collide.
#[derive(Drop)]
pub struct Pairing<S: BuildHasher> {
    alloc: Global,
    hasher: S,
    // Whose packets come.
    turn: Station,
    // The channels from 0 on. On a channel beyond the last one no packet came.
    channels: Vec<Channel<S>>,
    // The count of refused packets, which `PacketSink` wants. No call reports it.
    failures: u64,
}

impl<S: BuildHasher + Copy> Pairing<S> {
    /// No packet came of either recording. It is the first one's turn.
    pub fn new(alloc: Global, hasher: S) -> Pairing<S>
        ensures none { StandsAfter result no_packets no_packets }
        ensures turn { turn_of result ≡ Station.First }
        ensures failures { failures_of result ≡ 0 }
    {
        Pairing {
            alloc,
            hasher,
            turn: Station::First,
            channels: Vec::new(alloc),
            failures: 0,
        }
    }

    /// The station whose recording's packets come.
    pub fn turn(&self) -> Station
        ensures { result ≡ turn_of self.now }
    {
        self.turn
    }

    /// From now on the packets of this station's recording come.
    pub fn take_turn(&mut self, station: Station)
        ensures turn { turn_of self.new ≡ station }
        ensures kept { (firsts seconds : ByChannel) → StandsAfter self.old firsts seconds
            → StandsAfter self.new firsts seconds }
        ensures failures { failures_of self.new ≡ failures_of self.old }
    {
        self.turn = station;
    }
}

/// How the packets of two recordings compare.
#[derive(Clone, Copy, Debug, PartialEq, Eq)]
pub enum Answer {
    /// Both have the same packets in the same order on each channel.
    Same,
    /// Both have the same packets on each channel, but not in the same order.
    Reordered,
    /// One of them has a packet that the other one hasn't.
    Different,
}

impl<S: BuildHasher + Copy> Pairing<S> {
    /// How the packets that came of both recordings compare.
    pub fn answer(&self) -> Answer
        // Each clause holds of all packets that may have come.
        ensures same { (firsts seconds : ByChannel) → StandsAfter self.now firsts seconds
            → ((result ≡ Answer.Same) ↔ HaveSame firsts seconds) }
        ensures different { (firsts seconds : ByChannel) → StandsAfter self.now firsts seconds
            → ((result ≡ Answer.Different) ↔ (NothingIsLeft firsts seconds → ⊥)) }
    {
        if !are_matched(self.channels.as_slice()) {
            return Answer::Different;
        }
        if are_in_place(self.channels.as_slice()) {
            Answer::Same
        } else {
            Answer::Reordered
        }
    }

    /// The packets that only a station's recording has on a channel, in its order, with their
    /// numbers. There are none above channel 4095.
    pub fn left(&self, station: Station, channel: u16) -> Result<Vec<Left<'_>>, AllocError>
        ensures { IfOk result (λ left. (own others : ByChannel)
            → in_order station (StandsAfter self.now) own others
            → left.items ≡ left_in (own channel) (others channel)) }
    {
        match self.channels.get(usize::from(channel)) {
            Some(pair) => pair.left(self.alloc, station),
            None => Ok(Vec::new(self.alloc)),
        }
    }

    /// The same packets in the order of their APIDs. Those of one APID stand in the recording's
    /// order.
    pub fn left_by_apid(&self, station: Station, channel: u16) -> Result<Vec<Left<'_>>, AllocError>
        ensures { IfOk result (λ left. (own others : ByChannel)
            → in_order station (StandsAfter self.now) own others
            → left.items ≡ by_apid (left_in (own channel) (others channel))) }
    {
        let mut left = self.left(station, channel)?;
        left.sort_by_key(|one| one.apid())?;
        Ok(left)
    }
}

// Whether each packet has a counterpart, on all channels.
fn are_matched<S: BuildHasher + Copy>(channels: &[Channel<S>]) -> bool
    ensures { (firsts seconds : ByChannel) → AreChannels channels.now firsts seconds
        → (IsTrue result ↔ NothingIsLeft firsts seconds) }
{
    for channel in channels {
        if !channel.is_matched() {
            return false;
        }
    }
    true
}

// Whether each packet that has a counterpart has its number, on all channels.
fn are_in_place<S: BuildHasher + Copy>(channels: &[Channel<S>]) -> bool
    ensures { (firsts seconds : ByChannel) → AreChannels channels.now firsts seconds
        → (IsTrue result ↔ ((channel : ℕ) → AreInPlace (firsts channel) (seconds channel))) }
{
    for channel in channels {
        if !channel.is_in_place() {
            return false;
        }
    }
    true
}

impl<S: BuildHasher + Copy> PacketSink for Pairing<S> {
    ghost use Rattle.sl_pair.specs.Pairing.{RefusesPacket, TakesPacket};

    ghost taking = { TakesPacket };

    ghost failing = { RefusesPacket };

    ghost failures = { λ pairing. pairing.failures };

    fn packet(&mut self, channel: u16, p: &[u8]) -> Result<(), SinkFault> {
        let turn = self.turn;
        let paired = pair_on(
            self.alloc,
            self.hasher,
            &mut self.channels,
            usize::from(channel),
            turn,
            p,
        );
        if paired.is_err() {
            self.failures = self.failures.saturating_add(1);
            return Err(SinkFault::Memory);
        }
        Ok(())
    }
}

// Takes the next packet of a station's recording on a channel.
fn pair_on<S: BuildHasher + Copy>(
    alloc: Global,
    hasher: S,
    channels: &mut Vec<Channel<S>>,
    channel: usize,
    station: Station,
    packet: &[u8],
) -> Result<(), AllocError>
    requires { IsPacket packet.now }
    ensures { OnOk result ((own others : ByChannel)
        → in_order station (AreChannels channels.old.items) own others
        → in_order station (AreChannels channels.new.items)
        (with_packet own channel packet.now) others) }
{
    grow_to(alloc, hasher, channels, channel)?;
    channels[channel].pair(alloc, station, packet)
}

// Adds channels on which no packet came, up to this one.
fn grow_to<S: BuildHasher + Copy>(
    alloc: Global,
    hasher: S,
    channels: &mut Vec<Channel<S>>,
    channel: usize,
) -> Result<(), AllocError>
    ensures reached { OnOk result (channel < vec_len channels.new) }
    ensures kept { OnOk result ((firsts seconds : ByChannel)
        → AreChannels channels.old.items firsts seconds
        → AreChannels channels.new.items firsts seconds) }
{
    while channels.len() <= channel {
        channels.push(Channel::new(alloc, hasher))?;
    }
    Ok(())
}
