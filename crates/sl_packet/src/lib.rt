//! Space packets of CCSDS 133.0-B: how packets are found at the front of octets, how they are
//! handed to a sink, and how they are kept. The crate also says how many octets are still missing
//! for a whole packet, collects packets that come in parts, and makes idle packets.
//!
//! A packet has version 0 and the length that its header states. No other field decides whether
//! octets are a packet, and the packet data field isn't looked at.
//!
//! No packet is a proper prefix of another packet ([`laws`]), so octets begin with at most one
//! packet.
#![tactic(auto)]

mod delivered;
mod flow_fault;
mod idle;
pub mod laws;
mod outline;
mod packet;
mod packets;
mod partial;
mod reassembly;
mod sink;

pub use delivered::Delivered;
pub use flow_fault::FlowFault;
pub use idle::{is_idle, push_idle};
pub use outline::Outline;
pub use packet::{first_packet, need};
pub use packets::{Packets, count_packets};
pub use partial::Need;
pub use reassembly::{LONGEST_PACKET, add_part, give_back};
pub use sink::{HandedOver, PacketSink, SinkFault, hand_over};
