//! The text of a packet's header between its APID and its count.
ghost use Rattle.std.specs.Prelude.{◌≡◌, ◌+◌, ◌*◌, ◌<◌};
ghost use Rattle.sl_fields.specs.Field.{bit_of};
ghost use Rattle.sl_engine.specs.Verbs.Packets.Line.{header_bits_text};

use sl_fields::PacketHeader;

/// What a line says of a header between its APID and its count, with the name of the count.
#[inline(always)]
pub fn bits_text(header: &PacketHeader) -> [u8; 34]
    ensures { result ≡ header_bits_text header.now }
{
    TEXTS[usize::from(bits_number(header))]
}

// The packet type, the secondary header flag and the sequence flags as four bits.
#[inline(always)]
fn bits_number(header: &PacketHeader) -> u8
    ensures number { result
        ≡ 8 * header.now.kind + 4 * bit_of header.now.secondary + header.now.flags }
    ensures fits { result < 16 }
    ensures kind { header.now.kind < 2 }
    ensures flags { header.now.flags < 4 }
{
    8 * header.kind() + 4 * u8::from(header.secondary()) + header.flags()
}

// The text of each such number.
static TEXTS: [[u8; 34]; 16] = [
    *b" type 0 secondary 0 flags 0 count ",
    *b" type 0 secondary 0 flags 1 count ",
    *b" type 0 secondary 0 flags 2 count ",
    *b" type 0 secondary 0 flags 3 count ",
    *b" type 0 secondary 1 flags 0 count ",
    *b" type 0 secondary 1 flags 1 count ",
    *b" type 0 secondary 1 flags 2 count ",
    *b" type 0 secondary 1 flags 3 count ",
    *b" type 1 secondary 0 flags 0 count ",
    *b" type 1 secondary 0 flags 1 count ",
    *b" type 1 secondary 0 flags 2 count ",
    *b" type 1 secondary 0 flags 3 count ",
    *b" type 1 secondary 1 flags 0 count ",
    *b" type 1 secondary 1 flags 1 count ",
    *b" type 1 secondary 1 flags 2 count ",
    *b" type 1 secondary 1 flags 3 count ",
];
