//! How captures and packets lie in octets: numbers, sizes and places, each named once for the readers and for the
//! definitions. Places count from 0 at the first octet of a file, of a record, of a frame, of a packet or of a UDP header.

/// The header of a file (PCAP Capture File Format, 4 "File Header").
pub(crate) mod file {
    pub(crate) const SIZE: usize = 24;

    pub(crate) const MAJOR: usize = 4;

    pub(crate) const LINK: usize = 20;
    /// The number that a file begins with whose fractions of a second are microseconds.
    pub(crate) const MICROSECONDS: u32 = 0xa1b2c3d4;
    /// The number that a file begins with whose fractions of a second are nanoseconds.
    pub(crate) const NANOSECONDS: u32 = 0xa1b23c4d;
    /// The major version of the files that are read.
    pub(crate) const VERSION: u16 = 2;
    /// How many link types there are: the field has other things above them.
    pub(crate) const LINKS: u32 = 0x10000;
}

/// The link types whose frames are read from any capture (the registry of link types of the PCAP Capture File Format).
pub(crate) mod link_type {
    /// LINKTYPE_NULL: four octets stand in front of the packet.
    pub(crate) const LOOPBACK: u32 = 0;
    /// LINKTYPE_ETHERNET.
    pub(crate) const ETHERNET: u32 = 1;
    /// LINKTYPE_RAW.
    pub(crate) const RAW: u32 = 101;
    /// LINKTYPE_LOOP, which differs from LINKTYPE_NULL in the order of the four octets.
    pub(crate) const LOOP: u32 = 108;
    /// LINKTYPE_LINUX_SLL.
    pub(crate) const COOKED_1: u32 = 113;
    /// LINKTYPE_IPV4.
    pub(crate) const RAW_IPV4: u32 = 228;
    /// LINKTYPE_IPV6.
    pub(crate) const RAW_IPV6: u32 = 229;
    /// LINKTYPE_LINUX_SLL2.
    pub(crate) const COOKED_2: u32 = 276;
}

/// The header of a frame (PCAP Capture File Format, 5 "Packet Record").
pub(crate) mod record {
    pub(crate) const SIZE: usize = 16;
    /// When it was captured, in seconds since 1970 began (UTC).
    pub(crate) const SECONDS: usize = 0;
    /// The fraction of a second behind these.
    pub(crate) const FRACTION: usize = 4;
    /// How many octets of the frame were captured.
    pub(crate) const CAPTURED: usize = 8;
    /// The most octets that tools capture of a frame (MAXIMUM_SNAPLEN of libpcap).
    pub(crate) const MOST: usize = 262_144;
}

/// Times in nanoseconds.
pub(crate) mod time {
    pub(crate) const SECOND: u64 = 1_000_000_000;

    pub(crate) const MICROSECOND: u64 = 1_000;
}

/// The header of an Ethernet frame (IEEE 802.3, 3.1.1 "Packet format").
pub(crate) mod ethernet {
    pub(crate) const SIZE: usize = 14;

    pub(crate) const TYPE: usize = 12;
    /// The type of a frame that carries an IPv4 packet.
    pub(crate) const IPV4: u16 = 0x0800;
    /// The type of a frame that carries an IPv6 packet (RFC 2464, 3 "Frame Format").
    pub(crate) const IPV6: u16 = 0x86dd;
}

/// The tag of a frame, which stands in place of a type (IEEE 802.1Q, 9 "Tag formats").
pub(crate) mod tag {
    pub(crate) const SIZE: usize = 4;
    /// Where the type stands that the tag has behind it, counted from the end of the tag's own type.
    pub(crate) const TYPE: usize = 2;
    /// The type of a customer's tag.
    pub(crate) const CUSTOMER: u16 = 0x8100;
    /// The type of a service's tag.
    pub(crate) const SERVICE: u16 = 0x88a8;
    /// The type that older devices write for a service's tag.
    pub(crate) const OLDER: u16 = 0x9100;
}

/// What stands in front of the packet in a frame of the loopback (LINKTYPE_NULL, LINKTYPE_LOOP).
pub(crate) mod loopback {
    pub(crate) const SIZE: usize = 4;
}

/// The header of a Linux cooked frame (LINKTYPE_LINUX_SLL).
pub(crate) mod cooked_1 {
    pub(crate) const SIZE: usize = 16;

    pub(crate) const TYPE: usize = 14;
}

/// The header of a Linux cooked frame of version 2 (LINKTYPE_LINUX_SLL2).
pub(crate) mod cooked_2 {
    pub(crate) const SIZE: usize = 20;

    pub(crate) const TYPE: usize = 0;
}

/// The header of a packet (RFC 791 "Internet Protocol", 3.1 "Internet Header Format").
pub(crate) mod packet {
    /// The size of a header without options.
    pub(crate) const LEAST: usize = 20;

    pub(crate) const TOTAL: usize = 2;

    pub(crate) const FRAGMENT: usize = 6;

    pub(crate) const PROTOCOL: usize = 9;
    /// The version, which is the high half of the first octet.
    pub(crate) const VERSION: u8 = 4;
    /// Below this are the flag for more fragments and the fragment's offset, and none of the other flags.
    pub(crate) const FRAGMENT_BITS: u16 = 0x4000;
    /// The protocol of UDP.
    pub(crate) const UDP: u8 = 17;

    pub(crate) const IDENTIFICATION: usize = 4;

    pub(crate) const SOURCE: usize = 12;

    pub(crate) const DESTINATION: usize = 16;
    /// Below this is the fragment's offset; the bit above it says that more fragments come.
    pub(crate) const OFFSETS: u16 = 0x2000;
    /// How many octets an offset counts as one.
    pub(crate) const UNIT: usize = 8;
    /// The most octets that a packet has behind its header.
    pub(crate) const MOST: usize = 65535;
    /// The most packets in pieces that are kept of two hosts.
    pub(crate) const MOST_KEPT: usize = 64;
}

/// The header of a packet of version 6 (RFC 8200 "Internet Protocol, Version 6", 3 "IPv6 Header Format").
pub(crate) mod packet_6 {
    pub(crate) const SIZE: usize = 40;

    pub(crate) const VERSION: u8 = 6;

    pub(crate) const PAYLOAD: usize = 4;

    pub(crate) const NEXT: usize = 6;

    pub(crate) const SOURCE: usize = 8;

    pub(crate) const DESTINATION: usize = 24;
}

/// The extension headers of a packet of version 6 (RFC 8200, 4 "IPv6 Extension Headers").
pub(crate) mod extension {
    /// The least size of a header, and the unit of its length.
    pub(crate) const SIZE: usize = 8;
    /// Where its length stands: how many units there are behind the first.
    pub(crate) const LENGTH: usize = 1;

    pub(crate) const HOP_BY_HOP: u16 = 0;

    pub(crate) const ROUTING: u16 = 43;

    pub(crate) const DESTINATION: u16 = 60;
    /// The fragment header (4.5 "Fragment Header").
    pub(crate) const FRAGMENT: u16 = 44;
    /// Where the offset of a fragment stands: its high 13 bits; the lowest bit says that more fragments come.
    pub(crate) const OFFSET: usize = 2;

    pub(crate) const IDENTIFICATION: usize = 4;
}

/// The header of UDP (RFC 768 "User Datagram Protocol", "Format").
pub(crate) mod udp {
    pub(crate) const SIZE: usize = 8;

    pub(crate) const LENGTH: usize = 4;

    pub(crate) const CHECKSUM: usize = 6;
}

/// The blocks of a pcapng file (PCAP Now Generic Capture File Format, 3 "General File Structure").
pub(crate) mod block {
    /// The type and the length in front of the body, and the length behind it.
    pub(crate) const LEAST: usize = 12;

    pub(crate) const LENGTH: usize = 4;

    pub(crate) const BODY: usize = 8;
    /// The size of the length behind the body.
    pub(crate) const REPETITION: usize = 4;
    /// Lengths are multiples of this.
    pub(crate) const UNIT: usize = 4;
    /// Section Header Block, whose type has the same octets in both orders (4.1).
    pub(crate) const SECTION: u32 = 0x0a0d0d0a;
    /// Interface Description Block (4.2).
    pub(crate) const INTERFACE: u32 = 1;
    /// Packet Block, which is obsolete (A "Packet Block").
    pub(crate) const OLD: u32 = 2;
    /// Simple Packet Block (4.4).
    pub(crate) const SIMPLE: u32 = 3;
    /// Enhanced Packet Block (4.3).
    pub(crate) const ENHANCED: u32 = 6;
}

/// The fields of a Section Header Block, counted from the block's first octet.
pub(crate) mod section {
    pub(crate) const FIXED: usize = 16;

    pub(crate) const MAGIC: usize = 8;

    pub(crate) const MAJOR: usize = 12;
    /// The number that tells the order of the section's numbers.
    pub(crate) const BYTE_ORDER: u32 = 0x1a2b3c4d;
    /// The major version of the sections that are read.
    pub(crate) const VERSION: u16 = 1;
}

/// The fields of an Interface Description Block, counted from the first octet of its body.
pub(crate) mod interface {
    pub(crate) const FIXED: usize = 8;

    pub(crate) const LINK: usize = 0;
    /// The most octets that are captured of a frame; 0 is no limit.
    pub(crate) const SNAP: usize = 4;
}

/// The options of a block (PCAP Now Generic Capture File Format, 3.5 "Options"), counted from the option's first octet.
pub(crate) mod option {
    pub(crate) const LENGTH: usize = 2;
    /// Where its value begins.
    pub(crate) const VALUE: usize = 4;
    /// The code of the end of options.
    pub(crate) const END: u16 = 0;
    /// The code of an interface's resolution (if_tsresol).
    pub(crate) const RESOLUTION: u16 = 9;
    /// The code of its offset (if_tsoffset).
    pub(crate) const OFFSET: u16 = 14;
    /// The resolution where none is told: microseconds.
    pub(crate) const USUAL_RESOLUTION: u8 = 6;
}

/// The fields of the blocks that have a frame, counted from the first octet of their body.
pub(crate) mod packet_block {
    /// The size of the fields in front of the frame, in an Enhanced Packet Block and in a Packet Block.
    pub(crate) const FIXED: usize = 20;
    /// Two words that say when the frame was captured, in units of its interface: the high half comes first in both orders.
    pub(crate) const TICKS: usize = 4;

    pub(crate) const CAPTURED: usize = 12;
    /// The size of the field in front of the frame in a Simple Packet Block: the frame's own length.
    pub(crate) const SIMPLE: usize = 4;
}
