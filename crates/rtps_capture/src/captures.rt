/// Which captures are read, and what of them.
#[derive(Clone, Copy)]
pub enum Captures {
    /// Classic ones whose frames are Ethernet frames or IP packets: the UDP datagrams of IPv4 that were sent in one packet.
    Classic,
    /// Classic ones and pcapng files, whose frames are of any link type that is read ([`crate::LinkType`]): the UDP
    /// datagrams of both versions of IP, also those whose packets came in fragments.
    Any,
}
