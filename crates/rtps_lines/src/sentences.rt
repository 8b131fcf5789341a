//! The sentences that the program says, each once. The definitions name them; the tables of the documents and the second implementation read
//! them here: a constant is one string.

/// What to do for a pair.
pub mod advice {
    pub const TWO_LIVES: &str =
        "two processes use the GUID of a participant of this pair, as after a copied disk image or a restart: the pair is a mixture of both";

    pub const READER_ENDED: &str =
        "the reader's process ended without leaving, or was cut off: see what it did";

    pub const WRITER_ENDED: &str =
        "the writer's process ended without leaving, or was cut off: see what it did";

    pub const NOT_ANNOUNCED: &str =
        "its announcements are lost on the way: look at large announcements in IP fragments, and at multicast";

    pub const NOTHING_BACK: &str = "nothing comes back from ";

    pub const BY_FIREWALL: &str = ": a firewall, or another interface";

    pub const LOST: &str =
        "it was sent and did not reach the reader's host: look at the network; raise the history depth, so that the writer still has what is asked for again";

    pub const MATCHED_LATE: &str =
        "the two matched late: what was written before that was not for it; use transient local, or wait for the match";

    pub const MISSED_UNSENT: &str =
        "the reader asked for it and the recording has none: it was lost before this recording, or record at the writer's side";

    pub const MISSED_AGAIN: &str =
        "it was sent again, and nothing shows that it arrived: look at the network; a recording at the reader's side tells";

    pub const MISSED_ONCE: &str =
        "the reader asked for it and the writer did not send it again: raise the history depth or the lifespan, and look at the network";

    pub const UNSENT: &str =
        "the recording has none for this reader: at the reader's side it was lost on the way; at the writer's side a content filter or a short history kept it back";

    pub const UNANSWERED: &str =
        "it was asked about and gave no answer until the writer had dropped them: an outage of the network or of the reader; raise the history depth if these must not be lost";

    pub const TAIL: &str =
        "stop publishing some seconds before the recording ends, or allow a tail (--tail)";

    pub const UNREAD: &str =
        "it may be in a fragment or frame that was not read: see below what to do for these";

    pub const OPEN_UNTOLD: &str =
        "the recording does not have it: record at the writer's side, on the interface that it uses";

    pub const LEFT: &str =
        "it was never asked, or its answers are not in the recording: see that it took anything";

    pub const NOT_ASKED: &str =
        "the reader may have all: stop publishing, wait some seconds, and only then end the recording";

    pub const JUST_ASKED: &str = "record longer";

    pub const NEVER_ANSWERED: &str =
        "the reader was asked and acknowledged nothing: see that it runs, and record both directions";

    pub const SILENT: &str =
        "the reader was asked and did not answer: it ended, nothing reaches it, or its answers take another way";

    pub const ALIKE: &str =
        "compare their octets: the writer makes a new payload to resend it, or two processes use one GUID";

    pub const UNLIKE: &str =
        "two processes use one GUID, as after a copied disk image or a restart; or the writer has a defect";

    pub const RELAYED: &str =
        "the sample and the answer are in one datagram: a relay packed them, or the recording was changed";

    pub const LATE: &str =
        "the datagrams are out of order, or the copy that the reader received is not here: record on one host";

    pub const UNANNOUNCED: &str =
        "the reader acknowledged what nobody announced: it has a defect, or another writer had this GUID before";

    pub const BEGAN_LATE: &str = "record from before the start of the participants";

    pub const LACKING: &str =
        "the recording lacks it: see how many packets tcpdump says it dropped, and switch off shared memory";
}

/// Why there is no pair to judge, and what to do.
pub mod no_pair {
    pub const BEST_EFFORT: &str =
        "all pairs that match are of best effort: they are counted below, and not judged";

    pub const NO_RTPS: &str =
        "nothing of RTPS is in this recording: see that it has the ports of DDS (udp, 7400 and above)";

    pub const EARLY: &str = "record from before the start: ";

    pub const EARLY_ONE: &str = "participant speaks before it is announced, or is";

    pub const EARLY_MANY: &str = "participants speak before they are announced, or are";

    pub const NEVER_ANNOUNCED: &str = " never announced";

    pub const NO_PARTICIPANT: &str = "no participant is announced";

    pub const SHARED_MEMORY: &str =
        "both ends are on this host and use shared memory, which no capture has";

    pub const ONE_HOST: &str = "nothing of another host is in this recording";

    pub const NOT_TOLD: &str = "discovery is not complete: see below who was never told of what";

    pub const ONE_WAY: &str = "see below which participants never answer";

    pub const UNMATCHED: &str = "see below which writers and readers do not match";

    pub const LEFT_OUT: &str =
        "record where the datagrams of the readers and the writers pass, and switch off shared memory";

    pub const WRITER_ALONE: &str = " has a writer and no reader";

    pub const READER_ALONE: &str = " has a reader and no writer";

    pub const UNKNOWN: &str = "see in rtps-audit list --any FILE what is announced";
}

/// What weakens a report, and what to do: words for how much there is, and what stands behind an arrow. Those with THERE are of a recording at the
/// reader's host.
pub mod noted {
    pub const LIKELY_ONE: &str = "number is likely received";

    pub const LIKELY_MANY: &str = "numbers are likely received";

    pub const LIKELY_REMEDY: &str =
        "they were sent, and acknowledged without being asked for again: with KEEP_LAST a writer drops samples before it asks";

    pub const PIECES_ONE: &str = "frame is a fragment of a packet that is not whole";

    pub const PIECES_MANY: &str = "frames are fragments of packets that are not whole";

    pub const PIECES_REMEDY: &str =
        "record at the writer's side, and see that tcpdump drops nothing: they may have samples or announcements";

    pub const CUT_ONE: &str = "frame is cut";

    pub const CUT_MANY: &str = "frames are cut";

    pub const CUT_REMEDY: &str =
        "record whole frames, without a snap length (tcpdump -s), and end tcpdump with Ctrl-C";

    pub const LINKS_ONE: &str = "frame is of a link that is not read";

    pub const LINKS_MANY: &str = "frames are of links that are not read";

    pub const LINKS_REMEDY: &str =
        "record on an Ethernet, loopback or raw IP interface, or with tcpdump -i any";

    pub const OF_TYPE: &str = ", of type ";

    pub const FIRST_OF_TYPE: &str = ", the first of type ";

    pub const OTHER_ONE: &str = "frame carries no UDP over IP";

    pub const OTHER_MANY: &str = "frames carry no UDP over IP";

    pub const OTHER_REMEDY: &str = "nothing is to be done: ARP, TCP and ICMP are such frames";

    pub const FRAGMENTS_ONE: &str = "fragment is of a sample that is not whole";

    pub const FRAGMENTS_MANY: &str = "fragments are of samples that are not whole";

    pub const FRAGMENTS_REMEDY: &str =
        "record at the writer's side, and see that tcpdump drops nothing: pairs with such samples may not be complete";

    pub const UNSETTLED_ONE: &str = "endpoint announced itself in two ways";

    pub const UNSETTLED_MANY: &str = "endpoints announced themselves in two ways";

    pub const UNSETTLED_REMEDY: &str =
        "they are in no pair: see that no process starts again with its old GUID, and that no QoS changes";

    pub const REFUSED_ONE: &str = "datagram is malformed";

    pub const REFUSED_MANY: &str = "datagrams are malformed";

    pub const REFUSED_REMEDY: &str =
        "rtps-audit show --any FILE prints refused and the fault: what stands behind it is not read";

    pub const BACK: &str = "times go back by up to ";

    pub const BACK_REMEDY: &str =
        "the datagrams are out of order: reordercap FILE OUT sorts them by time, and OUT can be checked";

    pub const ONE_HOST_REMEDY: &str =
        "if there are other hosts, multicast may be blocked between them";

    pub const TALKING_ONE: &str = "pair talks though it does not match by the standard";

    pub const TALKING_MANY: &str = "pairs talk though they do not match by the standard";

    pub const LEFT_OUT_ONE: &str = "pair is left out, ";

    pub const LEFT_OUT_MANY: &str = "pairs are left out, ";

    pub const ONE_PARTICIPANT: &str = "of one participant (it needs no network)";

    pub const TWO_DOMAINS: &str = "of two domains (they never meet)";

    pub const ONE_WAY: &str = "talking one way (the reader never answers)";

    pub const SILENT: &str = "silent here (shared memory, another host or interface)";

    pub const BEST_EFFORT_ONE: &str = "best-effort pair has ";

    pub const BEST_EFFORT_MANY: &str = "best-effort pairs have ";

    pub const RECORDED_ONE: &str = " number in this recording";

    pub const RECORDED_MANY: &str = " numbers in this recording";

    pub const BEST_EFFORT_REMEDY: &str =
        "at the reader's side the others were lost; at the writer's side the recording lacks them";

    pub const LATE: &str = "the writer wrote nothing since the reader joined: ";

    pub const LATE_REMEDY: &str =
        "if earlier numbers were for it, it was discovered too late: wait for it, or use transient local";

    pub const MATCHED_LATE_ONE: &str = "pair matched late";

    pub const MATCHED_LATE_MANY: &str = "pairs matched late";

    pub const TAIL: &str = " clean with a tail, of at most ";

    pub const HELD_ONE: &str = " number at the reader's host";

    pub const HELD_MANY: &str = " numbers at the reader's host";

    pub const ALONE_ONE: &str = "pair is judged by this recording alone";

    pub const ALONE_MANY: &str = "pairs are judged by this recording alone";

    pub const ALONE_REMEDY: &str =
        "the recording at the reader's host has nothing of the reader to the writer: it was not made at that host";

    pub const ABSENT_ONE: &str = "number is received for certain in";

    pub const ABSENT_MANY: &str = "numbers are received for certain in";

    pub const ABSENT: &str = " and not in the recording at the reader's host";

    pub const ABSENT_REMEDY: &str =
        "it lacks something: see that it ran all the time, and that tcpdump dropped nothing";

    pub const THERE: &str = "at the reader's host: ";

    pub const PIECES_THERE: &str =
        "the other parts were lost on the way: what such packets carry did not arrive";

    pub const CUT_THERE: &str =
        "record whole frames, without a snap length (tcpdump -s), and end tcpdump with Ctrl-C: what is cut is told as not arrived";

    pub const LINKS_THERE: &str =
        "record on an Ethernet, loopback or raw IP interface, or with tcpdump -i any: what is not read is told as not arrived";
}

/// What is told of the order in which two recordings were given.
pub mod ways {
    pub const SWAPPED: &str = "the two recordings look swapped: ";

    pub const WRONG_ONE: &str = "pair is the wrong way round";

    pub const WRONG_MANY: &str = "pairs are the wrong way round";

    pub const SWAPPED_REMEDY: &str = "give the other one first";

    pub const MIXED_ONE: &str =
        "pair is judged by the first recording alone: it is the wrong way round";

    pub const MIXED_MANY: &str =
        "pairs are judged by the first recording alone: they are the wrong way round";

    pub const MIXED_REMEDY: &str = "the other order judges them";

    pub const UNTOLD: &str =
        "nothing tells the two recordings apart: nothing was lost, or both were made at one place";

    pub const TWICE: &str = "one recording was given twice";
}

/// Why a recording is not clean, and what is known where it is.
pub mod reason {
    pub const EMPTY: &str = "there is no pair";

    pub const INCOMPLETE_ONE: &str = "pair is not complete";

    pub const INCOMPLETE_MANY: &str = "pairs are not complete";

    pub const MISSED_ONE: &str = "number was missed in";

    pub const MISSED_MANY: &str = "numbers were missed in";

    pub const UNSENT_ONE: &str = "number was unsent in";

    pub const UNSENT_MANY: &str = "numbers were unsent in";

    pub const UNANSWERED_ONE: &str = "number was unanswered in";

    pub const UNANSWERED_MANY: &str = "numbers were unanswered in";

    pub const LOST_ONE: &str = "likely number did not arrive in";

    pub const LOST_MANY: &str = "likely numbers did not arrive in";

    pub const UNCERTAIN_ONE: &str = "number is not received for certain in";

    pub const UNCERTAIN_MANY: &str = "numbers are not received for certain in";

    pub const UNMATCHED_ONE: &str = "pair does not match";

    pub const UNMATCHED_MANY: &str = "pairs do not match";

    pub const NOT_TOLD_ONE: &str = "participant was not told of ";

    pub const NOT_TOLD_MANY: &str = "participants were not told of ";

    pub const LIVES_ONE: &str = "participant has two lives under one GUID";

    pub const LIVES_MANY: &str = "participants have two lives under one GUID";

    pub const BEST_EFFORT: &str = "no reliable pair; ";

    pub const CLEAN_BEST_EFFORT: &str = ": no reliable pair; ";

    pub const CERTAIN_ONE: &str = " number is received for certain, none is known to be lost";

    pub const CERTAIN_MANY: &str = " numbers are received for certain, none is known to be lost";
}

/// What `check` says in a block of its own.
pub mod block {
    pub const NO_PAIR: &str = "there is no pair to judge";

    pub const CLEAN_ONE: &str = " pair is clean, ";

    pub const CLEAN_MANY: &str = " pairs are clean, ";

    pub const RECEIVED_ONE: &str = " number received";

    pub const RECEIVED_MANY: &str = " numbers received";

    pub const TAIL_ONE: &str = "pair lacks only a tail";

    pub const TAIL_MANY: &str = "pairs lack only a tail";

    pub const UNMATCHED_REMEDY: &str =
        "by the standard nothing passes between them: change what one offers or what the other asks for";

    pub const NOT_TOLD_WRITER: &str = " was never told of the writer of ";

    pub const NOT_TOLD_READER: &str = " was never told of the reader of ";

    pub const LIVES_REMEDY: &str =
        "two processes use one GUID, as after a copied disk image or a restart: give each its own, and record again";

    pub const ONE_WAY_ONE: &str = "pair of participants talks one way";

    pub const ONE_WAY_MANY: &str = "pairs of participants talk one way";

    pub const ONE_WAY_REMEDY: &str = "a firewall, or its datagrams are not in this recording";

    pub const LOST_REMEDY: &str =
        "by best effort nothing is sent again: look at the network, or make both reliable";
}
