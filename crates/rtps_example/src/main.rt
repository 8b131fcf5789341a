//! An example of the library in a program of your own: datagrams that are in memory already are audited, with no
//! recording and no file. It prints a sentence for each pair, and what was counted.
#![tactic(auto)]

mod datagrams;

use rtps_audit::{Counts, Row, Verdict, audit};
use std::io;

fn main(rt: HostRuntime) -> io::Result<()> {
    // All datagrams that were sent, and no others, in the order of sending.
    let recording = [
        datagrams::WRITER_IS_ANNOUNCED,
        datagrams::FIRST_READER_IS_ANNOUNCED,
        datagrams::SECOND_READER_IS_ANNOUNCED,
        datagrams::NUMBER_1,
        datagrams::NUMBER_2_AND_HEARTBEAT,
        datagrams::FIRST_READER_HAS_BOTH,
        datagrams::SECOND_READER_HAS_NUMBER_1,
    ];
    let Ok(report) = audit(rt.alloc(), &recording) else {
        return Err(io::ErrorKind::OutOfMemory.into());
    };
    for row in &report.rows {
        print_row(&rt, row)?;
    }
    print_counts(&rt, &report.counts)
}

fn print_row(rt: &HostRuntime, row: &Row) -> io::Result<()> {
    let (writer, reader) = (row.pair.writer, row.pair.reader);
    match row.verdict {
        Verdict::Complete { last } => { println!(rt; "{reader} has all of {writer}, 1 to {last}") }
        Verdict::Open { number } => { println!(rt; "{reader} may lack {number} of {writer}") }
        Verdict::Conflict { number } => { println!(rt; "{writer} sent two payloads for {number}") }
        Verdict::Unfounded { datagram, number } => {
            println!(rt;
                "{reader} claims {number} of {writer} in datagram {datagram}, which nothing told it"
            )
        }
    }
}

/// Above 0, a count tells what the rows do not speak of.
fn print_counts(rt: &HostRuntime, counts: &Counts) -> io::Result<()> {
    println!(rt;
        "{} datagrams, {} refused",
        counts.datagrams, counts.refused
    )?;
    println!(rt;
        "{} fragments, {} answers to nobody",
        counts.fragments, counts.undirected
    )
}
