// Writing records, each made of 20 bytes of the input, one behind the other into the room of a page. The sum is that of the page's bytes.
use crate::tally::Counts;
use records::{Record, write_record};

const RECORD: usize = 20;

// The fields as a log has them. Nothing is judged here, since the writer judges.
fn record_in(bytes: &[u8; RECORD]) -> Record {
    let [
        t0,
        t1,
        t2,
        t3,
        t4,
        t5,
        t6,
        t7,
        kind,
        address,
        s0,
        s1,
        s2,
        status,
        w0,
        w1,
        w2,
        family,
        _,
        _,
    ] = *bytes;
    Record {
        time: u64::from_le_bytes([t0, t1, t2, t3, t4, t5, t6, t7]),
        kind,
        address,
        serial: u32::from_le_bytes([s0, s1, s2, 0]),
        status,
        w0,
        w1,
        w2,
        family,
    }
}

fn sum_of(page: &[u8]) -> u64 {
    page.iter()
        .fold(0, |sum: u64, byte| sum.wrapping_add(*byte as u64))
}

pub(crate) fn write_records(counts: &mut Counts, block: &[u8], page: &mut [u8]) {
    let (records, _) = block.as_chunks::<RECORD>();
    for (bytes, room) in records.iter().zip(page.chunks_exact_mut(RECORD)) {
        counts.add(write_record(record_in(bytes), room).map(|length| length as u64));
    }
    counts.sum = counts.sum.wrapping_add(sum_of(page));
}
