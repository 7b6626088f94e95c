//! A batch that is cut at each of its bytes, and batches that are no plain lines: the answer is that to the records
//! that csv gives.

use super::runs::{Answer, is_answered};
use crate::serving::{BITONIC_FOUR, FIVE_ON_ONE_ENTRY};
use cn_floor::OpenGate;
use cn_report::BatchCause;
use std::alloc::Global;
use std::hash::RandomState;
use std::sync::Wait;
use std::test::Fail;
use std::thread::Threads;

/// How many bytes are left at most, counted on from the row before, and the answer to each of these cuts. What is
/// left of the header is a header only if it is one of the two. What is left of a record has too few fields, then an
/// entry without digits, and then is the record, with and without the end of its line.
const ANSWERS: [(usize, Answer); 19] = [
    (11, Answer::Refused(0, BatchCause::Header)),
    (12, Answer::Written(b"epoch,client,name\n")),
    (17, Answer::Refused(0, BatchCause::Header)),
    (19, Answer::Written(b"epoch,client,name\n")),
    (23, Answer::Refused(1, BatchCause::FieldCount)),
    (24, Answer::Refused(1, BatchCause::EntryNumber)),
    (26, Answer::Written(b"epoch,client,name\n1,17,0\n")),
    (29, Answer::Refused(2, BatchCause::FieldCount)),
    (30, Answer::Refused(2, BatchCause::EntryNumber)),
    (32, Answer::Written(b"epoch,client,name\n1,17,0\n1,5,1\n")),
    (36, Answer::Refused(3, BatchCause::FieldCount)),
    (37, Answer::Refused(3, BatchCause::EntryNumber)),
    (
        39,
        Answer::Written(b"epoch,client,name\n1,17,0\n1,5,1\n1,99,2\n"),
    ),
    (43, Answer::Refused(4, BatchCause::FieldCount)),
    (44, Answer::Refused(4, BatchCause::EntryNumber)),
    (
        46,
        Answer::Written(b"epoch,client,name\n1,17,0\n1,5,1\n1,99,2\n1,23,3\n"),
    ),
    (50, Answer::Refused(5, BatchCause::FieldCount)),
    (51, Answer::Refused(5, BatchCause::EntryNumber)),
    (
        53,
        Answer::Written(b"epoch,client,name\n1,17,0\n1,5,1\n1,99,2\n1,23,3\n1,42,4\n"),
    ),
];

/// Whether this is the answer to the first bytes of the batch.
fn is_cut<R: Threads + Wait + Sync>(
    rt: &R,
    alloc: Global,
    state: RandomState,
    bytes: usize,
    wanted: Answer,
) -> bool {
    let Some(left) = FIVE_ON_ONE_ENTRY.get(..bytes) else {
        return false;
    };
    is_answered(rt, alloc, state, BITONIC_FOUR, left, &OpenGate, wanted)
}

/// The first cut that is answered otherwise, and how many cuts were looked at before it.
fn wrong_cut<R: Threads + Wait + Sync>(
    rt: &R,
    alloc: Global,
    state: RandomState,
) -> (Option<usize>, usize) {
    let mut cuts = 0;
    for (most, wanted) in &ANSWERS {
        for bytes in cuts..=*most {
            if !is_cut(rt, alloc, state, bytes, *wanted) {
                return (Some(bytes), cuts);
            }
        }
        cuts = *most + 1;
    }
    (None, cuts)
}

/// Batches with other line ends and quotes than plain ones, or with two causes in a record, and the answers: a lone
/// carriage return ends a record; a quote that is left open runs to the end; a quote inside a field is no digit; of
/// causes the first.
const ODD: [(&[u8], Answer); 6] = [
    (
        b"epoch,client,entry\r1,17,3\r1,5,3\r",
        Answer::Written(b"epoch,client,name\n1,17,0\n1,5,1\n"),
    ),
    (
        b"epoch,client,entry\n1,17,\"3",
        Answer::Written(b"epoch,client,name\n1,17,0\n"),
    ),
    (
        b"epoch,client,entry\n1,\"17,3\n1,5,3\n",
        Answer::Refused(1, BatchCause::FieldCount),
    ),
    (
        b"epoch,client,entry\n1,1\"7\",3\n",
        Answer::Refused(1, BatchCause::ClientNumber),
    ),
    (
        b"epoch,client,entry\n2,17,0\n1,18,x\n",
        Answer::Refused(2, BatchCause::EntryNumber),
    ),
    (
        b"epoch,client,entry\n1,17,3\n\xff\xfe",
        Answer::Refused(2, BatchCause::FieldCount),
    ),
];

/// The place of the first of them that is answered otherwise.
fn wrong_odd<R: Threads + Wait + Sync>(rt: &R, alloc: Global, state: RandomState) -> Option<usize> {
    for (place, (batch, wanted)) in ODD.iter().enumerate() {
        if !is_answered(rt, alloc, state, BITONIC_FOUR, *batch, &OpenGate, *wanted) {
            return Some(place);
        }
    }
    None
}

#[test]
fn hostile_batches(rt: HostRuntime) -> Result<(), Fail> {
    let (alloc, state) = (rt.alloc(), RandomState::new(&rt)?);
    let cut = wrong_cut(&rt, alloc, state);
    let odd = wrong_odd(&rt, alloc, state);
    assert_eq!(rt; (cut, odd), ((None, FIVE_ON_ONE_ENTRY.len() + 1), None));
    Ok(())
}
