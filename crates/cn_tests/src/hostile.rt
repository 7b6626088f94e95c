//! Hostile inputs and stalled workers: a batch cut at each of its bytes, reads that fail after many records, texts of
//! as many records as may be and one more, long ones that are flushed once, and workers that are held before each of
//! their moments.

mod batch_cuts;
mod computed;
mod failed_reads;
mod limits;
mod long_texts;
mod runs;
mod stalling;
