//! The listed job.
use crate::score::Score;
use job::print;

/// The path 0–1–2 settled from its middle.
pub fn listed() -> Score {
    let job =
        b"N\x03\0\0\0\0\0\0L\0\x01\0\0\0\0\0L\x01\x02\0\0\0\0\0D\x01\0\0\0\0\0\x01M\0\0\0\0\0\0\x06D\0\0\0\0\0\0\x01M\0\0\0\0\0\0\x03D\x02\0\0\0\0\0\x01M\0\0\0\0\0\0\x03D\x01\0\0\0\0\0\x01";
    let mut score = Score::default();
    score.count(print(job).as_bytes() == b"0 2 2 1\n1 1 1 1\n2 3 3 1\nend 12 1 3\n".as_slice());
    score
}
