//! What is counted of an answer.
ghost use Rattle.std.specs.Prelude.{◌≡◌};
ghost use Rattle.job.specs.Play.{brought, failed, nothing};

use law::Answer;

/// Whether a delivery brought nothing.
pub(crate) fn is_nothing(answer: Answer) -> bool
    ensures { result ≡ nothing answer }
{
    matches!(answer, Answer::Delivered(Ok(None)))
}

/// 1 for a delivery that brought a message.
pub(crate) fn brought_by(answer: Answer) -> usize
    ensures { result ≡ brought answer }
{
    usize::from(matches!(answer, Answer::Delivered(Ok(Some(_)))))
}

/// 1 for a refusal.
pub(crate) fn failed_by(answer: Answer) -> usize
    ensures { result ≡ failed answer }
{
    usize::from(matches!(
        answer,
        Answer::Drawn(Err(_)) | Answer::Delivered(Err(_)) | Answer::Nudged(Err(_))
    ))
}
