//! Laws of the answers. The calls do nothing; their clauses are the laws.
ghost use Rattle.http_frames.specs.OneAnswer.{OneRequestAnswer, HeadOrOpen, OneReplyAnswer, RequestAnswersStay, ReplyErrorsStay};
ghost use Rattle.http_frames.specs.ReadBack.{RepliesReadBack, RequestsReadBack};

/// The causes of answers exclude each other: of the same bytes one answer may come, from `RequestReader::feed` and from
/// `read_answer`, where memory is ample. In one case two may come: of a request's bytes that end inside its target, and
/// that no continuation makes a head, `Head`, or that they are left open.
pub fn one_answer()
    ensures requests { OneRequestAnswer }
    ensures inside_target { HeadOrOpen }
    ensures replies { OneReplyAnswer }
{}

/// Answers stay: what is answered to bytes is answered to them with more bytes after, but that more are wanted. So does
/// an error of `read_answer` other than `Torn`.
pub fn answers_stay()
    ensures requests { RequestAnswersStay }
    ensures replies { ReplyErrorsStay }
{}

/// A message that is written reads back as itself: the text of a request or of an answer that is sendable is its frame, with the lines that
/// are added, and nothing else is answered of these bytes, where memory is ample.
pub fn messages_read_back()
    ensures requests { RequestsReadBack }
    ensures replies { RepliesReadBack }
{}
