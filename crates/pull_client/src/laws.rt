//! Laws of the answers and of the messages. The calls do nothing; their clauses are the laws.
ghost use Rattle.http_frames.specs.OneAnswer.{OneReplyAnswer};
ghost use Rattle.pull_client.specs.Fitting.{MessagesFit};
ghost use Rattle.pull_client.specs.Meaning.{OneMeaning};

use http_frames::one_answer;

/// What came of a request means one answer of a call, where memory was not refused: the errors and the values of each
/// call exclude each other.
pub fn one_meaning()
    ensures { OneMeaning }
{
    one_answer();
}

/// The message of a report in size is a body that a server takes: it has at most 131,072 bytes.
pub fn messages_fit()
    ensures { MessagesFit }
{}
