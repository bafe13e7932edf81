//! What the words of this crate's contracts mean: laws about definitions, each the contract of a
//! function that does nothing.
ghost use Rattle.goref_session.specs.Laws.{AnswersEnd, OneLoad, PlainAnswers, SomeReply};

use go_record::laws::one_outcome;
use go_sgf::laws::one_record;

/// For each standing, each line and each fetched file there is an answer.
pub fn some_reply()
    ensures { SomeReply }
{}

/// One game at most comes of the bytes of a file, and where one does they aren't refused.
pub fn one_load()
    ensures { OneLoad }
{
    one_record();
    one_outcome();
}

/// Nothing is said to a line without words. What is said to any other line has one empty line, at
/// its end, by which a controller finds that end.
pub fn answers_end()
    ensures { AnswersEnd }
{}

/// No byte of an answer is below a space, line ends aside.
pub fn plain_answers()
    ensures { PlainAnswers }
{}
