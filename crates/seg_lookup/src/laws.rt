//! Laws of the definitions that the crate's contracts cite. Each law is the contract of a function
//! that does nothing, so that the law is proved with the crate.

ghost use Rattle.seg_lookup.specs.AnswerLaws.{AnswersAreShort, AnswersAreWanted, AnswersRise, AnswersAreComplete};
ghost use Rattle.seg_lookup.specs.PageLaws.{FirstPageIsTheAnswer, PagesFollowEachOther, PagesAreComplete};
ghost use Rattle.seg_lookup.specs.ClassificationLaws.{RostersHaveTheirCores, QueriesStartAtACore};

/// A roster has just the ASes that it was made of.
pub fn rosters_have_their_cores()
    ensures { RostersHaveTheirCores }
{}

/// A query goes from one side to the other, and starts at one that is core.
pub fn queries_start_at_a_core()
    ensures { QueriesStartAtACore }
{}

/// An answer has at most as many rows as its limit.
pub fn answers_are_short()
    ensures { AnswersAreShort }
{}

/// Each row of an answer is one of the database's, matches the query, and is valid.
pub fn answers_are_wanted()
    ensures { AnswersAreWanted }
{}

/// The keys of an answer rise.
pub fn answers_rise()
    ensures { AnswersRise }
{}

/// Each row that matches and is valid is in the answer, or the answer is full of rows below it.
pub fn answers_are_complete()
    ensures { AnswersAreComplete }
{}

/// The first page has the rows of the answer.
pub fn first_page_is_the_answer()
    ensures { FirstPageIsTheAnswer }
{}

/// After the rows of a page come those that are wanted after the id of its last row, and no others.
pub fn pages_follow_each_other()
    ensures { PagesFollowEachOther }
{}

/// Pages that follow each other have all wanted rows, each once.
pub fn pages_are_complete()
    ensures { PagesAreComplete }
{}
