// What came of asking calendars.
use ots_asking::Outcome;
use ots_row_words::Said;

/// Says what came of a conversation.
pub fn say_outcome(outcome: &Outcome, said: &mut Said) {
    match outcome {
        Outcome::Tree(tree) => {
            said.count(tree.tokens().len());
            said.word("tokens");
        }
        Outcome::Unreachable => said.word("unreachable"),
        Outcome::Status(code) => {
            said.word("status");
            said.number(u64::from(*code));
        }
        Outcome::TooLong => said.word("too long"),
        Outcome::BadHttp => said.word("not http"),
        Outcome::BadReply(fault) => {
            said.word("bad reply at");
            said.number(fault.place);
            said.push(":");
            said.word(fault.reason.words());
        }
    }
    said.push(";");
}

/// Says what came of each of some conversations.
pub fn say_outcomes(outcomes: &[Outcome], said: &mut Said) {
    said.push("=");
    for outcome in outcomes {
        say_outcome(outcome, said);
    }
    said.push("\n");
}
