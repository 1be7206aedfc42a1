// The phases' names, each by what is awaited there.
use session::phase;

// A phase's name; - for the mark of a refused move.
pub fn of(phase: u8) -> &'static str {
    match phase {
        phase::START_UP => "start-up",
        phase::PARAMETERS => "parameters",
        phase::AUTHENTICATION => "authentication",
        phase::OUTSIDE => "outside",
        phase::INSIDE => "inside",
        phase::REST_OF_TEXT => "rest-of-text",
        phase::NEXT_OR_GIVE_UP => "next-or-give-up",
        phase::AGAIN_OR_INSIDE => "again-or-inside",
        phase::FILE => "file",
        phase::START_UP_ANSWER => "start-up-answer",
        phase::PARAMETERS_ANSWER => "parameters-answer",
        phase::TIME_ANSWER_OUT => "time-answer-out",
        phase::SET_ANSWER_OUT => "set-answer-out",
        phase::RESET_ANSWER_OUT => "reset-answer-out",
        phase::CLOSE_ANSWER_OUT => "close-answer-out",
        phase::TIME_ANSWER_IN => "time-answer-in",
        phase::SET_ANSWER_IN => "set-answer-in",
        phase::RESET_ANSWER_IN => "reset-answer-in",
        phase::CLOSE_ANSWER_IN => "close-answer-in",
        phase::LOAD_ERROR_ANSWER => "load-error-answer",
        phase::AUTHENTICATION_ANSWER => "authentication-answer",
        phase::BEGIN_ANSWER => "begin-answer",
        phase::STATEMENT_ANSWER => "statement-answer",
        phase::UPDATE_ANSWER => "update-answer",
        phase::DELIVERY => "delivery",
        phase::REST_OF_ITEM => "rest-of-item",
        phase::AGAIN_ANSWER => "again-answer",
        phase::COMMIT_ANSWER => "commit-answer",
        phase::ROLLBACK_ANSWER => "rollback-answer",
        phase::FILE_ANSWER => "file-answer",
        phase::CLOSED => "closed",
        phase::REFUSED => "-",
        _ => "NO NAME",
    }
}
