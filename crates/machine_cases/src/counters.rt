//! Runs of counters that call one another: the first counter, and its actions, `count`, `call` and `return`.

use case_texts::Case;
use nested_runs::{Action, Counters, RunError, run};

fn action_of(case: &mut Case<'_>, word: &str) -> Action {
    match word {
        "call" => Action::Call,
        "count" => Action::Count,
        "return" => Action::Return,
        _ => {
            case.malformed("no action");
            Action::Return
        }
    }
}

fn actions_of(case: &mut Case<'_>) -> Vec<Action> {
    let mut actions = Vec::new(case.alloc());
    for word in case.rest().split_whitespace() {
        let action = action_of(case, word);
        case.add(&mut actions, action);
    }
    actions
}

fn state_of(counters: &Counters) -> &'static str {
    if counters.has_ended() {
        "ended"
    } else if counters.can(Action::Count) {
        "may count"
    } else {
        "may return"
    }
}

fn put_counters(case: &mut Case<'_>, counters: &Counters) {
    case.put("spent ");
    case.show(&counters.spent());
    case.put(" left ");
    case.show(&counters.running());
    case.put_word(state_of(counters));
}

pub fn answer(case: &mut Case<'_>) {
    let counter = case.number();
    let actions = actions_of(case);
    match run(case.alloc(), counter, &actions) {
        Ok(counters) => put_counters(case, &counters),
        Err(RunError::Stuck) => case.put("stuck"),
        Err(RunError::Memory) => case.put("memory"),
    }
}
