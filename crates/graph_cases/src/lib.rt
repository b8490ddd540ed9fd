//! What cases on graphs are answered.
#![tactic(auto)]

mod comparing;
mod counting;
mod judging;
mod ordering;
mod reading;
mod telling;

use case_texts::Case;
use graph_core::Graph;

/// What is told of the edges and paths of a graph.
fn tell_paths(case: &mut Case<'_>, what: &str, g: &Graph) {
    match what {
        "edges" => telling::edges(case, g),
        "first-path" => telling::first_path(case, g),
        "on-first-path" => telling::on_first_path(case, g),
        "reversed" => telling::reversed(case, g),
        "without" => telling::without_last(case, g),
        _ => case.malformed("nothing of this name is told of a graph"),
    }
}

/// What is told of the graph that comes next.
fn tell(case: &mut Case<'_>, what: &str) {
    let Some(g) = reading::graph_of(case) else {
        return;
    };
    match what {
        "components" => telling::components(case, &g),
        "covers" => telling::covers(case, &g),
        "nest" => telling::nest(case, &g),
        "nested" => ordering::nested(case, &g),
        "ranks" => telling::ranks(case, &g),
        _ => tell_paths(case, what, &g),
    }
}

/// Answers the case, and tells whether the subject is one of these.
pub fn answer(subject: &str, case: &mut Case<'_>) -> bool {
    if subject != "graphs" {
        return false;
    }
    match case.word() {
        "callees-first" => ordering::callees_first(case),
        "compare" => comparing::compare(case),
        "digest" => counting::digest(case),
        what => tell(case, what),
    }
    true
}
