use super::*;

#[test]
fn the_laws_of_tables_are_called() {
    agenda_law();
    allowed_law();
    bounds_law();
    entry_law();
    fits_law();
    free_law();
    over_law();
    own_question_law();
    played_law();
    question_law();
    ready_law();
    results_law();
    start_law();
    steps_law();
    tables_law();
    touches_law();
    touched_law();
}
