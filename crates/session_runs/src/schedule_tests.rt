use super::*;

#[test]
fn the_laws_of_light_sessions_schedules_and_touches_are_called() {
    fault_law();
    light_law();
    result_count_law();
    rounds_law();
    touch_law();
}
