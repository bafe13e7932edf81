//! Laws are contracts of functions that do nothing, so they take no time.
fn call_all() {
    goref::laws::limits();
    goref_lines::laws::limits();
    goref_results::laws::marks_are_legal();
    goref_session::laws::some_reply();
    goref_session::laws::one_load();
    goref_session::laws::answers_end();
    goref_session::laws::plain_answers();
}

#[test]
fn laws_take_no_time(_rt: HostRuntime) {
    for _ in 0..1_000_000u32 {
        call_all();
    }
}
