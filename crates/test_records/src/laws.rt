//! Laws are contracts of functions that do nothing, so they take no time.
fn call_those_of_records() {
    go_sgf::laws::limits();
    go_sgf::laws::canonical_spells_plain();
    go_sgf::laws::spelled_is_fit();
    go_sgf::laws::spelled_is_read();
    go_sgf::laws::one_record();
    go_sgf::laws::fronts_stand();
    go_sgf::laws::spelled_are_walked();
    go_sgf::laws::refused_alike();
    go_sgf::laws::cooked_by_front();
    go_sgf::laws::cooking_undoes_escaping();
    go_sgf::laws::komi_is_spelled();
    goref_tools::laws::tidy_is_tidy();
}

fn call_those_of_their_games() {
    go_record::laws::one_outcome();
    go_record::laws::sound_games();
    go_record::laws::judged_by_positions();
    go_record::laws::record_law();
    go_record::laws::usual_lines();
}

#[test]
fn laws_take_no_time(_rt: HostRuntime) {
    for _ in 0..1_000_000u32 {
        call_those_of_records();
        call_those_of_their_games();
    }
}
